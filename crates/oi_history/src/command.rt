ghost use Rattle.std.specs.Prelude.{◌≡◌, IfOk};
ghost use Rattle.oi_history.specs.Commands.{command_of};

use oi_base::{Blob, NoMemory};
use oi_scsi::{Request, cdb};
use std::alloc::Global;

/// What a request comes to on the wire.
#[derive(Debug, Drop, PartialEq, Eq)]
pub struct Command {
    pub lun: u8,
    pub cdb: [u8; 16],
    /// The expected data transfer length in bytes.
    pub length: u32,
    pub reads: bool,
    pub writes: bool,
    /// What is written.
    pub written: Blob,
}

impl Command {
    pub fn new(alloc: Global, request: &Request) -> Result<Command, NoMemory>
        ensures { IfOk result (λ c. c ≡ command_of request.now) }
    {
        let kind = &request.kind;
        let written = kind.data(alloc)?;
        Ok(Command {
            lun: request.lun,
            cdb: cdb(kind),
            length: kind.length(),
            reads: kind.reads(),
            writes: kind.writes(),
            written,
        })
    }
}
