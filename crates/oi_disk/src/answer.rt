ghost use Rattle.std.specs.Prelude.{◌≡◌, IfOk};
ghost use Rattle.oi_disk.specs.Answers.{good, illegal_request};

use oi_base::{Blob, NoMemory};
use std::alloc::Global;

/// Status and sense data of a command (RFC 7143, section 11.4): status 00 is GOOD, 02 is CHECK CONDITION.
#[derive(Debug, Drop, PartialEq, Eq)]
pub struct DiskAnswer {
    pub status: u8,
    pub sense: Blob,
}

/// GOOD.
pub fn good(alloc: Global) -> DiskAnswer
    ensures { result ≡ good }
{
    DiskAnswer {
        status: 0x00,
        sense: Blob::new(alloc),
    }
}

/// CHECK CONDITION for an illegal request, with this additional sense code.
pub fn illegal_request(alloc: Global, code: u8) -> Result<DiskAnswer, NoMemory>
    ensures { IfOk result (λ a. a ≡ illegal_request code) }
{
    let sense = [
        0x70, 0, 0x05, 0, 0, 0, 0, 0x0a, 0, 0, 0, 0, code, 0, 0, 0, 0, 0,
    ];
    Ok(DiskAnswer {
        status: 0x02,
        sense: Blob::from_slice(alloc, &sense)?,
    })
}
