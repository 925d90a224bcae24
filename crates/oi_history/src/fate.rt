ghost use Rattle.std.specs.Prelude.{◌≡◌, IfOk};

use oi_base::{Blob, NoMemory, Tag};
use oi_recovery::{HostCode, Residual};
use std::alloc::Global;

/// What a submission is answered.
#[derive(Debug, Drop, PartialEq, Eq)]
pub enum Outcome {
    /// The target's reply: the SCSI status, the residual count, sense data, and the data that a read got.
    Answered {
        status: u8,
        residual: Residual,
        sense: Blob,
        got: Blob,
    },
    /// No answer of the target, for this reason.
    Host(HostCode),
}

impl Outcome {
    pub fn copy(&self, alloc: Global) -> Result<Outcome, NoMemory>
        ensures { IfOk result (λ o. o ≡ self.now) }
    {
        match self {
            Outcome::Answered {
                status,
                residual,
                sense,
                got,
            } => Ok(Outcome::Answered {
                status: *status,
                residual: *residual,
                sense: sense.copy(alloc)?,
                got: got.copy(alloc)?,
            }),
            Outcome::Host(code) => Ok(Outcome::Host(*code)),
        }
    }
}

/// Where a submission stands. Tries count the present one.
#[derive(Debug, Drop, PartialEq, Eq)]
pub enum Fate {
    /// It waits to be sent.
    Waiting {
        tries: u8,
    },
    /// Its command is out under this tag of this connection.
    Live {
        generation: u64,
        tag: Tag,
        tries: u8,
    },
    /// It is answered, by the entry with this number.
    Done {
        outcome: Outcome,
        at: u64,
    },
}

/// A submission's outcome, as it is handed out.
#[derive(Debug, Drop, PartialEq, Eq)]
pub struct Delivered {
    pub id: u64,
    pub outcome: Outcome,
}
