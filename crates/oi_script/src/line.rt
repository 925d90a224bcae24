use oi_base::{Blob, Label, NoMemory, Params};
use oi_scsi::Request;
use std::alloc::AllocError;
use thiserror::Error;

/// One input line of `drive`.
#[derive(Debug, Drop, PartialEq, Eq)]
pub enum DriveLine {
    /// An empty line or a comment.
    Skip,
    /// A setting of the session has this value; -1 is for a time without end.
    Set {
        name: Label,
        value: i64,
    },
    /// The connection reached the full feature phase.
    Login {
        cmdsn: u32,
        max: u32,
        exp_stat: u32,
        params: Params,
    },
    Submit {
        request: Request,
    },
    /// So many PDUs at most are sent.
    Send {
        count: u32,
    },
    /// Bytes of the target on the connection with this generation.
    Recv {
        generation: u64,
        bytes: Blob,
    },
    /// The connection is cut.
    Cut,
    /// The clock reads so many milliseconds.
    Tick {
        now: u64,
    },
    Abort {
        id: u64,
    },
    ResetLun {
        lun: u8,
    },
    ResetTarget,
    /// The session is to log out.
    Leave,
    /// The command window is to be printed.
    Window,
    End,
}

/// Why a line was not read.
#[derive(Clone, Copy, Debug, PartialEq, Eq, Drop, Error)]
pub enum LineFault {
    #[error("the line is none of the language")]
    Bad,
    #[error("out of memory")]
    Memory,
}

impl From<NoMemory> for LineFault {
    ghost use Rattle.oi_script.specs.declared.line.LineFault.TheVariants.{Memory};
    ghost use Rattle.std.specs.Prelude.{◌≡◌};

    ghost from_gives = { λ _ e. e ≡ Memory };

    fn from(_e: NoMemory) -> LineFault {
        LineFault::Memory
    }
}

impl From<AllocError> for LineFault {
    ghost use Rattle.oi_script.specs.declared.line.LineFault.TheVariants.{Memory};
    ghost use Rattle.std.specs.Prelude.{◌≡◌};

    ghost from_gives = { λ _ e. e ≡ Memory };

    fn from(_e: AllocError) -> LineFault {
        LineFault::Memory
    }
}
