use crate::phase::{End, LostCause};
use oi_base::{Params, Tag};
use oi_pdu::Pdu;
use oi_scsi::Request;

/// What a task management request is about.
#[derive(Clone, Copy, Debug, PartialEq, Eq)]
pub enum Subject {
    /// The submission with this id.
    Task(u64),
    Lun(u8),
    /// The whole target.
    Whole,
}

/// One step of a session. A connection is named by its generation, the number of its login, counted from 1.
#[derive(Debug, Drop, PartialEq, Eq)]
pub enum Event {
    /// A request came in; ids count from 0.
    Submit {
        id: u64,
        request: Request,
    },
    /// A Data-Out was sent. Its place and length are in bytes.
    Push {
        id: u64,
        generation: u64,
        ttt: u32,
        number: u32,
        offset: u32,
        length: u32,
        last: bool,
    },
    /// A PDU came in.
    PduIn {
        generation: u64,
        pdu: Pdu,
    },
    /// So many outcomes were handed out.
    Deliver {
        count: u32,
    },
    /// A login reached the full feature phase.
    Login {
        generation: u64,
        params: Params,
        cmdsn: u32,
        max: u32,
        exp_stat: u32,
    },
    /// The command of a submission was sent.
    Issue {
        id: u64,
        generation: u64,
        tag: Tag,
        cmdsn: u32,
    },
    /// So many R2Ts were taken up.
    Draw {
        count: u32,
    },
    /// The tag of a command that is over was released.
    Reap {
        tag: Tag,
    },
    /// A task management request was sent.
    Manage {
        generation: u64,
        tag: Tag,
        function: u8,
        subject: Subject,
    },
    /// A NOP-Out was sent.
    Nop {
        generation: u64,
        tag: u32,
        ttt: u32,
        lun: [u8; 8],
    },
    /// A Logout Request was sent.
    Logout {
        generation: u64,
        tag: Tag,
    },
    /// A logout was asked for.
    Leave,
    /// The connection was lost.
    Lost {
        generation: u64,
        cause: LostCause,
    },
    /// The clock was read, in milliseconds.
    Tick {
        now: u64,
    },
    /// The abort of a submission was asked for.
    Abort {
        id: u64,
    },
    /// The reset of a logical unit was asked for.
    ResetLun {
        lun: u8,
    },
    /// The reset of the target was asked for.
    ResetTarget,
    /// The session ended.
    Terminate {
        cause: End,
    },
}

/// An event with its number in the session.
#[derive(Debug, Drop, PartialEq, Eq)]
pub struct Numbered {
    pub number: u64,
    pub event: Event,
}
