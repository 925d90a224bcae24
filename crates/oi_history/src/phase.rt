use crate::rule::Rule;
use oi_base::Tag;

/// Where a session stands.
#[derive(Clone, Copy, Debug, PartialEq, Eq)]
pub enum Phase {
    /// Before the first login.
    First,
    /// In the full feature phase of the connection with this generation, the number of its login.
    LoggedIn { generation: u64 },
    /// Without a connection since this reading.
    Recovering { since: u64 },
    /// Without a connection for too long.
    FailFast { since: u64 },
    /// Over for good.
    Ended { cause: End },
}

/// Why a session ended.
#[derive(Clone, Copy, Debug, PartialEq, Eq)]
pub enum End {
    /// It was asked for.
    Asked,
    /// The input came to its end.
    InputEnd,
    /// The program stopped with this status.
    Stopped { status: u8 },
}

/// Why a connection was lost.
#[derive(Clone, Copy, Debug, PartialEq, Eq)]
pub enum LostCause {
    /// A read of its link failed.
    Read,
    /// A write of its link failed.
    Write,
    /// The target closed it.
    EndOfInput,
    /// It was cut on request.
    Cut,
    /// The target broke a rule of the protocol.
    Broken(Rule),
    /// A ping was not answered in time.
    Ping,
    /// The error handler has nothing left to try.
    Handler,
    /// The target asked for it by an Async Message with this event (RFC 7143, section 11.9.1).
    Asked(u8),
}

/// What the error handler does. A tag is there once its request was sent.
#[derive(Clone, Copy, Debug, PartialEq, Eq)]
pub enum Handler {
    Idle,
    Aborting {
        id: u64,
        tag: Option<Tag>,
        since: u64,
    },
    ResettingLun {
        lun: u8,
        tag: Option<Tag>,
        since: u64,
    },
    ResettingTarget {
        tag: Option<Tag>,
        since: u64,
    },
    Spent,
}
