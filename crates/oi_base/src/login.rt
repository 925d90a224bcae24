use crate::{Blob, Label};

/// What the two sides settled at a login (RFC 7143, section 13). Lengths are in bytes, times in seconds.
#[derive(Clone, Copy, Debug, PartialEq, Eq)]
pub struct Params {
    /// A write's data has to wait for an R2T.
    pub initial_r2t: bool,
    /// A command may carry data.
    pub immediate: bool,
    /// The longest data segment that the target takes.
    pub max_send: u32,
    /// The longest data segment that this initiator declared to take.
    pub max_recv: u32,
    pub max_burst: u32,
    pub first_burst: u32,
    /// R2Ts that may be outstanding for one task.
    pub outstanding: u16,
    pub time2wait: u16,
    pub time2retain: u16,
}

/// What a login that reached the full feature phase gives to the session.
#[derive(Clone, Copy, Debug, PartialEq, Eq)]
pub struct LoginDone {
    pub params: Params,
    /// The target's session handle.
    pub tsih: u16,
    /// The first CmdSN of the connection.
    pub cmdsn: u32,
    /// MaxCmdSN at its beginning.
    pub max: u32,
    /// The StatSN that is expected next.
    pub exp_stat: u32,
}

/// The name and secret by which a target shows in turn who it is (mutual CHAP, RFC 7143, section 12.1.3).
#[derive(Debug, Drop, PartialEq, Eq)]
pub struct Mutual {
    pub user: Label,
    pub secret: Blob,
}
