use crate::HostCode;

/// How a submission stands that is not done.
#[derive(Clone, Copy, Debug, PartialEq, Eq)]
pub enum Stand {
    /// It waits to be sent, with so many tries used.
    Waiting { tries: u8 },
    /// It is sent, and its present try is among those used.
    Live { tries: u8 },
}

/// What an event makes of a submission.
#[derive(Clone, Copy, Debug, PartialEq, Eq)]
pub enum Next {
    /// It stands as before.
    Stay,
    /// It waits to be sent again, with so many tries used.
    Wait { tries: u8 },
    /// It is done, with the answer of the target.
    Answer,
    /// It is done without an answer.
    Host(HostCode),
}
