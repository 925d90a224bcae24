use oi_script::Refusal;

/// How a line's part ended.
#[derive(Clone, Copy, Debug, PartialEq, Eq)]
pub enum Answer {
    Done,
    /// The session refuses it as it stands.
    Refused(Refusal),
    /// It can't stand behind the lines before it.
    Outside,
    /// It would pass a limit of the history.
    Spent,
}

/// What a transmission did.
#[derive(Clone, Copy, Debug, PartialEq, Eq)]
pub enum Turn {
    Sent,
    /// Nothing was left to send.
    Idle,
    Spent,
}
