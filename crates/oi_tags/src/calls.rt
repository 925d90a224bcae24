use crate::TagState;
use oi_base::Tag;

/// A call of a pool of tags.
#[derive(Clone, Copy, Debug, PartialEq, Eq)]
pub enum TagCall {
    Reset { age: u8 },
    Take,
    End { tag: Tag },
    Reap { tag: Tag },
    State { tag: Tag },
}

/// What a pool of tags answers to a call.
#[derive(Clone, Copy, Debug, PartialEq, Eq)]
pub enum TagAnswer {
    Done,
    /// What `take` gave.
    Given(Option<Tag>),
    /// What `state` told.
    Is(TagState),
    /// The call's condition did not hold; nothing has changed.
    Refused,
}
