use oi_base::Tag;

/// An initiator task tag in use: from its command until it is released.
#[derive(Clone, Copy, Debug, PartialEq, Eq)]
pub struct Allocated {
    pub tag: Tag,
    /// The submission.
    pub id: u64,
    /// The number of its command.
    pub cmdsn: u32,
}
