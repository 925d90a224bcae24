/// A reset, which ends tasks of all sessions of the target (SAM-5, section 7.7).
#[derive(Clone, Copy, Debug, PartialEq, Eq)]
pub enum Reset {
    /// Of the logical unit with this number.
    Unit([u8; 8]),
    Whole,
}
