/// What a call of a half answers.
#[derive(Clone, Copy, Debug, PartialEq, Eq)]
pub enum PipeTurn {
    /// So many bytes were moved, at least one.
    Moved(usize),
    /// The other half was inside a call, the pipe was full at a write, or it was empty and not closed at a read.
    NotYet,
    /// A read found the pipe empty, and its writer closed.
    End,
}
