use std::collections::LinkedList;

/// What a seat knows of its pipe. It exists in proofs alone, and no value of it is made.
pub struct View {
    /// The pipe's room, or 0 where the seat was taken in by another.
    pub room: u32,
    pub reads: bool,
    pub writes: bool,
    /// Whether the seat is inside, and which bytes it found there.
    pub holds: bool,
    pub content: LinkedList<u8>,
    /// The bytes that a reader took, and those that a writer gave.
    pub taken: LinkedList<u8>,
    pub given: LinkedList<u8>,
    /// Whether the writer is closed, and whether the reader has seen the end.
    pub closed: bool,
    pub ended: bool,
    /// How often a try found the other half inside.
    pub busy: u64,
    /// How often the pipe was empty and open to a reader, or full to a writer.
    pub waits: u64,
}
