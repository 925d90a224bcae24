//! A pipe of bytes in memory, with room for a fixed number of them, whose two halves may stand in two threads. The
//! bytes stand in one place, which a call tries to take once: no call waits for the other half.
#![tactic(auto)]

mod pipe;
mod reader;
mod rule;
mod steps;
#[cfg(test)]
mod tests;
mod turn;
mod view;
mod writer;

pub use pipe::{PipeEnds, meet, new_pipe};
pub use reader::PipeReader;
pub use turn::PipeTurn;
pub use writer::PipeWriter;
