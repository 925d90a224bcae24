//! The text of iSCSI's negotiations: key=value pairs, and binary values in hex or base64.
#![tactic(auto)]

mod binary;
mod laws;
mod pairs;
#[cfg(test)]
mod tests;

pub use binary::{BinaryFault, read_binary, write_binary};
pub use laws::{binary_reads_back, pairs_read_back};
pub use pairs::{Pair, TextFault, read_pairs, write_pairs};
