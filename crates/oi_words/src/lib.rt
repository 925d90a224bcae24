//! The words of iscsiadm: which options and flags they give.
#![tactic(auto)]

mod fault;
mod forms;
mod letters;
mod options;
mod parse;
#[cfg(test)]
mod tests;

pub use fault::WordsFault;
pub use options::{Options, read_options};
