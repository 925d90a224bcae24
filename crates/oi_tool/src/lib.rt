//! The tool that stands alone: from the words of iscsiadm and the stored records to text, a changed store and a status.
#![tactic(auto)]

mod asking;
mod ending;
mod running;
mod stop;

pub use running::run_tool;
