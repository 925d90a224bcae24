//! The tool's commands: what the words of iscsiadm ask for, and what each command does with the records.
#![tactic(auto)]

mod command;
mod fault;
mod listing;
mod readings;
mod rows;
mod tool;
mod words;

pub use command::AdminCommand;
pub use fault::AdminFault;
pub use tool::apply;
pub use words::read_words;
