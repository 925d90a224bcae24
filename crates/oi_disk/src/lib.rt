//! A disk of blocks in memory, which answers SCSI commands one after another.
#![tactic(auto)]

mod answer;
mod blocks;
mod command;
mod disk;
mod serve;

pub use answer::{DiskAnswer, good, illegal_request};
pub use command::{Command, read_command};
pub use disk::FlatDisk;
