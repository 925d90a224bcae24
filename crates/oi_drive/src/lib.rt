//! `drive`: a session replayed from its input lines.
#![tactic(auto)]

mod acting;
mod answer;
mod deeds;
mod ended;
mod handing;
mod lines;
mod link;
mod reading;
mod runner;
mod taking;
mod writing;

pub use ended::{Ended, drive_main};
