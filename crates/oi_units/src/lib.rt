//! The logical units of a target: each has a disk and a table of reservations, and is asked one command after another.
#![tactic(auto)]

mod command;
mod laws;
mod listing;
mod reply;
mod unit;
mod units;

pub use command::UnitCommand;
pub use laws::lent_is_executed;
pub use reply::{Lent, UnitReply};
pub use unit::LogicalUnit;
pub use units::Units;
