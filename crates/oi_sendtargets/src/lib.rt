//! What a target answers to SendTargets: the names of targets, and the portals at which each of them is reached.
#![tactic(auto)]

mod found;
mod laws;
mod parts;
mod read;
mod write;

pub use found::{Found, TargetsFault};
pub use laws::targets_read_back;
pub use read::read_targets;
pub use write::write_targets;
