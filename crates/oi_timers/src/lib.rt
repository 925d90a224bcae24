//! Times that are past, pings that are due, and times by key.
#![tactic(auto)]

mod agenda;
mod pings;
mod timer;

pub use agenda::Agenda;
pub use pings::{PingDue, ping};
pub use timer::{past, replacement};

#[cfg(test)]
mod tests;
