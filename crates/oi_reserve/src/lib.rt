//! Persistent reservations of a logical unit: a table of registered nexuses and at most one holder. Left out of SPC-4 are
//! PREEMPT AND ABORT, the types for all registrants, other scopes, unit attentions and persistence through power loss.
#![tactic(auto)]

mod access;
mod answer;
mod entry;
mod holder;
mod order;
mod registered;
mod report;
mod table;

pub use access::{Wish, wish_of};
pub use answer::ReserveAnswer;
pub use entry::Nexus;
pub use table::Reservations;
