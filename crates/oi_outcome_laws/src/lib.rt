//! What decides the outcome of a submission: the target's reply to its last try, or the recovery table.
#![tactic(auto)]

mod laws;

pub use laws::outcomes_are_decided;
