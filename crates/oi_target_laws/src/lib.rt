//! The order in which a target executes the commands of its connections, and what becomes of each.
#![tactic(auto)]

mod laws;

pub use laws::{
    commands_keep_their_order, conflicts_are_exact, logins_are_heard, numbers_succeed,
    owed_are_replies,
};
