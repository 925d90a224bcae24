//! Laws of calls of the database, one after another: what stands in the store and in the value behind them.
#![tactic(auto)]

mod laws;

pub use laws::{calls_change_what_they_mean, stores_follow_courses};
