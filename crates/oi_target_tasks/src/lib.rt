//! The commands of a session of the test target that came and were not executed yet, in order, found by their tag.
#![tactic(auto)]

mod task;
mod tasks;

pub use task::Task;
pub use tasks::Tasks;
