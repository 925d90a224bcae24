//! The whole program but its outside: words, input, output and stored records in, a status and the runs out.
#![tactic(auto)]

mod main_call;
#[cfg(test)]
mod tests;
mod tool_call;

pub use main_call::iscsi_main;
pub use tool_call::admin_main;
