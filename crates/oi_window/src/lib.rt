//! The command window of a session: which numbers the target takes.
#![tactic(auto)]

mod serials;
mod window;

pub use window::Window;

#[cfg(test)]
mod tests;
