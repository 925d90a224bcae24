//! Laws of the tool: what words and stored records come to is one thing at most.
#![tactic(auto)]

mod laws;

pub use laws::runs_are_one;
