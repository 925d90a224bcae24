//! The pool of the initiator task tags that SCSI commands carry: which tag a command gets, and when a tag may come
//! again.
#![tactic(auto)]

mod calls;
mod place;
mod plain;
mod pool;
mod run;
mod state;
mod tags;
#[cfg(test)]
mod tests;

pub use calls::{TagAnswer, TagCall};
pub use plain::PlainTags;
pub use pool::TagPool;
pub use run::run_tags;
pub use state::TagState;
pub use tags::Tags;
