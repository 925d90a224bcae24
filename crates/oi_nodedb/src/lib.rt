//! The database of node records: the records in the order of their keys, beside a store that keeps their texts by path.
#![tactic(auto)]

mod db;
mod edits;
mod error;
mod filter;
mod laws;
mod load;
mod place;
mod sessions;
mod stored;

pub use db::NodeDb;
pub use error::DbError;
pub use filter::{Filter, is_portal};
pub use laws::stores_follow;
