//! Words and small types that every crate of the initiator shares: serial numbers, initiator task tags, lists of bytes
//! as contracts see them, decimal numbers, and what a login settles.
#![tactic(auto)]

mod blob;
mod decimal;
mod keeps;
mod label;
mod login;
mod memory;
mod serial;
mod series;
mod tag;
#[cfg(test)]
mod tests;

pub use blob::Blob;
pub use decimal::{number_place, read_number, write_number};
pub use keeps::Keeps;
pub use label::Label;
pub use login::{LoginDone, Mutual, Params};
pub use memory::NoMemory;
pub use serial::Serial;
pub use series::Series;
pub use tag::{Tag, TagKind, age_of};
