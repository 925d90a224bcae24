//! SCSI requests: their command descriptor blocks, how many bytes they move, logical unit numbers and sense data.
#![tactic(auto)]

mod descriptor;
mod request;
mod sense;
#[cfg(test)]
mod tests;

pub use descriptor::{cdb, lun_bytes};
pub use request::{Kind, Request, length};
pub use sense::sense_of;
