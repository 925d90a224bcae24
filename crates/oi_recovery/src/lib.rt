//! What becomes of a submission at a reply, a loss of the connection, a step of the error handler or the end of the
//! session: one table.
#![tactic(auto)]

mod hit;
mod host_code;
mod stand;
mod table;

pub use hit::{Aim, Hit, Residual};
pub use host_code::HostCode;
pub use stand::{Next, Stand};
pub use table::after;

#[cfg(test)]
mod tests;
