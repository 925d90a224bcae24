//! The operational keys of iSCSI's login: what each side offers, and the value that every key has after both spoke.
#![tactic(auto)]

mod check;
mod keys;
mod laws;
mod negotiation;
mod offer;
mod rows;
mod values;

pub use keys::{Key, NumberKey, WordKey, key_named};
pub use laws::{answered_keys_settle, silent_keys_settle};
pub use negotiation::{KeyFault, negotiate};
pub use offer::Offer;
pub use values::{is_silent, number};
