//! The challenge handshake (CHAP) of iSCSI's login, and the streams of words from which challenges are drawn.
#![tactic(auto)]

mod challenge;
mod response;
mod streams;
#[cfg(test)]
mod tests;

pub use challenge::chap_challenge;
pub use response::{chap_check, chap_response};
pub use streams::{Purpose, words_for};
