//! The target's side of an iSCSI login (RFC 7143, sections 6 and 12): one machine for a normal session and for a discovery, with
//! CHAP in one and in both directions.
#![tactic(auto)]

mod answer;
mod binary;
mod call;
mod chap;
mod config;
mod keys;
mod login;
mod names;
mod pairs;
mod progress;
mod replies;
mod status;
mod turns;

pub use answer::{NewSession, Verdict};
pub use config::{ChapConfig, LoginRules, Moved};
pub use keys::put;
pub use login::TargetLogin;
pub use pairs::read_text;
pub use progress::Who;
