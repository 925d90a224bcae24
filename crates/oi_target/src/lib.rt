//! A test target (RFC 7143): its connections from the first byte on, logins, sessions, discoveries, and logical units.
#![tactic(auto)]

mod config;
mod feed;
mod laws;
mod link;
mod steps;
mod target;

pub use config::TargetConfig;
pub use laws::{
    calls_are_events, cuts_do_not_matter, sessions_are_proved, units_change_by_execution,
};
pub use oi_target_login::{ChapConfig, Moved};
pub use oi_target_session::Fed;
pub use target::Target;
