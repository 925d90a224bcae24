//! The login of an iSCSI initiator (RFC 7143, sections 6 and 12): one machine for a normal session and for a discovery,
//! with CHAP in one and in both directions.
#![tactic(auto)]

mod chap;
mod config;
mod fault;
mod keys;
mod laws;
mod login;
mod moves;
mod pairs;
mod progress;
mod redirection;
mod refusals;
mod request;
mod turns;

pub use config::{LoginAuth, LoginConfig};
pub use fault::LoginFault;
pub use laws::{login_exact, login_journeys_grow, target_shows_itself};
pub use login::{Login, LoginStep};
