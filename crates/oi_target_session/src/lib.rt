//! One session of a test target in its full feature phase (RFC 7143, section 4.3): commands in order, data in sequences, R2T.
#![tactic(auto)]

mod answers;
mod data;
mod early;
mod fed;
mod laws;
mod limits;
mod manage;
mod owed;
mod parts;
mod place;
mod reset;
mod session;
mod text;

pub use early::hold;
pub use fed::Fed;
pub use laws::{data_fit_their_room, execution_is_sequential};
pub use limits::{Limits, Numbers};
pub use owed::Owed;
pub use place::{Place, place_of};
pub use reset::Reset;
pub use session::Session;
