//! Names of initiators and targets, portals, and what identifies a session.
#![tactic(auto)]

mod address;
mod fault;
mod iscsi_name;
mod laws;
mod portal;
mod reach;
mod session_key;

pub use fault::NameFault;
pub use iscsi_name::IscsiName;
pub use laws::portal_texts_read_once;
pub use portal::Portal;
pub use session_key::{SessionInfo, SessionKey, is_iface_name};
