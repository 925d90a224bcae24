//! Framing of a byte stream into PDUs of iSCSI (RFC 7143, section 11), in whatever pieces the bytes come.
#![tactic(auto)]

mod fault;
mod laws;
mod part;
mod pieces;
mod splitter;

pub use fault::StreamFault;
pub use laws::{
    fed_follows, fed_in_a_row, fed_is_framed, fed_stays, followed_is_framed, one_framing,
    unfed_follows,
};
pub use pieces::frame_pieces;
pub use splitter::Splitter;
