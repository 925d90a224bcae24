//! PDUs of iSCSI (RFC 7143, section 11): reading and writing of all headers that an initiator and a target exchange at
//! error recovery level 0.
#![tactic(auto)]

mod basic;
mod codec;
mod header;
mod laws;
mod layouts;
mod readings;

pub use codec::{BadHeader, Pdu, lengths, read_pdu, received, write_pdu};
pub use header::{
    Async, DataIn, DataOut, Header, LoginRequest, LoginResponse, LogoutRequest, LogoutResponse,
    NopIn, NopOut, R2t, Reject, ScsiCommand, ScsiResponse, TaskManagement, TaskResponse,
    TextRequest, TextResponse,
};
pub use laws::encoded_decodes;
