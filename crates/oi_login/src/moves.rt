use crate::fault::LoginFault;
use crate::progress::{Progress, Stage};
use oi_base::{Blob, LoginDone};
use oi_pdu::Pdu;

/// A request to send: what is awaited then, whether it has the T bit, and the text of its own keys.
#[derive(Debug, Drop)]
pub struct Ask {
    pub stage: Stage,
    pub transit: bool,
    pub text: Blob,
}

/// What one response leads to.
#[derive(Debug, Drop)]
pub enum Turn {
    /// A further request.
    Asks { progress: Progress, request: Pdu },
    /// The full feature phase.
    Reaches(LoginDone),
    Fails(LoginFault),
}
