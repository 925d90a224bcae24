use oi_base::Label;
use oi_names::Portal;
use thiserror::Error;

/// Why a login ended without the full feature phase.
#[derive(Debug, PartialEq, Eq, Drop, Error)]
pub enum LoginFault {
    /// The target refused the login, with this status (RFC 7143, section 11.13.5).
    #[error("login status {class:02x}{detail:02x}")]
    Status { class: u8, detail: u8 },
    /// A PDU that is no Login Response, another stage than the one that was asked for, or a transit that was not asked for.
    #[error("wrong stage of the login")]
    WrongStage,
    /// The key's value is outside its range, or the key was answered before. The key is empty where a text is no list of
    /// pairs.
    #[error("bad value of a key")]
    Key { key: Label },
    /// The target does not take part in the authentication as it has to, or did not show who it is.
    #[error("authentication failed")]
    Auth,
    /// The target is found at another portal (RFC 7143, section 11.13.5, status class 1).
    #[error("the target has moved")]
    Moved { portal: Portal },
    /// The login is not done after 32 responses, or a text is longer than 65,536 bytes.
    #[error("the login does not end")]
    TooManyTurns,
    /// An earlier call answered that the login is done or failed.
    #[error("the login is over")]
    Over,
    #[error("out of memory")]
    Memory,
}
