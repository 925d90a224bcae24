use oi_base::Tag;
use oi_buffer::Piece;

/// A Data-Out that waits to be sent (RFC 7143, section 11.7).
#[derive(Clone, Copy, Debug, PartialEq, Eq)]
pub struct Queued {
    /// The submission.
    pub id: u64,
    pub tag: Tag,
    /// The target transfer tag; ffffffff for unsolicited data.
    pub ttt: u32,
    pub piece: Piece,
}

/// An R2T that was received and not taken up yet (RFC 7143, section 11.8). Place and length are in bytes.
#[derive(Clone, Copy, Debug, PartialEq, Eq)]
pub struct Solicited {
    pub tag: Tag,
    pub ttt: u32,
    pub offset: u32,
    pub length: u32,
}

/// A NOP-In that asks for an answer (RFC 7143, section 11.19).
#[derive(Clone, Copy, Debug, PartialEq, Eq)]
pub struct Echo {
    pub ttt: u32,
    pub lun: [u8; 8],
}

/// A ping that was not answered yet (RFC 7143, section 11.18).
#[derive(Clone, Copy, Debug, PartialEq, Eq)]
pub struct Ping {
    pub tag: Tag,
    /// The reading at which it was sent, in milliseconds.
    pub sent: u64,
}

/// What the last entry under both locks told of the half that receives.
#[derive(Clone, Copy, Debug, PartialEq, Eq)]
pub struct Told {
    /// ExpStatSN.
    pub stat: u32,
    /// Submissions that are not done; those that came in since are added.
    pub pending: u32,
}
