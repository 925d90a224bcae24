use oi_base::Serial;

/// The numbers of a PDU of the target (RFC 7143, section 4.2.2).
#[derive(Clone, Copy, Debug, PartialEq, Eq)]
pub struct Numbers {
    /// ExpCmdSN.
    pub exp: Serial,
    /// MaxCmdSN.
    pub max: Serial,
    /// StatSN, where the PDU has one of its own.
    pub stat: Option<Serial>,
}
