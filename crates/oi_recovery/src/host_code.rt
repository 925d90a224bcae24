ghost use Rattle.std.specs.Prelude.{◌≡◌};

/// Why a submission ended without an answer of the target. The numbers are those of Linux's host byte.
#[derive(Clone, Copy, Debug, PartialEq, Eq)]
pub enum HostCode {
    /// The session ended.
    NoConnect = 0x01,
    /// The reply contradicts the command.
    BadTarget = 0x04,
    /// Aborted, by its submitter or by the error handler.
    Abort = 0x05,
    /// The target failed the command, or data of it are missing.
    Error = 0x07,
    /// Ended by a reset of its logical unit or target.
    Reset = 0x08,
    /// The connection was lost at the last try.
    Disrupted = 0x0e,
    /// No connection came in the time for a replacement.
    FailFast = 0x0f,
}

impl HostCode {
    ghost use Rattle.oi_recovery.specs.HostCodes.{host_number};

    /// The number in Linux's host byte.
    pub fn number(self) -> u8
        ensures { result ≡ host_number self }
    {
        self as u8
    }
}
