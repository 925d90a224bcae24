ghost use Rattle.std.specs.Prelude.{◌≡◌};
ghost use Rattle.oi_units.specs.Replies.{expected_length, sendable_length};

/// A SCSI command as a target executes it (SAM-5, section 5.1; RFC 7143, section 11.3). Its data come beside it.
#[derive(Clone, Copy, Debug, PartialEq, Eq)]
pub struct UnitCommand {
    /// Logical unit number, 8 bytes as SAM has it.
    pub lun: [u8; 8],
    /// Command descriptor block, padded with zeros.
    pub cdb: [u8; 16],
    /// The R bit: data are expected from the target.
    pub reads: bool,
    /// The W bit: data were sent by the initiator.
    pub writes: bool,
    /// Expected data transfer length in bytes.
    pub length: u32,
}

impl UnitCommand {
    /// The expected length in bytes; without R and W it counts as 0.
    pub fn expected(self) -> u32
        ensures { result ≡ expected_length self }
    {
        if self.writes || self.reads {
            self.length
        } else {
            0
        }
    }

    /// How many bytes the target may send.
    pub fn sendable(self) -> u32
        ensures { result ≡ sendable_length self }
    {
        if self.writes || !self.reads {
            0
        } else {
            self.length
        }
    }
}
