ghost use Rattle.std.specs.Prelude.{◌≡◌, ◌+◌, ◌%◌, ◌^◌, ◌↔◌, IsTrue};
ghost use Rattle.oi_base.specs.Serials.{IsBefore};

/// A serial number of 32 bits (RFC 1982), as CmdSN and StatSN are.
#[derive(Clone, Copy, Debug, PartialEq, Eq)]
pub struct Serial(pub u32);

impl Serial {
    /// Whether this number comes before the other one (RFC 1982, section 3.2). Of two numbers that are exactly 2^31
    /// apart neither is less.
    pub fn less(self, other: Serial) -> bool
        ensures { IsTrue result ↔ IsBefore self.0 other.0 }
    {
        let distance = other.0.wrapping_sub(self.0);
        0 < distance && distance < 0x8000_0000
    }

    /// The number after this one.
    pub fn next(self) -> Serial
        ensures { result.0 ≡ (self.0 + 1) % 2 ^ 32 }
    {
        Serial(self.0.wrapping_add(1))
    }
}
