ghost use Rattle.std.specs.Prelude.{◌≡◌, ◌+◌, ◌%◌, ◌^◌};
ghost use Rattle.oi_target_session.specs.Answers.{after_status, max_number};
ghost use Rattle.oi_target_session.specs.Sequences.{AreLimits, usable};

use oi_base::Serial;

/// What the login settled, in bytes. `max_send` is the length that the initiator declared for a data segment.
#[derive(Clone, Copy, Debug, PartialEq, Eq)]
pub struct Limits {
    pub max_send: u32,
    pub max_burst: u32,
    pub first_burst: u32,
}

impl Limits {
    /// The same, where a PDU can carry them: at least one byte, and at most 2^24 - 1 in a segment.
    pub fn usable(self) -> Limits
        ensures value { result ≡ usable self }
        ensures limits { AreLimits result }
    {
        Limits {
            max_send: self.max_send.max(1).min(0xff_ffff),
            max_burst: self.max_burst.max(1),
            first_burst: self.first_burst,
        }
    }
}

/// ExpCmdSN, and the StatSN of the next status (RFC 7143, section 4.2.2).
#[derive(Clone, Copy, Debug, PartialEq, Eq)]
pub struct Numbers {
    pub exp: Serial,
    pub stat: Serial,
}

impl Numbers {
    /// MaxCmdSN: the window holds 32 commands.
    pub fn max(self) -> Serial
        ensures { result ≡ max_number self }
    {
        Serial(self.exp.0.wrapping_add(31))
    }

    /// The numbers after a status was sent.
    pub fn after_status(self) -> Numbers
        ensures { result ≡ after_status self }
    {
        Numbers {
            exp: self.exp,
            stat: self.stat.next(),
        }
    }
}
