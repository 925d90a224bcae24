ghost use Rattle.std.specs.Prelude.{◌≡◌};

/// What this initiator offers for each key (RFC 7143, section 13). Lengths are in bytes, times in seconds.
#[derive(Clone, Copy, Debug, PartialEq, Eq)]
pub struct Offer {
    /// InitialR2T: a write's data has to wait for an R2T.
    pub initial_r2t: bool,
    /// ImmediateData: a command may carry data.
    pub immediate: bool,
    /// MaxBurstLength.
    pub max_burst: u32,
    /// FirstBurstLength.
    pub first_burst: u32,
    /// DefaultTime2Wait.
    pub time2wait: u16,
    /// DefaultTime2Retain.
    pub time2retain: u16,
    /// MaxOutstandingR2T.
    pub outstanding: u16,
    /// MaxRecvDataSegmentLength, which this side declares.
    pub max_recv: u32,
}

impl Offer {
    ghost use Rattle.oi_negotiate.specs.Offers.{standard_offer};

    /// What is offered where nothing else is configured.
    pub const fn standard() -> Offer
        ensures { result ≡ standard_offer }
    {
        Offer {
            initial_r2t: false,
            immediate: true,
            max_burst: 16_776_192,
            first_burst: 262_144,
            time2wait: 2,
            time2retain: 0,
            outstanding: 1,
            max_recv: 262_144,
        }
    }
}
