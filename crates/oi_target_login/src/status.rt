/// The status of a login (RFC 7143, section 11.13.5).
#[derive(Clone, Copy, Debug, PartialEq, Eq)]
pub struct Status {
    pub class: u8,
    pub detail: u8,
}

impl Status {
    pub const SUCCESS: Status = Status {
        class: 0,
        detail: 0,
    };

    pub const INITIATOR_ERROR: Status = Status {
        class: 2,
        detail: 0,
    };

    pub const AUTHENTICATION_FAILURE: Status = Status {
        class: 2,
        detail: 1,
    };

    pub const NOT_FOUND: Status = Status {
        class: 2,
        detail: 3,
    };

    pub const MISSING_PARAMETER: Status = Status {
        class: 2,
        detail: 7,
    };

    pub const NO_SUCH_TYPE: Status = Status {
        class: 2,
        detail: 9,
    };

    pub const NO_SUCH_SESSION: Status = Status {
        class: 2,
        detail: 0x0a,
    };

    pub const OUT_OF_RESOURCES: Status = Status {
        class: 3,
        detail: 2,
    };
}
