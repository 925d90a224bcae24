use oi_base::NoMemory;
use oi_history::{End, Event, Handler, Phase, Rule};
use std::alloc::AllocError;
use thiserror::Error;

/// A submission that was taken.
#[derive(Clone, Copy, Debug, PartialEq, Eq)]
pub struct Receipt {
    /// Its id; ids count from 0.
    pub id: u64,
    /// The number of its entry.
    pub number: u64,
}

/// Why a submission was not taken.
#[derive(Clone, Copy, Debug, PartialEq, Eq, Drop, Error)]
pub enum SubmitRefused {
    #[error("the session has ended")]
    Ended { cause: End },
    #[error("too many submissions are not done")]
    Full { waiting: u32 },
    #[error("the history is full")]
    Spent { steps: u64, kept: u64 },
    #[error("out of memory")]
    Memory,
}

/// Why a login was not taken.
#[derive(Clone, Copy, Debug, PartialEq, Eq, Drop, Error)]
pub enum LoginRefused {
    #[error("the session has ended")]
    Ended { cause: End },
    #[error("the session is logged in")]
    LoggedIn { current: u64 },
    #[error("the history is full")]
    Spent { steps: u64, kept: u64 },
    #[error("out of memory")]
    Memory,
}

/// Why a step was not made.
#[derive(Clone, Copy, Debug, PartialEq, Eq, Drop, Error)]
pub enum StepRefused {
    #[error("the history is full")]
    Spent { steps: u64, kept: u64 },
    #[error("out of memory")]
    Memory,
}

/// The session has ended before, by this cause.
#[derive(Clone, Copy, Debug, PartialEq, Eq, Drop, Error)]
#[error("the session has ended")]
pub struct AlreadyEnded {
    pub cause: End,
}

/// What a transmission did.
#[derive(Debug, Drop, PartialEq, Eq)]
pub enum Transmit {
    /// There is no connection.
    NotLoggedIn { phase: Phase },
    /// The connection is another one.
    Changed { current: u64 },
    /// Nothing is to be sent.
    Idle,
    /// One PDU was sent, by this entry.
    Sent(Event),
}

/// Why the abort of a submission was not begun.
#[derive(Clone, Copy, Debug, PartialEq, Eq, Drop, Error)]
pub enum AbortRefused {
    #[error("there is no such submission")]
    Unknown { submitted: u64 },
    /// It is done, by the entry with this number.
    #[error("the submission is done")]
    TooLate { at: u64 },
    #[error("the error handler is at work")]
    Busy { running: Handler },
    #[error("the history is full")]
    Spent { steps: u64, kept: u64 },
    #[error("out of memory")]
    Memory,
}

/// Why a reset or a logout was not begun.
#[derive(Clone, Copy, Debug, PartialEq, Eq, Drop, Error)]
pub enum ControlRefused {
    #[error("there is no connection")]
    NotLoggedIn { phase: Phase },
    #[error("the error handler is at work")]
    Busy { running: Handler },
    #[error("the history is full")]
    Spent { steps: u64, kept: u64 },
    #[error("out of memory")]
    Memory,
}

/// What became of the loss of a connection.
#[derive(Clone, Copy, Debug, PartialEq, Eq)]
pub enum LostDone {
    /// The connection is not the live one.
    Stale { current: u64 },
    /// The cause does not hold.
    NotSo,
    Lost,
}

/// What a reading of the clock showed.
#[derive(Clone, Copy, Debug, PartialEq, Eq)]
pub struct Ticked {
    /// The outstanding ping was not answered in its time.
    pub ping: bool,
    /// The error handler has nothing left to try.
    pub handler: bool,
}

/// What a PDU of the target came to.
#[derive(Clone, Copy, Debug, PartialEq, Eq)]
pub enum Received {
    /// Its connection is not the live one.
    Stale { current: u64 },
    /// The connection is broken by this rule.
    Broken { rule: Rule },
    /// The target asks by an Async Message with this event to end the connection.
    Asked { event: u8 },
    Applied,
}

impl From<NoMemory> for SubmitRefused {
    ghost use Rattle.oi_solo.specs.declared.answers.SubmitRefused.TheVariants.{Memory};
    ghost use Rattle.std.specs.Prelude.{◌≡◌};

    ghost from_gives = { λ _ e. e ≡ Memory };

    fn from(_e: NoMemory) -> SubmitRefused {
        SubmitRefused::Memory
    }
}

impl From<AllocError> for SubmitRefused {
    ghost use Rattle.oi_solo.specs.declared.answers.SubmitRefused.TheVariants.{Memory};
    ghost use Rattle.std.specs.Prelude.{◌≡◌};

    ghost from_gives = { λ _ e. e ≡ Memory };

    fn from(_e: AllocError) -> SubmitRefused {
        SubmitRefused::Memory
    }
}

impl From<NoMemory> for LoginRefused {
    ghost use Rattle.oi_solo.specs.declared.answers.LoginRefused.TheVariants.{Memory};
    ghost use Rattle.std.specs.Prelude.{◌≡◌};

    ghost from_gives = { λ _ e. e ≡ Memory };

    fn from(_e: NoMemory) -> LoginRefused {
        LoginRefused::Memory
    }
}

impl From<AllocError> for LoginRefused {
    ghost use Rattle.oi_solo.specs.declared.answers.LoginRefused.TheVariants.{Memory};
    ghost use Rattle.std.specs.Prelude.{◌≡◌};

    ghost from_gives = { λ _ e. e ≡ Memory };

    fn from(_e: AllocError) -> LoginRefused {
        LoginRefused::Memory
    }
}

impl From<NoMemory> for StepRefused {
    ghost use Rattle.oi_solo.specs.declared.answers.StepRefused.TheVariants.{Memory};
    ghost use Rattle.std.specs.Prelude.{◌≡◌};

    ghost from_gives = { λ _ e. e ≡ Memory };

    fn from(_e: NoMemory) -> StepRefused {
        StepRefused::Memory
    }
}

impl From<AllocError> for StepRefused {
    ghost use Rattle.oi_solo.specs.declared.answers.StepRefused.TheVariants.{Memory};
    ghost use Rattle.std.specs.Prelude.{◌≡◌};

    ghost from_gives = { λ _ e. e ≡ Memory };

    fn from(_e: AllocError) -> StepRefused {
        StepRefused::Memory
    }
}

impl From<NoMemory> for AbortRefused {
    ghost use Rattle.oi_solo.specs.declared.answers.AbortRefused.TheVariants.{Memory};
    ghost use Rattle.std.specs.Prelude.{◌≡◌};

    ghost from_gives = { λ _ e. e ≡ Memory };

    fn from(_e: NoMemory) -> AbortRefused {
        AbortRefused::Memory
    }
}

impl From<AllocError> for AbortRefused {
    ghost use Rattle.oi_solo.specs.declared.answers.AbortRefused.TheVariants.{Memory};
    ghost use Rattle.std.specs.Prelude.{◌≡◌};

    ghost from_gives = { λ _ e. e ≡ Memory };

    fn from(_e: AllocError) -> AbortRefused {
        AbortRefused::Memory
    }
}

impl From<NoMemory> for ControlRefused {
    ghost use Rattle.oi_solo.specs.declared.answers.ControlRefused.TheVariants.{Memory};
    ghost use Rattle.std.specs.Prelude.{◌≡◌};

    ghost from_gives = { λ _ e. e ≡ Memory };

    fn from(_e: NoMemory) -> ControlRefused {
        ControlRefused::Memory
    }
}

impl From<AllocError> for ControlRefused {
    ghost use Rattle.oi_solo.specs.declared.answers.ControlRefused.TheVariants.{Memory};
    ghost use Rattle.std.specs.Prelude.{◌≡◌};

    ghost from_gives = { λ _ e. e ≡ Memory };

    fn from(_e: AllocError) -> ControlRefused {
        ControlRefused::Memory
    }
}
