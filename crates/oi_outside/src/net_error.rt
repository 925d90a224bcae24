use oi_base::NoMemory;
use std::alloc::{AllocError, AllocFailed};
use thiserror::Error;

/// Why a call of a net gave no answer.
#[derive(Clone, Copy, Debug, PartialEq, Eq, Drop, Error)]
pub enum NetError {
    /// The net failed. A count of its faults rose in that call: that of accepts where the call was one, else the other.
    #[error("the net failed")]
    Failed,
    #[error("out of memory")]
    Memory,
}

impl From<NoMemory> for NetError {
    ghost use Rattle.std.specs.Prelude.{◌≡◌};
    ghost use Rattle.oi_outside.specs.declared.net_error.NetError.TheVariants.{Memory};

    ghost from_gives = { λ _ e. e ≡ Memory };

    fn from(_e: NoMemory) -> NetError {
        NetError::Memory
    }
}

impl From<AllocError> for NetError {
    ghost use Rattle.std.specs.Prelude.{◌≡◌};
    ghost use Rattle.oi_outside.specs.declared.net_error.NetError.TheVariants.{Memory};

    ghost from_gives = { λ _ e. e ≡ Memory };

    fn from(_e: AllocError) -> NetError {
        NetError::Memory
    }
}

impl<T: Drop> From<AllocFailed<T>> for NetError {
    ghost use Rattle.std.specs.Prelude.{◌≡◌};
    ghost use Rattle.oi_outside.specs.declared.net_error.NetError.TheVariants.{Memory};

    ghost from_gives = { λ _ e. e ≡ Memory };

    fn from(_e: AllocFailed<T>) -> NetError {
        NetError::Memory
    }
}
