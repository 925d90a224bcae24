use oi_base::NoMemory;
use std::alloc::{AllocError, AllocFailed};
use thiserror::Error;

/// Why a splitter hands out no further PDU. Places are offsets in the stream, in bytes; one above 2^64 - 1 is told as
/// that value.
#[derive(Clone, Copy, Debug, PartialEq, Eq, Drop, Error)]
pub enum StreamFault {
    /// The header that begins at `place` is bad: at byte 0 for an unknown opcode, at byte 1 for a login PDU that names
    /// stage 2.
    #[error("bad byte {byte} of the header at {place}")]
    BadHeader { place: u64, byte: u8 },
    /// The header that begins at `place` names a data segment of `length` bytes, which are more than the limit.
    #[error("data segment of {length} bytes at {place}")]
    TooLong { place: u64, length: u32 },
    /// The splitter has ended before; the first PDU that it did not hand out begins at `place`.
    #[error("ended at {place}")]
    Ended { place: u64 },
    #[error("out of memory")]
    Memory,
}

impl From<NoMemory> for StreamFault {
    ghost use Rattle.std.specs.Prelude.{◌≡◌};
    ghost use Rattle.oi_stream.specs.declared.fault.StreamFault.TheVariants.{Memory};

    ghost from_gives = { λ _ e. e ≡ Memory };

    fn from(_e: NoMemory) -> StreamFault {
        StreamFault::Memory
    }
}

impl From<AllocError> for StreamFault {
    ghost use Rattle.std.specs.Prelude.{◌≡◌};
    ghost use Rattle.oi_stream.specs.declared.fault.StreamFault.TheVariants.{Memory};

    ghost from_gives = { λ _ e. e ≡ Memory };

    fn from(_e: AllocError) -> StreamFault {
        StreamFault::Memory
    }
}

impl<T: Drop> From<AllocFailed<T>> for StreamFault {
    ghost use Rattle.std.specs.Prelude.{◌≡◌};
    ghost use Rattle.oi_stream.specs.declared.fault.StreamFault.TheVariants.{Memory};

    ghost from_gives = { λ _ e. e ≡ Memory };

    fn from(_e: AllocFailed<T>) -> StreamFault {
        StreamFault::Memory
    }
}
