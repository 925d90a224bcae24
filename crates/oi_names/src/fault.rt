ghost use Rattle.std.specs.Prelude.{◌≡◌};
ghost use Rattle.oi_base.specs.Counts.{told};

use oi_base::NoMemory;
use thiserror::Error;

/// Why a text was not read.
#[derive(Clone, Copy, Debug, PartialEq, Eq, Drop, Error)]
pub enum NameFault {
    /// The text leaves the grammar behind so many bytes: its longest front with which some word of the grammar begins
    /// has this length.
    #[error("malformed behind {place} bytes")]
    Bad { place: u32 },
    #[error("out of memory")]
    Memory,
}

impl From<NoMemory> for NameFault {
    ghost use Rattle.std.specs.Prelude.{◌≡◌};
    ghost use Rattle.oi_names.specs.declared.fault.NameFault.TheVariants.{Memory};

    ghost from_gives = { λ _ e. e ≡ Memory };

    fn from(_e: NoMemory) -> NameFault {
        NameFault::Memory
    }
}

pub fn bad(place: usize) -> NameFault
    ensures { result ≡ NameFault.Bad (told place) }
{
    NameFault::Bad {
        place: place.min(u32::MAX as usize) as u32,
    }
}
