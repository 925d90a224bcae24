ghost use Rattle.std.specs.Prelude.{◌≡◌, IfOk};

use oi_base::NoMemory;
use oi_names::{IscsiName, Portal};
use std::alloc::Global;
use thiserror::Error;

/// A portal at which a target is reached.
#[derive(Debug, PartialEq, Eq, Drop)]
pub struct Found {
    pub target: IscsiName,
    pub portal: Portal,
    /// The portal group tag.
    pub tag: u16,
}

impl Found {
    pub fn copy(&self, alloc: Global) -> Result<Found, NoMemory>
        ensures { IfOk result (λ f. f ≡ self.now) }
    {
        Ok(Found {
            target: self.target.copy(alloc)?,
            portal: self.portal.copy(alloc)?,
            tag: self.tag,
        })
    }
}

/// Why a payload was not read as a list of targets.
#[derive(Clone, Copy, Debug, PartialEq, Eq, Drop, Error)]
pub enum TargetsFault {
    /// Where the payload is no list of key=value pairs, the first piece that is no pair begins at this byte. Else the first
    /// pair does that is neither the name of a target nor an address behind one.
    #[error("no list of targets at byte {place}")]
    Malformed { place: u32 },
    #[error("out of memory")]
    Memory,
}
