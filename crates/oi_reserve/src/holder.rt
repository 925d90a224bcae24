ghost use Rattle.std.specs.Prelude.{◌≡◌, OnErr, OnOk};
ghost use Rattle.oi_reserve.specs.Outcomes.{release_answer, taken_over, without};

use crate::answer::ReserveAnswer;
use crate::entry::{Holder, Registration};
use crate::order::BAD_PARAMETER;
use crate::registered::key_or_zero;
use oi_base::{Blob, NoMemory};
use std::alloc::Global;

/// The reservation ends where this nexus holds it.
pub fn drop_holder(holder: &mut Option<Holder>, nexus: &[u8])
    ensures { holder.new ≡ without nexus.now holder.old }
{
    if let Some(h) = holder {
        if h.nexus.as_slice() == nexus {
            *holder = None;
        }
    }
}

/// The answer to a release that ends nothing; none where the reservation ends.
pub fn release_of(holder: &Option<Holder>, nexus: &[u8], form: u8) -> Option<ReserveAnswer>
    ensures { result ≡ release_answer nexus.now form holder.now }
{
    match holder {
        None => Some(ReserveAnswer::Good),
        Some(h) => {
            if h.nexus.as_slice() != nexus {
                Some(ReserveAnswer::Good)
            } else if h.form != form {
                Some(ReserveAnswer::Check { asc: BAD_PARAMETER })
            } else {
                None
            }
        }
    }
}

/// A holder with the key makes room for this nexus.
pub fn take_over(
    alloc: Global,
    holder: &mut Option<Holder>,
    registered: &[Registration],
    nexus: &[u8],
    form: u8,
    key: u64,
) -> Result<(), NoMemory>
    ensures ok { OnOk result (holder.new ≡ taken_over registered.now nexus.now form key holder.old) }
    ensures err { OnErr result (holder.new ≡ holder.old) }
{
    if let Some(h) = holder {
        if key_or_zero(registered, h.nexus.as_slice()) == key {
            let nexus = Blob::from_slice(alloc, nexus)?;
            *holder = Some(Holder { nexus, form });
        }
    }
    Ok(())
}
