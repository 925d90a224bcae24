ghost use Rattle.std.specs.Prelude.{◌≡◌};
ghost use Rattle.oi_solo.specs.Calls.{Ends};
ghost use Rattle.oi_solo.specs.Cores.{IsKept, session_of};

use crate::answers::AlreadyEnded;
use crate::kept::{Kept, enter_ready};
use oi_history::{End, Event, Phase};

/// The session ends. This takes no memory.
pub fn terminate(kept: &mut Kept, cause: End) -> Result<(), AlreadyEnded>
    requires { IsKept kept.old }
    ensures kept { IsKept kept.new }
    ensures call { Ends (session_of kept.old) cause result (session_of kept.new) }
{
    if let Phase::Ended { cause } = kept.ledger.phase() {
        return Err(AlreadyEnded { cause });
    }
    enter_ready(kept, Event::Terminate { cause });
    Ok(())
}
