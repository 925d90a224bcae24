ghost use Rattle.std.specs.Prelude.{◌≡◌, ◌<◌, ◌^◌, ◌↔◌, Err, IfNone, IfSome, IsTrue, max};
ghost use Rattle.oi_history.specs.Handling.{is_spent};
ghost use Rattle.oi_history.specs.Phases.{has_connection};
ghost use Rattle.oi_history.specs.declared.event.Event.TheVariants.{ResetLun, ResetTarget};
ghost use Rattle.oi_history.specs.declared.phase.Handler.TheVariants.{Idle};
ghost use Rattle.oi_solo.specs.Calls.{Aborts, CanAbort, HasFate, Leaves, Resets, Ticks, reading_of};
ghost use Rattle.oi_solo.specs.Cores.{IsKept, session_of};
ghost use Rattle.oi_solo.specs.Sessions.{now_of};

use crate::answers::{AbortRefused, ControlRefused, StepRefused, Ticked};
use crate::calls::is_ended;
use crate::kept::{Kept, enter, spent};
use oi_history::{Event, Fate, Handler, Phase};

fn is_spent(handler: Handler) -> bool
    ensures { result ≡ is_spent handler }
{
    match handler {
        Handler::Spent => true,
        _ => false,
    }
}

fn rests(handler: Handler) -> bool
    ensures { IsTrue result ↔ (handler ≡ Idle) }
{
    match handler {
        Handler::Idle => true,
        _ => false,
    }
}

fn has_connection(phase: Phase) -> bool
    ensures { result ≡ has_connection phase }
{
    match phase {
        Phase::LoggedIn { .. } => true,
        _ => false,
    }
}

#[tactic(auto, using(crate::proofs::Allowed::ticks))]
pub fn tick(kept: &mut Kept, now: u64) -> Result<Ticked, StepRefused>
    requires kept { IsKept kept.old }
    requires now { now < 2 ^ 53 }
    ensures kept { IsKept kept.new }
    ensures call { Ticks (session_of kept.old) now result (session_of kept.new) }
{
    if is_ended(kept.ledger.phase()) {
        return Ok(Ticked {
            ping: false,
            handler: false,
        });
    }
    let now = now.max(kept.ledger.clock());
    let event = Event::Tick { now };
    if let Some(load) = spent(kept, &event) {
        return Err(StepRefused::Spent {
            steps: load.steps,
            kept: load.kept,
        });
    }
    enter(kept, event)?;
    Ok(Ticked {
        ping: kept.ledger.is_ping_late(),
        handler: is_spent(kept.ledger.handler()),
    })
}

// Why an abort is refused by where the submission and the session stand.
fn refusal(kept: &Kept, id: u64) -> Option<AbortRefused>
    requires { IsKept kept.now }
    ensures refuses { IfSome result (λ e. Aborts (session_of kept.now) id (Err e) (session_of kept.now)) }
    ensures takes { IfNone result (HasFate (session_of kept.now) id (CanAbort (now_of (session_of kept.now)))) }
{
    let Some(task) = kept.ledger.task(id) else {
        return Some(AbortRefused::Unknown {
            submitted: kept.ledger.submitted(),
        });
    };
    let running = kept.ledger.handler();
    match &task.fate {
        Fate::Done { at, .. } => Some(AbortRefused::TooLate { at: *at }),
        Fate::Live { .. } if !rests(running) => Some(AbortRefused::Busy { running }),
        _ => None,
    }
}

#[tactic(auto, using(crate::proofs::Allowed::aborts))]
pub fn abort(kept: &mut Kept, id: u64) -> Result<(), AbortRefused>
    requires { IsKept kept.old }
    ensures kept { IsKept kept.new }
    ensures call { Aborts (session_of kept.old) id result (session_of kept.new) }
{
    if let Some(refused) = refusal(kept, id) {
        return Err(refused);
    }
    let event = Event::Abort { id };
    if let Some(load) = spent(kept, &event) {
        return Err(AbortRefused::Spent {
            steps: load.steps,
            kept: load.kept,
        });
    }
    enter(kept, event)?;
    Ok(())
}

#[tactic(auto, using(crate::proofs::Allowed::lun_allowed))]
pub fn reset_lun(kept: &mut Kept, lun: u8) -> Result<(), ControlRefused>
    requires { IsKept kept.old }
    ensures kept { IsKept kept.new }
    ensures call { Resets (ResetLun lun) (session_of kept.old) result (session_of kept.new) }
{
    let phase = kept.ledger.phase();
    if !has_connection(phase) {
        return Err(ControlRefused::NotLoggedIn { phase });
    }
    let running = kept.ledger.handler();
    if !rests(running) {
        return Err(ControlRefused::Busy { running });
    }
    let event = Event::ResetLun { lun };
    if let Some(load) = spent(kept, &event) {
        return Err(ControlRefused::Spent {
            steps: load.steps,
            kept: load.kept,
        });
    }
    enter(kept, event)?;
    Ok(())
}

#[tactic(auto, using(crate::proofs::Allowed::target_allowed))]
pub fn reset_target(kept: &mut Kept) -> Result<(), ControlRefused>
    requires { IsKept kept.old }
    ensures kept { IsKept kept.new }
    ensures call { Resets ResetTarget (session_of kept.old) result (session_of kept.new) }
{
    let phase = kept.ledger.phase();
    if !has_connection(phase) {
        return Err(ControlRefused::NotLoggedIn { phase });
    }
    let running = kept.ledger.handler();
    if !rests(running) {
        return Err(ControlRefused::Busy { running });
    }
    if let Some(load) = spent(kept, &Event::ResetTarget) {
        return Err(ControlRefused::Spent {
            steps: load.steps,
            kept: load.kept,
        });
    }
    enter(kept, Event::ResetTarget)?;
    Ok(())
}

#[tactic(auto, using(crate::proofs::Allowed::leave_allowed))]
pub fn leave(kept: &mut Kept) -> Result<(), ControlRefused>
    requires { IsKept kept.old }
    ensures kept { IsKept kept.new }
    ensures call { Leaves (session_of kept.old) result (session_of kept.new) }
{
    let phase = kept.ledger.phase();
    if !has_connection(phase) {
        return Err(ControlRefused::NotLoggedIn { phase });
    }
    if let Some(load) = spent(kept, &Event::Leave) {
        return Err(ControlRefused::Spent {
            steps: load.steps,
            kept: load.kept,
        });
    }
    enter(kept, Event::Leave)?;
    Ok(())
}
