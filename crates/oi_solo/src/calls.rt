ghost use Rattle.std.specs.Prelude.{◌≡◌, ◌≤◌, ◌<◌, ◌^◌, length};
ghost use Rattle.oi_base.specs.Counts.{told};
ghost use Rattle.oi_history.specs.Configs.{IsValidConfig};
ghost use Rattle.oi_history.specs.Losses.{is_cause};
ghost use Rattle.oi_history.specs.Permitted.{ArePermitted};
ghost use Rattle.oi_history.specs.Phases.{is_ended, is_logged_in};
ghost use Rattle.oi_scsi.specs.Requests.{IsValid};
ghost use Rattle.oi_solo.specs.Calls.{Delivers, LogsIn, Loses, Receives, Submits, asked_of, broken_or};
ghost use Rattle.oi_solo.specs.Cores.{IsKept, session_of};
ghost use Rattle.oi_solo.specs.Sessions.{now_of, pending_of};

use crate::answers::{LoginRefused, LostDone, Receipt, Received, StepRefused, SubmitRefused};
use crate::kept::{Kept, enter, spent};
use oi_base::LoginDone;
use oi_history::{Delivered, Event, LostCause, Phase, Rule, SessionConfig};
use oi_pdu::{Header, Pdu};
use oi_scsi::Request;
use oi_window::Window;

const MOST_PENDING: usize = 1024;

#[tactic(auto, using(crate::proofs::Allowed::submit_allowed))]
pub fn submit(kept: &mut Kept, request: Request) -> Result<Receipt, SubmitRefused>
    requires kept { IsKept kept.old }
    requires valid { IsValid request.kind }
    ensures kept { IsKept kept.new }
    ensures call { Submits (session_of kept.old) request result (session_of kept.new) }
{
    if let Phase::Ended { cause } = kept.ledger.phase() {
        return Err(SubmitRefused::Ended { cause });
    }
    let waiting = kept.ledger.pending();
    if waiting >= MOST_PENDING {
        let waiting = waiting.min(u32::MAX as usize) as u32;
        return Err(SubmitRefused::Full { waiting });
    }
    let id = kept.ledger.submitted();
    let number = kept.events.len() as u64;
    let event = Event::Submit { id, request };
    if let Some(load) = spent(kept, &event) {
        return Err(SubmitRefused::Spent {
            steps: load.steps,
            kept: load.kept,
        });
    }
    enter(kept, event)?;
    Ok(Receipt { id, number })
}

#[tactic(auto, using(crate::proofs::Allowed::login_allowed))]
pub fn logged_in(kept: &mut Kept, done: LoginDone) -> Result<u64, LoginRefused>
    requires kept { IsKept kept.old }
    requires send { 1 ≤ done.params.max_send }
    ensures kept { IsKept kept.new }
    ensures call { LogsIn (session_of kept.old) done result (session_of kept.new) }
{
    match kept.ledger.phase() {
        Phase::Ended { cause } => return Err(LoginRefused::Ended { cause }),
        Phase::LoggedIn { generation } => return Err(LoginRefused::LoggedIn {
            current: generation,
        }),
        _ => {}
    }
    let Some(generation) = kept.ledger.generation().checked_add(1) else {
        return Err(LoginRefused::Memory);
    };
    let event = Event::Login {
        generation,
        params: done.params,
        cmdsn: done.cmdsn,
        max: done.max,
        exp_stat: done.exp_stat,
    };
    if let Some(load) = spent(kept, &event) {
        return Err(LoginRefused::Spent {
            steps: load.steps,
            kept: load.kept,
        });
    }
    enter(kept, event)?;
    Ok(generation)
}

fn is_logged_in(phase: Phase, generation: u64) -> bool
    ensures { result ≡ is_logged_in phase generation }
{
    match phase {
        Phase::LoggedIn { generation: live } => live == generation,
        _ => false,
    }
}

fn asked_of(head: &Header) -> Received
    ensures { result ≡ asked_of head.now }
{
    match head {
        Header::Async(h) if 1 <= h.event && h.event <= 3 => Received::Asked { event: h.event },
        _ => Received::Applied,
    }
}

fn broken_or(broken: Option<Rule>, otherwise: Received) -> Received
    ensures { result ≡ broken_or broken otherwise }
{
    match broken {
        Some(rule) => Received::Broken { rule },
        None => otherwise,
    }
}

#[tactic(auto, using(crate::proofs::Allowed::pdu_allowed))]
pub fn receive(kept: &mut Kept, generation: u64, pdu: Pdu) -> Result<Received, StepRefused>
    requires { IsKept kept.old }
    ensures kept { IsKept kept.new }
    ensures call { Receives (session_of kept.old) generation pdu result (session_of kept.new) }
{
    let stale = !is_logged_in(kept.ledger.phase(), generation);
    let current = kept.ledger.generation();
    let asked = asked_of(&pdu.head);
    let event = Event::PduIn { generation, pdu };
    if let Some(load) = spent(kept, &event) {
        return Err(StepRefused::Spent {
            steps: load.steps,
            kept: load.kept,
        });
    }
    enter(kept, event)?;
    if stale {
        return Ok(Received::Stale { current });
    }
    Ok(broken_or(kept.ledger.broken(), asked))
}

#[tactic(auto, using(crate::proofs::Allowed::lost_allowed))]
pub fn lost(kept: &mut Kept, generation: u64, cause: LostCause) -> Result<LostDone, StepRefused>
    requires { IsKept kept.old }
    ensures kept { IsKept kept.new }
    ensures call { Loses (session_of kept.old) generation cause result (session_of kept.new) }
{
    if !is_logged_in(kept.ledger.phase(), generation) {
        return Ok(LostDone::Stale {
            current: kept.ledger.generation(),
        });
    }
    if !kept.ledger.is_cause(&cause) {
        return Ok(LostDone::NotSo);
    }
    let event = Event::Lost { generation, cause };
    if let Some(load) = spent(kept, &event) {
        return Err(StepRefused::Spent {
            steps: load.steps,
            kept: load.kept,
        });
    }
    enter(kept, event)?;
    Ok(LostDone::Lost)
}

#[tactic(auto, using(crate::proofs::Allowed::deliver_allowed))]
pub fn deliver(kept: &mut Kept, out: &mut Vec<Delivered>) -> Result<u32, StepRefused>
    requires { IsKept kept.old }
    ensures kept { IsKept kept.new }
    ensures call { Delivers (session_of kept.old) out.old.items result (session_of kept.new) out.new.items }
{
    let mut due = kept.ledger.due()?;
    let Ok(count) = u32::try_from(due.len()) else {
        return Err(StepRefused::Memory);
    };
    if count == 0 {
        return Ok(0);
    }
    let event = Event::Deliver { count };
    if !is_ended(kept.ledger.phase()) {
        if let Some(load) = spent(kept, &event) {
            return Err(StepRefused::Spent {
                steps: load.steps,
                kept: load.kept,
            });
        }
    }
    out.reserve(due.len())?;
    enter(kept, event)?;
    out.append(&mut due).unwrap();
    Ok(count)
}

/// The session is over.
pub fn is_ended(phase: Phase) -> bool
    ensures { result ≡ is_ended phase }
{
    match phase {
        Phase::Ended { .. } => true,
        _ => false,
    }
}

pub fn phase(kept: &Kept) -> Phase
    requires { IsKept kept.now }
    ensures phase { result ≡ (now_of (session_of kept.now)).phase }
    ensures legal { ArePermitted kept.now.ledger.config (session_of kept.now).history }
{
    kept.ledger.phase()
}

pub fn window(kept: &Kept) -> Window
    requires { IsKept kept.now }
    ensures { result ≡ (now_of (session_of kept.now)).window }
{
    kept.ledger.window()
}

pub fn pending(kept: &Kept) -> u32
    requires { IsKept kept.now }
    ensures { result ≡ told (pending_of (now_of (session_of kept.now))) }
{
    kept.ledger.pending().min(u32::MAX as usize) as u32
}

pub fn logged_out(kept: &Kept) -> bool
    requires { IsKept kept.now }
    ensures { result ≡ (now_of (session_of kept.now)).logged_out }
{
    kept.ledger.logged_out()
}

pub fn config(kept: &Kept) -> SessionConfig
    requires { IsKept kept.now }
    ensures config { result ≡ (session_of kept.now).config }
    ensures valid { IsValidConfig result }
{
    kept.ledger.config()
}

pub fn clock(kept: &Kept) -> u64
    requires { IsKept kept.now }
    ensures { result ≡ (now_of (session_of kept.now)).clock }
{
    kept.ledger.clock()
}
