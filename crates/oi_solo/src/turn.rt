ghost use Rattle.std.specs.Prelude.{◌≡◌, ◌≤◌, ◌<◌, ◌+◌, ◌^◌, ◌++◌, IfOk, IfSome, OnErr, OnOk, None, Option, Some, false, true, length, not, slice_get, vec_len};
ghost use Rattle.std.specs.Vec.{vec_capacity};
ghost use Rattle.std.specs.List.{flat_map};
ghost use Rattle.oi_base.specs.Counts.{bit};
ghost use Rattle.oi_history.specs.Meanings.{last_issue};
ghost use Rattle.oi_history.specs.Owing.{owed_in};
ghost use Rattle.oi_history.specs.Phases.{is_ended, is_logged_in};
ghost use Rattle.oi_history.specs.Releasing.{HasTurn, Names, draw_of, entries_of, list_of};
ghost use Rattle.oi_history.specs.declared.allocated.Allocated.{Allocated};
ghost use Rattle.oi_history.specs.declared.event.Event.TheVariants.{Draw};
ghost use Rattle.oi_pdu.specs.Wire.{encoding};
ghost use Rattle.oi_solo.specs.Calls.{IsOn, Transmits, turn_of};
ghost use Rattle.oi_solo.specs.Cores.{CanEnter, CanTurn, HasDrawn, IsKept, IsReleased, session_of};
ghost use Rattle.oi_solo.specs.Issues.{issue_at};
ghost use Rattle.oi_solo.specs.Limits.{spent_by};
ghost use Rattle.oi_solo.specs.Sessions.{entered_all, sent_bytes};
ghost use Rattle.oi_solo.specs.Turns.{hears_of, is_push, later};

use crate::answers::{StepRefused, Transmit};
use crate::kept::{Kept, enter_ready};
use crate::load::{Load, first_passed};
use oi_base::NoMemory;
use oi_history::{Allocated, Event, Numbered, Owed, Phase, Subject};
use oi_pdu::{Pdu, write_pdu};

const LONGEST_PAYLOAD: usize = 0x100_0000;

fn is_push(event: &Event) -> bool
    ensures { result ≡ is_push event.now }
{
    match event {
        Event::Push { .. } => true,
        _ => false,
    }
}

/// How many entries send what is owed.
fn count_owed(owed: &Option<Owed>) -> u64
    ensures is { result ≡ length (entries_of owed.now) }
    ensures few { result < 3 }
{
    match owed {
        Some(owed) => match owed.draw {
            Some(_count) => 2,
            None => 1,
        },
        None => 0,
    }
}

/// How many of them need the lock of the half that receives.
fn count_heard(owed: &Option<Owed>) -> u64
    ensures is { result ≡ hears_of (entries_of owed.now) }
    ensures few { result < 3 }
{
    match owed {
        Some(owed) => heard_with(owed.draw, is_push(&owed.send)),
        None => 0,
    }
}

fn heard_with(draw: Option<u32>, push: bool) -> u64
    ensures is { result ≡ hears_of (draw_of draw) + bit (not push) }
    ensures few { result < 3 }
{
    let drawn = match draw {
        Some(_count) => 1,
        None => 0,
    };
    if push {
        return drawn;
    }
    drawn + 1
}

fn later(load: Load, entries: u64) -> Load
    requires { load.steps + entries < 2 ^ 64 }
    ensures { result ≡ later entries load }
{
    Load {
        steps: load.steps + entries,
        kept: load.kept,
    }
}

// Tags that can wait for their release are far fewer.
const MOST_ENDED: usize = 0x1_0000_0000;

/// The half whose limits a transmission would pass.
#[tactic(auto, using(crate::proofs::Turning::spent_is))]
fn spent_turn(kept: &Kept, owed: &Option<Owed>) -> Result<Option<Load>, NoMemory>
    requires kept { IsKept kept.now }
    requires on { is_logged_in kept.now.ledger.now.phase kept.now.ledger.now.generation ≡ true }
    requires owed { entries_of owed.now ≡ owed_in kept.now.ledger.config kept.now.ledger.now }
    ensures { IfOk result (λ l. l ≡ spent_by (session_of kept.now) (turn_of (session_of kept.now))) }
{
    let ended = kept.ledger.ended_len();
    if ended >= MOST_ENDED {
        return Err(NoMemory);
    }
    let ended = ended as u64;
    let sending = later(kept.sending, ended + count_owed(owed));
    let receiving = later(kept.receiving, ended + count_heard(owed));
    Ok(first_passed(
        &kept.ledger.config(),
        kept.sending,
        sending,
        kept.receiving,
        receiving,
    ))
}

/// Makes room for all entries of a transmission, and for the end behind them.
fn prepare(kept: &mut Kept, owed: &Option<Owed>) -> Result<(), NoMemory>
    requires { IsKept kept.old }
    ensures kept { IsKept kept.new }
    ensures config { kept.new.ledger.config ≡ kept.old.ledger.config }
    ensures now { kept.new.ledger.now ≡ kept.old.ledger.now }
    ensures session { session_of kept.new ≡ session_of kept.old }
    ensures room { OnOk result (HasTurn kept.new.ledger (entries_of owed.now)) }
    ensures events { OnOk result (vec_len kept.new.events + length kept.new.ledger.now.ended + 3 ≤ vec_capacity kept.new.events) }
{
    let ended = kept.ledger.ended_len();
    if ended >= MOST_ENDED {
        return Err(NoMemory);
    }
    reserve(&mut kept.events, ended + 3)?;
    kept.ledger.make_room(owed)
}

fn reserve(events: &mut Vec<Numbered>, more: usize) -> Result<(), NoMemory>
    ensures items { events.new.items ≡ events.old.items }
    ensures len { vec_len events.new ≡ vec_len events.old }
    ensures grows { vec_capacity events.old ≤ vec_capacity events.new }
    ensures room { OnOk result (vec_len events.new + more ≤ vec_capacity events.new) }
{
    events.reserve(more)?;
    Ok(())
}

/// Releases all tags that have ended.
fn release_all(kept: &mut Kept)
    requires kept { IsKept kept.old }
    requires going { is_ended kept.old.ledger.now.phase ≡ false }
    requires releases { length kept.old.ledger.now.ended ≤ kept.old.ledger.releases }
    requires events { vec_len kept.old.events + length kept.old.ledger.now.ended + 3 ≤ vec_capacity kept.old.events }
    ensures { IsReleased kept.old kept.new }
{
    while let Some(tag) = kept.ledger.first_ended() {
        enter_ready(kept, Event::Reap { tag });
    }
}

/// Takes up R2Ts.
fn take_up(kept: &mut Kept, draw: Option<u32>)
    requires kept { IsKept kept.old }
    requires can { IfSome draw (λ count. CanEnter kept.old (Draw count)) }
    requires events { vec_len kept.old.events + 3 ≤ vec_capacity kept.old.events }
    ensures { HasDrawn kept.old kept.new draw }
{
    if let Some(count) = draw {
        enter_ready(kept, Event::Draw { count });
    }
}

/// The last command of the task that a request names.
fn named(kept: &Kept, event: &Event) -> Option<Allocated>
    requires { IsKept kept.now }
    ensures { Names event.now result (λ id. last_issue id (session_of kept.now).history) }
{
    match event {
        Event::Manage {
            subject: Subject::Task(id),
            ..
        } => issue_of(kept, *id),
        _ => None,
    }
}

#[tactic(auto, using(crate::proofs::Issued::last_issue_at))]
fn issue_of(kept: &Kept, id: u64) -> Option<Allocated>
    requires { IsKept kept.now }
    ensures { result ≡ last_issue id (session_of kept.now).history }
{
    issue_at(kept.issues.as_slice(), id)
}

fn issue_at(issues: &[Option<Allocated>], id: u64) -> Option<Allocated>
    ensures { result ≡ issue_at (slice_get issues.now id) }
{
    match issues.get(id as usize) {
        Some(issue) => *issue,
        None => None,
    }
}

/// Appends the PDU that is owed.
fn write_owed(kept: &Kept, owed: &Owed, out: &mut Vec<u8>) -> Result<(), NoMemory>
    requires kept { IsKept kept.now }
    requires owed { entries_of (Some owed.now) ≡ owed_in kept.now.ledger.config kept.now.ledger.now }
    ensures ok { OnOk result (out.new.items ≡ out.old.items ++ sent_bytes (session_of kept.now) (turn_of (session_of kept.now))) }
    ensures err { OnErr result (out.new.items ≡ out.old.items) }
{
    let issue = named(kept, &owed.send);
    let pdu = kept.ledger.owed_pdu(owed, issue)?;
    write_all(&pdu, out)
}

fn write_all(pdu: &Option<Pdu>, out: &mut Vec<u8>) -> Result<(), NoMemory>
    ensures ok { OnOk result (out.new.items ≡ out.old.items ++ flat_map encoding (list_of pdu.now)) }
    ensures err { OnErr result (out.new.items ≡ out.old.items) }
{
    let Some(pdu) = pdu else {
        return Ok(());
    };
    if pdu.payload.as_slice().len() >= LONGEST_PAYLOAD {
        return Err(NoMemory);
    }
    write_pdu(pdu, out)
}

/// Sends what is owed, behind the release of all ended tags.
fn send(kept: &mut Kept, owed: Owed, out: &mut Vec<u8>) -> Result<Event, NoMemory>
    requires { CanTurn kept.old (Some owed) }
    ensures kept { IsKept kept.new }
    ensures event { IfOk result (λ e. e ≡ owed.send) }
    ensures ok { OnOk result (session_of kept.new ≡ entered_all (session_of kept.old) (turn_of (session_of kept.old))) }
    ensures bytes { OnOk result (out.new.items ≡ out.old.items ++ sent_bytes (session_of kept.old) (turn_of (session_of kept.old))) }
    ensures err { OnErr result (session_of kept.new ≡ session_of kept.old) }
    ensures quiet { OnErr result (out.new.items ≡ out.old.items) }
{
    let Some(event) = owed.send.copy_sent() else {
        return Err(NoMemory);
    };
    write_owed(kept, &owed, out)?;
    release_all(kept);
    take_up(kept, owed.draw);
    enter_ready(kept, owed.send);
    Ok(event)
}

fn transmit(kept: &mut Kept, generation: u64, out: &mut Vec<u8>) -> Result<Transmit, StepRefused>
    requires kept { IsKept kept.old }
    requires on { IsOn (session_of kept.old) generation }
    ensures kept { IsKept kept.new }
    ensures call { Transmits (session_of kept.old) generation out.old.items result (session_of kept.new) out.new.items }
{
    let owed = kept.ledger.owed()?;
    if let Some(load) = spent_turn(kept, &owed)? {
        return Err(StepRefused::Spent {
            steps: load.steps,
            kept: load.kept,
        });
    }
    prepare(kept, &owed)?;
    match owed {
        Some(owed) => Ok(Transmit::Sent(send(kept, owed, out)?)),
        None => {
            release_all(kept);
            Ok(Transmit::Idle)
        }
    }
}

/// Releases all tags that have ended and sends the next PDU.
pub fn transmit_next(
    kept: &mut Kept,
    generation: u64,
    out: &mut Vec<u8>,
) -> Result<Transmit, StepRefused>
    requires { IsKept kept.old }
    ensures kept { IsKept kept.new }
    ensures call { Transmits (session_of kept.old) generation out.old.items result (session_of kept.new) out.new.items }
{
    match kept.ledger.phase() {
        Phase::LoggedIn {
            generation: current,
        } if current == generation => transmit(kept, generation, out),
        Phase::LoggedIn {
            generation: current,
        } => Ok(Transmit::Changed { current }),
        phase => Ok(Transmit::NotLoggedIn { phase }),
    }
}
