ghost use Rattle.std.specs.Prelude.{◌≡◌, ◌≤◌, ◌<◌, ◌+◌, ◌||◌, [], ◌∷◌, ◌++◌, None, Some, Option, IfOk, OnOk, OnErr, is_ok, set, true, vec_len, nat_le};
ghost use Rattle.std.specs.Vec.{vec_capacity};
ghost use Rattle.oi_history.specs.Configs.{IsValidConfig};
ghost use Rattle.oi_history.specs.Courses.{is_fail_fast};
ghost use Rattle.oi_history.specs.Locks.{is_sending};
ghost use Rattle.oi_history.specs.Permitted.{IsPermitted};
ghost use Rattle.oi_history.specs.Submitted.{brings};
ghost use Rattle.oi_solo.specs.Cores.{CanEnter, HasEntered, IsKept, next_entry, session_of};
ghost use Rattle.oi_solo.specs.Issues.{issues_step};
ghost use Rattle.oi_solo.specs.Limits.{Fits, loaded, needs_receiving, spent_by};
ghost use Rattle.oi_solo.specs.Sessions.{entered, now_of};

use crate::load::{Load, first_passed, is_sending, loaded};
use oi_base::NoMemory;
use oi_history::{Allocated, Event, Ledger, Numbered, Phase, SessionConfig};
use std::alloc::Global;

/// The ledger of a session, the list of its entries, the loads of both halves and the last commands, which agree.
#[derive(Debug, Drop)]
pub struct Kept {
    pub alloc: Global,
    pub ledger: Ledger,
    pub events: Vec<Numbered>,
    pub sending: Load,
    pub receiving: Load,
    /// The last command of each submission, by id.
    pub issues: Vec<Option<Allocated>>,
}

const EMPTY: Load = Load { steps: 0, kept: 0 };

/// A session without entries.
pub fn new(alloc: Global, config: SessionConfig) -> Result<Kept, NoMemory>
    requires { IsValidConfig config }
    ensures kept { IfOk result (λ k. IsKept k) }
    ensures session { IfOk result (λ k. session_of k ≡ record { config = config; history = [] }) }
{
    let ledger = Ledger::new(alloc, config)?;
    let events = Vec::with_capacity(alloc, 2)?;
    Ok(Kept {
        alloc,
        ledger,
        events,
        sending: EMPTY,
        receiving: EMPTY,
        issues: Vec::new(alloc),
    })
}

/// The entry needs the lock of the half that receives.
fn needs_receiving(ledger: &Ledger, event: &Event) -> bool
    ensures { result ≡ needs_receiving ledger.now.now event.now }
{
    match event {
        Event::Submit { .. } => is_fail_fast(ledger.phase()) || ledger.told().pending >= 1024,
        Event::Push { .. } => false,
        _ => true,
    }
}

fn is_fail_fast(phase: Phase) -> bool
    ensures { result ≡ is_fail_fast phase }
{
    match phase {
        Phase::FailFast { .. } => true,
        _ => false,
    }
}

fn sending_after(kept: &Kept, event: &Event) -> Load
    requires { IsKept kept.now }
    ensures { result ≡ loaded (is_sending event.now) event.now kept.now.sending }
{
    loaded(is_sending(event), event, kept.sending)
}

fn receiving_after(kept: &Kept, event: &Event) -> Load
    requires { IsKept kept.now }
    ensures { result ≡ loaded (needs_receiving kept.now.ledger.now event.now) event.now kept.now.receiving }
{
    loaded(needs_receiving(&kept.ledger, event), event, kept.receiving)
}

/// The half whose limits one entry more would pass.
pub fn spent(kept: &Kept, event: &Event) -> Option<Load>
    requires { IsKept kept.now }
    ensures { result ≡ spent_by (session_of kept.now) (event.now ∷ []) }
{
    let sending = sending_after(kept, event);
    let receiving = receiving_after(kept, event);
    first_passed(
        &kept.ledger.config(),
        kept.sending,
        sending,
        kept.receiving,
        receiving,
    )
}

/// Makes room for one entry, and for the end behind it.
fn make_room(events: &mut Vec<Numbered>) -> Result<(), NoMemory>
    ensures items { events.new.items ≡ events.old.items }
    ensures len { vec_len events.new ≡ vec_len events.old }
    ensures grows { vec_capacity events.old ≤ vec_capacity events.new }
    ensures room { OnOk result (vec_len events.new + 2 ≤ vec_capacity events.new) }
{
    events.reserve(2)?;
    Ok(())
}

/// Makes room for one submission.
fn make_place(issues: &mut Vec<Option<Allocated>>) -> Result<(), NoMemory>
    ensures items { issues.new.items ≡ issues.old.items }
    ensures room { OnOk result (vec_len issues.new + 1 ≤ vec_capacity issues.new) }
{
    issues.reserve(1)?;
    Ok(())
}

/// The commands behind one entry more.
fn note(issues: &mut Vec<Option<Allocated>>, event: &Event)
    requires { brings event.now ≡ true → vec_len issues.old + 1 ≤ vec_capacity issues.old }
    ensures { issues.new.items ≡ issues_step event.now issues.old.items }
{
    match event {
        Event::Submit { .. } => issues.push_reserved(None),
        Event::Issue { id, tag, cmdsn, .. } => set_issue(
            issues,
            Allocated {
                tag: *tag,
                id: *id,
                cmdsn: *cmdsn,
            },
        ),
        _ => {}
    }
}

fn set_issue(issues: &mut Vec<Option<Allocated>>, issue: Allocated)
    ensures { issues.new.items ≡ set issues.old.items issue.id (Some issue) }
{
    if let Ok(place) = usize::try_from(issue.id) {
        if place < issues.len() {
            issues[place] = Some(issue);
        }
    }
}

/// One entry more.
pub fn enter(kept: &mut Kept, event: Event) -> Result<(), NoMemory>
    requires kept { IsKept kept.old }
    requires fits { Fits (session_of kept.old) event }
    requires permitted { IsPermitted kept.old.ledger.config (session_of kept.old).history (next_entry (session_of kept.old) event) }
    ensures kept { IsKept kept.new }
    ensures ok { OnOk result (session_of kept.new ≡ entered (session_of kept.old) event) }
    ensures err { OnErr result (session_of kept.new ≡ session_of kept.old) }
{
    let sending = sending_after(kept, &event);
    let receiving = receiving_after(kept, &event);
    let entry = Numbered {
        number: kept.events.len() as u64,
        event,
    };
    make_room(&mut kept.events)?;
    make_place(&mut kept.issues)?;
    kept.ledger.step(&entry)?;
    note(&mut kept.issues, &entry.event);
    kept.sending = sending;
    kept.receiving = receiving;
    kept.events.push_reserved(entry);
    Ok(())
}

/// One entry more, where there is room for it: this takes no memory.
pub fn enter_ready(kept: &mut Kept, event: Event)
    requires { CanEnter kept.old event }
    ensures { HasEntered kept.old kept.new event }
{
    let sending = sending_after(kept, &event);
    let receiving = receiving_after(kept, &event);
    let entry = Numbered {
        number: kept.events.len() as u64,
        event,
    };
    kept.ledger.step(&entry).unwrap();
    note(&mut kept.issues, &entry.event);
    kept.sending = sending;
    kept.receiving = receiving;
    kept.events.push_reserved(entry);
}
