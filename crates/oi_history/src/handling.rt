ghost use Rattle.std.specs.Prelude.{◌≡◌};
ghost use Rattle.oi_history.specs.Handling.{aim_of, escalated, handler_step, handler_told, is_idle, is_late, is_live, is_spent, is_tag, live_at, lun_at, sent_under, under_tag};

use crate::config::SessionConfig;
use crate::event::Event;
use crate::fate::Fate;
use crate::phase::Handler;
use crate::task::Task;
use oi_base::Tag;
use oi_pdu::Header;
use oi_recovery::Aim;
use oi_timers::past;

pub fn is_live(fate: &Fate) -> bool
    ensures { result ≡ is_live fate.now }
{
    match fate {
        Fate::Live { .. } => true,
        _ => false,
    }
}

/// The submission with this id is live.
pub fn live_at(id: u64, tasks: &[Task]) -> bool
    ensures { result ≡ live_at id tasks.now }
{
    match tasks.get(id as usize) {
        Some(task) => is_live(&task.fate),
        None => false,
    }
}

/// The logical unit of the submission with this id.
pub fn lun_at(id: u64, tasks: &[Task]) -> u8
    ensures { result ≡ lun_at id tasks.now }
{
    match tasks.get(id as usize) {
        Some(task) => task.command.lun,
        None => 0,
    }
}

// What follows a step that failed.
fn escalated(tasks: &[Task], now: u64, handler: Handler) -> Handler
    ensures { result ≡ escalated tasks.now now handler }
{
    match handler {
        Handler::Idle => Handler::Idle,
        Handler::Aborting { id, .. } if live_at(id, tasks) => Handler::ResettingLun {
            lun: lun_at(id, tasks),
            tag: None,
            since: now,
        },
        Handler::Aborting { .. } => Handler::Idle,
        Handler::ResettingLun { .. } => Handler::ResettingTarget {
            tag: None,
            since: now,
        },
        Handler::ResettingTarget { .. } | Handler::Spent => Handler::Spent,
    }
}

fn is_late(config: &SessionConfig, now: u64, handler: Handler) -> bool
    ensures { result ≡ is_late config.now now handler }
{
    match handler {
        Handler::Aborting { since, .. } => past(since, config.abort, now),
        Handler::ResettingLun { since, .. } => past(since, config.lun_reset, now),
        Handler::ResettingTarget { since, .. } => past(since, config.target_reset, now),
        _ => false,
    }
}

fn is_tag(tag: Tag, mine: Option<Tag>) -> bool
    ensures { result ≡ is_tag tag.0 mine }
{
    match mine {
        Some(mine) => mine.0 == tag.0,
        None => false,
    }
}

/// The handler's request has this tag.
pub fn sent_under(tag: Tag, handler: Handler) -> bool
    ensures { result ≡ sent_under tag.0 handler }
{
    match handler {
        Handler::Aborting { tag: mine, .. }
        | Handler::ResettingLun { tag: mine, .. }
        | Handler::ResettingTarget { tag: mine, .. } => is_tag(tag, mine),
        _ => false,
    }
}

fn under_tag(tag: Tag, handler: Handler) -> Handler
    ensures { result ≡ under_tag tag handler }
{
    match handler {
        Handler::Aborting { id, since, .. } => Handler::Aborting {
            id,
            tag: Some(tag),
            since,
        },
        Handler::ResettingLun { lun, since, .. } => Handler::ResettingLun {
            lun,
            tag: Some(tag),
            since,
        },
        Handler::ResettingTarget { since, .. } => Handler::ResettingTarget {
            tag: Some(tag),
            since,
        },
        other => other,
    }
}

fn handler_told(now: u64, tasks: &[Task], head: &Header, handler: Handler) -> Handler
    ensures { result ≡ handler_told now tasks.now head.now handler }
{
    match head {
        Header::TaskResponse(response) if sent_under(response.tag, handler) => {
            if response.response == 0 {
                Handler::Idle
            } else {
                escalated(tasks, now, handler)
            }
        }
        _ => handler,
    }
}

/// What the error handler does after an event. `now` is the last reading before it, `accepted` whether its PDU counts.
pub fn handler_step(
    config: &SessionConfig,
    now: u64,
    accepted: bool,
    tasks: &[Task],
    event: &Event,
    handler: Handler,
) -> Handler
    ensures { result ≡ handler_step config.now now accepted tasks.now event.now handler }
{
    match event {
        Event::Abort { id } if live_at(*id, tasks) => Handler::Aborting {
            id: *id,
            tag: None,
            since: now,
        },
        Event::ResetLun { lun } => Handler::ResettingLun {
            lun: *lun,
            tag: None,
            since: now,
        },
        Event::ResetTarget => Handler::ResettingTarget {
            tag: None,
            since: now,
        },
        Event::Manage { tag, .. } => under_tag(*tag, handler),
        Event::PduIn { pdu, .. } if accepted => handler_told(now, tasks, &pdu.head, handler),
        Event::Tick { now: reading } if is_late(config, *reading, handler) => {
            escalated(tasks, *reading, handler)
        }
        Event::Lost { .. } | Event::Terminate { .. } => Handler::Idle,
        _ => handler,
    }
}

/// What the handler's step covers, of the submission with this id.
pub fn aim_of(handler: Handler, id: u64, task: &Task) -> Aim
    ensures { result ≡ aim_of handler id task.now }
{
    let live = is_live(&task.fate);
    match handler {
        Handler::Aborting { id: mine, .. } if mine == id && live => Aim::Abort,
        Handler::ResettingLun { lun, .. } if task.command.lun == lun && live => Aim::Reset,
        Handler::ResettingTarget { .. } | Handler::Spent if live => Aim::Reset,
        _ => Aim::Free,
    }
}

pub fn is_idle(handler: Handler) -> bool
    ensures { result ≡ is_idle handler }
{
    match handler {
        Handler::Idle => true,
        _ => false,
    }
}

pub fn is_spent(handler: Handler) -> bool
    ensures { result ≡ is_spent handler }
{
    match handler {
        Handler::Spent => true,
        _ => false,
    }
}
