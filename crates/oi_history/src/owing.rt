ghost use Rattle.std.specs.Prelude.{◌≡◌, ◌≤◌, ◌<◌, ◌+◌, ◌^◌, ◌&&◌, ◌++◌, ℕ, [], ◌∷◌, All, IfOk, List, None, Some, filter, length, not, slice_get};
ghost use Rattle.std.specs.List.{flat_map};
ghost use Rattle.std.specs.Option.{option_copied};
ghost use Rattle.oi_base.specs.declared.login.Params.{Params};
ghost use Rattle.oi_base.specs.declared.tag.Tag.{Tag};
ghost use Rattle.oi_history.specs.Owing.{drawn_with, echo_next, issue_with, managed_next, push_of, queued_next};
ghost use Rattle.oi_history.specs.Queues.{drawn_by};
ghost use Rattle.oi_history.specs.Releasing.{counts_left, data_left, entries_of};

use crate::acceptance::holder_of;
use crate::allocated::Allocated;
use crate::event::{Event, Subject};
use crate::owed::{Echo, Queued, Solicited};
use crate::phase::Handler;
use crate::queueing::is_wanted;
use crate::rules::is_among;
use crate::task::Task;
use oi_base::{NoMemory, Params, Tag};
use oi_buffer::cut_pieces;
use std::collections::VecDeque;

/// What is sent next: an entry that sends, behind the taking up of so many R2Ts where these ask for its data.
#[derive(Debug, Drop, PartialEq, Eq)]
pub struct Owed {
    pub draw: Option<u32>,
    pub send: Event,
}

impl Owed {
    ghost use Rattle.std.specs.Prelude.{◌≡◌, ◌∷◌, [], Some};
    ghost use Rattle.oi_history.specs.Releasing.{entries_of};

    // It is sent at once.
    fn at_once(send: Event) -> Owed
        ensures { entries_of (Some result) ≡ send ∷ [] }
    {
        Owed { draw: None, send }
    }
}

// The entry that sends these data.
fn push_of(generation: u64, queued: &Queued) -> Event
    ensures { result ≡ push_of generation queued.now }
{
    Event::Push {
        id: queued.id,
        generation,
        ttt: queued.ttt,
        number: queued.piece.number,
        offset: queued.piece.offset,
        length: queued.piece.length,
        last: queued.piece.last,
    }
}

fn first_data<'a>(ended: &VecDeque<Tag>, queue: &'a [Queued]) -> Option<&'a Queued>
    ensures { option_copied result ≡ slice_get (data_left ended.now.items queue.now) 0 }
{
    for queued in queue {
        if !is_among(ended, queued.tag) {
            return Some(queued);
        }
    }
    None
}

/// The data that wait first once these tags are released.
#[tactic(auto, using(crate::proofs::Released::left_front, crate::proofs::Released::left_later))]
pub fn first_left<'a>(ended: &VecDeque<Tag>, queue: &'a VecDeque<Queued>) -> Option<&'a Queued>
    ensures { option_copied result ≡ slice_get (data_left ended.now.items queue.now.items) 0 }
{
    let (first, later) = queue.as_slices();
    match first_data(ended, first) {
        Some(queued) => Some(queued),
        None => first_data(ended, later),
    }
}

/// Data that wait are sent first.
pub fn queued_owed(generation: u64, first: Option<&Queued>) -> Option<Owed>
    ensures { (queue : List _) → option_copied first.entry ≡ slice_get queue 0 → entries_of result ≡ queued_next generation queue }
{
    let queued = first?;
    Some(Owed::at_once(push_of(generation, queued)))
}

/// The request of the error handler, until it was sent.
pub fn managed_owed(generation: u64, tag: Tag, handler: Handler) -> Option<Owed>
    ensures { entries_of result ≡ managed_next generation tag handler }
{
    let (function, subject) = match handler {
        Handler::Aborting { id, tag: None, .. } => (1, Subject::Task(id)),
        Handler::ResettingLun { lun, tag: None, .. } => (5, Subject::Lun(lun)),
        Handler::ResettingTarget { tag: None, .. } => (6, Subject::Whole),
        _ => return None,
    };
    Some(Owed::at_once(Event::Manage {
        generation,
        tag,
        function,
        subject,
    }))
}

/// The answer to the oldest NOP-In that waits for it.
pub fn echo_owed(generation: u64, echoes: &[Echo]) -> Option<Owed>
    ensures { entries_of result ≡ echo_next generation echoes.now }
{
    let echo = echoes.first()?;
    Some(Owed::at_once(Event::Nop {
        generation,
        tag: u32::MAX,
        ttt: echo.ttt,
        lun: echo.lun,
    }))
}

fn counts_left(ended: &VecDeque<Tag>, busy: &[Allocated], tasks: &[Task], r: &Solicited) -> bool
    ensures { result ≡ counts_left ended.now.items busy.now tasks.now r.now }
{
    !is_among(ended, r.tag) && is_wanted(busy, tasks, r)
}

/// How many R2Ts count once these tags are released.
pub fn count_left(
    ended: &VecDeque<Tag>,
    busy: &[Allocated],
    tasks: &[Task],
    solicited: &[Solicited],
) -> usize
    ensures { result ≡ length (filter (counts_left ended.now.items busy.now tasks.now) solicited.now) }
{
    let mut count = 0;
    for r in solicited {
        if counts_left(ended, busy, tasks, r) {
            count += 1;
        }
    }
    count
}

// The first piece that an R2T asks for.
fn first_asked(params: Option<Params>, busy: &[Allocated], r: &Solicited) -> Option<Queued>
    requires some { (p : Params) → params ≡ Some p → 1 ≤ p.max_send }
    requires fits { r.now.offset + r.now.length < 2 ^ 32 }
    ensures { result ≡ slice_get (drawn_by params busy.now r.now) 0 }
{
    let (Some(params), Some(id)) = (params, holder_of(busy, r.tag)) else {
        return None;
    };
    let piece = cut_pieces(r.offset, r.length, params.max_send).next()?;
    Some(Queued {
        id,
        tag: r.tag,
        ttt: r.ttt,
        piece,
    })
}

// The first piece that an R2T asks for, where it counts.
fn first_counted(
    params: Option<Params>,
    ended: &VecDeque<Tag>,
    busy: &[Allocated],
    tasks: &[Task],
    r: &Solicited,
) -> Option<Queued>
    requires some { (p : Params) → params ≡ Some p → 1 ≤ p.max_send }
    requires fits { r.now.offset + r.now.length < 2 ^ 32 }
    ensures { result ≡ slice_get (flat_map (drawn_by params busy.now) (filter (counts_left ended.now.items busy.now tasks.now) (r.now ∷ []))) 0 }
{
    if counts_left(ended, busy, tasks, r) {
        first_asked(params, busy, r)
    } else {
        None
    }
}

/// The first piece that the R2Ts ask for which count once these tags are released.
#[tactic(auto, using(crate::proofs::Released::drop_front, crate::proofs::Released::drop_later))]
pub fn first_drawn(
    params: Option<Params>,
    ended: &VecDeque<Tag>,
    busy: &[Allocated],
    tasks: &[Task],
    solicited: &[Solicited],
) -> Option<Queued>
    requires some { (p : Params) → params ≡ Some p → 1 ≤ p.max_send }
    requires fits { All (λ r. r.offset + r.length < 2 ^ 32) solicited.now }
    ensures { result ≡ slice_get (flat_map (drawn_by params busy.now) (filter (counts_left ended.now.items busy.now tasks.now) solicited.now)) 0 }
{
    for r in solicited {
        if let Some(queued) = first_counted(params, ended, busy, tasks, r) {
            return Some(queued);
        }
    }
    None
}

/// All R2Ts are taken up, and the first piece that they ask for is sent.
pub fn drawn_owed(generation: u64, count: u32, first: Option<Queued>) -> Option<Owed>
    ensures { (pieces : List _) → first ≡ slice_get pieces 0 → entries_of result ≡ drawn_with generation count pieces }
{
    let queued = first?;
    Some(Owed {
        draw: Some(count),
        send: push_of(generation, &queued),
    })
}

/// The command of a submission, under this tag.
pub fn issue_owed(generation: u64, cmdsn: u32, id: Option<usize>, tag: Option<Tag>) -> Option<Owed>
    ensures { entries_of result ≡ issue_with generation cmdsn id tag }
{
    let (Some(id), Some(tag)) = (id, tag) else {
        return None;
    };
    Some(Owed::at_once(Event::Issue {
        id: id as u64,
        generation,
        tag,
        cmdsn,
    }))
}
