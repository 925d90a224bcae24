ghost use Rattle.std.specs.Prelude.{◌≡◌, ◌<◌, ◌==◌, ◌&&◌, ◌↔◌, ◌∷◌, [], IsTrue, List, ℕ, None, Some, is_some, length, not, slice_get};
ghost use Rattle.std.specs.List.{position};
ghost use Rattle.std.specs.Option.{option_copied};
ghost use Rattle.oi_base.specs.declared.tag.Tag.{Tag};
ghost use Rattle.oi_history.specs.Judging.{are_over, first_broken, is_over, last_number};
ghost use Rattle.oi_history.specs.Histories.{IsAbove};
ghost use Rattle.oi_history.specs.Losses.{is_broken_by, is_timed_out};
ghost use Rattle.oi_history.specs.Owing.{is_send, managed_next, push_of};
ghost use Rattle.oi_history.specs.Queues.{drawable};
ghost use Rattle.oi_history.specs.RuleWords.{is_rule, rule_index};
ghost use Rattle.oi_history.specs.declared.event.Event.TheVariants.{Manage};
ghost use Rattle.oi_history.specs.declared.event.Numbered.{Numbered};
ghost use Rattle.oi_history.specs.declared.phase.Handler.TheVariants.{Idle};

use crate::allocated::Allocated;
use crate::event::{Event, Subject};
use crate::owed::{Echo, Queued, Solicited};
use crate::phase::Handler;
use crate::queueing::is_wanted;
use crate::rule::Rule;
use crate::task::Task;
use oi_base::Tag;
use oi_timers::PingDue;
use std::collections::VecDeque;

const RESERVED: u32 = u32::MAX;

/// The first of the rules that does not hold, by its number; they are counted from 1.
pub fn first_broken(rules: &[bool]) -> Option<u8>
    requires { length rules.now < 255 }
    ensures { result ≡ first_broken 1 rules.now }
{
    let mut rule = 1;
    for holds in rules {
        if !*holds {
            return Some(rule);
        }
        rule += 1;
    }
    None
}

/// How many R2Ts count.
pub fn drawable(busy: &[Allocated], tasks: &[Task], solicited: &[Solicited]) -> usize
    ensures { result ≡ length (drawable busy.now tasks.now solicited.now) }
{
    let mut count = 0;
    for r in solicited {
        if is_wanted(busy, tasks, r) {
            count += 1;
        }
    }
    count
}

/// The tag has ended.
pub fn is_over(ended: &[Tag], tag: Tag) -> bool
    ensures { result ≡ is_over ended.now tag.0 }
{
    for t in ended {
        if tag.0 == t.0 {
            return true;
        }
    }
    false
}

/// The tag has ended.
pub fn is_among(ended: &VecDeque<Tag>, tag: Tag) -> bool
    ensures { result ≡ is_over ended.now.items tag.0 }
{
    let (first, later) = ended.as_slices();
    is_over(first, tag) || is_over(later, tag)
}

fn are_among(ended: &VecDeque<Tag>, queue: &[Queued]) -> bool
    ensures { result ≡ are_over ended.now.items queue.now }
{
    for q in queue {
        if !is_among(ended, q.tag) {
            return false;
        }
    }
    true
}

/// No data wait but those of tags that ended.
pub fn are_over(ended: &VecDeque<Tag>, queue: &VecDeque<Queued>) -> bool
    ensures { result ≡ are_over ended.now.items queue.now.items }
{
    let (first, later) = queue.as_slices();
    are_among(ended, first) && are_among(ended, later)
}

/// The error handler has nothing to send.
pub fn asks_nothing(handler: Handler) -> bool
    ensures { (g : ℕ) (t : Tag) → IsTrue result ↔ (managed_next g t handler ≡ []) }
{
    match handler {
        Handler::Aborting { tag: None, .. }
        | Handler::ResettingLun { tag: None, .. }
        | Handler::ResettingTarget { tag: None, .. } => false,
        _ => true,
    }
}

/// The error handler has this request to send.
pub fn asks_for(handler: Handler, function: u8, subject: Subject) -> bool
    ensures { (g : ℕ) (t : Tag) → IsTrue result ↔ (managed_next g t handler ≡ Manage g t function subject ∷ []) }
{
    match (handler, subject) {
        (Handler::Aborting { id, tag: None, .. }, Subject::Task(mine)) => {
            function == 1 && mine == id
        }
        (Handler::ResettingLun { lun, tag: None, .. }, Subject::Lun(mine)) => {
            function == 5 && mine == lun
        }
        (Handler::ResettingTarget { tag: None, .. }, Subject::Whole) => function == 6,
        _ => false,
    }
}

/// A ping is to be sent.
pub fn is_send(due: PingDue) -> bool
    ensures { result ≡ is_send due }
{
    match due {
        PingDue::Send => true,
        _ => false,
    }
}

/// The outstanding ping was not answered in time.
pub fn is_timed_out(due: PingDue) -> bool
    ensures { result ≡ is_timed_out due }
{
    match due {
        PingDue::TimedOut => true,
        _ => false,
    }
}

fn index(rule: Rule) -> u8
    ensures { result ≡ rule_index rule }
{
    match rule {
        Rule::Header => 0,
        Rule::TooLong => 1,
        Rule::WrongOpcode => 2,
        Rule::UnknownTag => 3,
        Rule::WrongKind => 4,
        Rule::DataNumber => 5,
        Rule::DataOffset => 6,
        Rule::DataRange => 7,
        Rule::R2tRange => 8,
        Rule::Rejected => 9,
    }
}

/// The rule broke the connection; those of the stream are met outside of the session.
pub fn is_broken_by(rule: Rule, broken: Option<Rule>) -> bool
    ensures { result ≡ is_broken_by rule broken }
{
    match (rule, broken) {
        (Rule::Header | Rule::TooLong, _) => true,
        (rule, Some(met)) => index(met) == index(rule),
        _ => false,
    }
}

/// The oldest NOP-In that waits for its answer is this one.
pub fn is_answer(echo: &Echo, ttt: u32, lun: &[u8; 8]) -> bool
    ensures { IsTrue result ↔ ((echo.now.ttt ≡ ttt) × (echo.now.lun ≡ lun.now)) }
{
    echo.ttt == ttt && echo.lun == *lun
}

/// It is the place of this submission.
pub fn is_place(place: Option<usize>, id: u64) -> bool
    ensures { IsTrue result ↔ (place ≡ Some id) }
{
    match place {
        Some(place) => place as u64 == id,
        None => false,
    }
}

/// The error handler rests.
pub fn rests(handler: Handler) -> bool
    ensures { IsTrue result ↔ (handler ≡ Idle) }
{
    match handler {
        Handler::Idle => true,
        _ => false,
    }
}

/// No rule was broken.
pub fn is_whole(broken: Option<Rule>) -> bool
    ensures { IsTrue result ↔ (broken ≡ None) }
{
    match broken {
        None => true,
        Some(_) => false,
    }
}

/// It is this tag.
pub fn is_tag(first: Option<Tag>, tag: Tag) -> bool
    ensures { IsTrue result ↔ (first ≡ Some tag) }
{
    match first {
        Some(first) => first == tag,
        None => false,
    }
}

fn front(tags: &VecDeque<Tag>) -> Option<Tag>
    ensures { result ≡ slice_get tags.now.items 0 }
{
    tags.front().copied()
}

/// The tag has been free longest.
pub fn is_front(free: &VecDeque<Tag>, tag: Tag) -> bool
    ensures { IsTrue result ↔ (slice_get free.now.items 0 ≡ Some tag) }
{
    is_tag(front(free), tag)
}

/// The event sends these data.
pub fn sends(event: &Event, generation: u64, queued: &Queued) -> bool
    ensures { IsTrue result ↔ (push_of generation queued.now ≡ event.now) }
{
    match event {
        Event::Push {
            id,
            generation: live,
            ttt,
            number,
            offset,
            length,
            last,
        } => {
            *id == queued.id
                && *live == generation
                && *ttt == queued.ttt
                && *number == queued.piece.number
                && *offset == queued.piece.offset
                && *length == queued.piece.length
                && *last == queued.piece.last
        }
        _ => false,
    }
}

/// The data that wait first.
pub fn first_queued(queue: &VecDeque<Queued>) -> Option<&Queued>
    ensures { option_copied result ≡ slice_get queue.now.items 0 }
{
    queue.front()
}

/// The number is above that of the newest entry.
pub fn is_above(last: Option<u64>, number: u64) -> bool
    ensures { (H : List Numbered) → last ≡ last_number H → IsTrue result ↔ IsAbove number H }
{
    match last {
        Some(last) => last < number,
        None => true,
    }
}

/// It is this submission.
pub fn is_held(holder: Option<u64>, id: u64) -> bool
    ensures { IsTrue result ↔ (holder ≡ Some id) }
{
    match holder {
        Some(holder) => holder == id,
        None => false,
    }
}

fn asked_at(asked: &[u8], event: u8) -> Option<usize>
    ensures { result ≡ position (λ e. e == event) asked.now }
{
    asked.iter().position(|e| *e == event)
}

/// The target asked by this event.
pub fn asked_by(asked: &[u8], event: u8) -> bool
    ensures { result ≡ is_some (position (λ e. e == event) asked.now) }
{
    asked_at(asked, event).is_some()
}

/// The NOP-In that waits first for its answer.
pub fn first_echo(echoes: &[Echo]) -> Option<&Echo>
    ensures { option_copied result ≡ slice_get echoes.now 0 }
{
    echoes.first()
}
