ghost use Rattle.std.specs.Prelude.{◌≡◌, ◌≤◌, ◌<◌, ◌+◌, ◌^◌, All, List, Some, false, true, ◌&&◌, count_by, is_none, not, slice_get, vec_len};
ghost use Rattle.std.specs.Option.{option_copied};
ghost use Rattle.std.specs.Vec.{vec_capacity};
ghost use Rattle.std.specs.VecDeque.{deque_capacity, deque_len};
ghost use Rattle.oi_base.specs.declared.login.Params.{Params};
ghost use Rattle.oi_history.specs.Ledgers.{CanAdvance, HasSegment, IsLogin, IsWithin, freed_by, heard_by, is_login, queued_by, released_by};
ghost use Rattle.oi_history.specs.Locks.{is_joint, is_task_response};
ghost use Rattle.oi_history.specs.Meanings.{allocated_step, told_step};
ghost use Rattle.oi_history.specs.Phases.{generation_after};
ghost use Rattle.oi_history.specs.Queues.{queue_step, solicited_step};
ghost use Rattle.oi_history.specs.ConnectionWords.{broken_after, numbering_after, params_after, stat_after, stat_told, window_told};
ghost use Rattle.oi_history.specs.Submitted.{taken_by};
ghost use Rattle.oi_history.specs.Tags.{free_after, fresh_tags};
ghost use Rattle.oi_history.specs.Tasks.{is_done};
ghost use Rattle.oi_history.specs.declared.task.Task.{Task};

use crate::acceptance::numbers_of;
use crate::allocated::Allocated;
use crate::event::Event;
use crate::numbers::Numbers;
use crate::owed::{Queued, Solicited, Told};
use crate::queueing::{drop_queued, drop_solicited, hear_r2t, queue_drawn, queue_unasked};
use crate::rule::Rule;
use crate::tables::release;
use crate::task::Task;
use oi_base::{Params, Serial, Tag, age_of};
use oi_pdu::Header;
use oi_window::Window;
use std::collections::VecDeque;

pub fn generation_step(event: &Event, before: u64) -> u64
    ensures { result ≡ generation_after event.now before }
{
    match event {
        Event::Login { generation, .. } => *generation,
        _ => before,
    }
}

pub fn params_step(event: &Event, before: Option<Params>) -> Option<Params>
    requires login { IsLogin event.now }
    requires before { HasSegment before }
    ensures is { result ≡ params_after event.now before }
    ensures segment { HasSegment result }
{
    match event {
        Event::Login { params, .. } => Some(*params),
        _ => before,
    }
}

fn window_told(numbers: Option<Numbers>, mut window: Window) -> Window
    ensures { result ≡ window_told numbers window }
{
    if let Some(numbers) = numbers {
        window.update(numbers.exp, numbers.max);
    }
    window
}

pub fn window_step(accepted: bool, event: &Event, window: Window) -> Window
    requires { CanAdvance event.now window }
    ensures { result ≡ numbering_after accepted event.now window }
{
    match event {
        Event::Login { cmdsn, max, .. } => Window::at(Serial(*cmdsn), Serial(*max)),
        Event::Issue { .. } => {
            let mut window = window;
            window.advance();
            window
        }
        Event::PduIn { pdu, .. } if accepted => window_told(numbers_of(&pdu.head), window),
        _ => window,
    }
}

fn stat_told(numbers: Option<Numbers>, stat: u32) -> u32
    ensures { result ≡ stat_told numbers stat }
{
    match numbers {
        Some(
            Numbers {
                stat: Some(own),
                ..
            },
        ) => own.next().0,
        _ => stat,
    }
}

pub fn stat_step(accepted: bool, event: &Event, stat: u32) -> u32
    ensures { result ≡ stat_after accepted event.now stat }
{
    match event {
        Event::Login { exp_stat, .. } => *exp_stat,
        Event::PduIn { pdu, .. } if accepted => stat_told(numbers_of(&pdu.head), stat),
        _ => stat,
    }
}

pub fn broken_step(
    current: bool,
    rule: Option<Rule>,
    event: &Event,
    broken: Option<Rule>,
) -> Option<Rule>
    ensures { result ≡ broken_after current rule event.now broken }
{
    match event {
        Event::Login { .. } => None,
        Event::PduIn { .. } if current => rule,
        _ => broken,
    }
}

pub fn queue_step(
    queue: &mut VecDeque<Queued>,
    params: Option<Params>,
    busy: &[Allocated],
    tasks: &[Task],
    solicited: &[Solicited],
    event: &Event,
)
    requires some { (p : Params) → params ≡ Some p → 1 ≤ p.max_send }
    requires fits { All (λ r. r.offset + r.length < 2 ^ 32) solicited.now }
    requires room { deque_len queue.old + queued_by params busy.now tasks.now solicited.now event.now ≤ deque_capacity queue.old }
    ensures items { queue.new.items ≡ queue_step params busy.now tasks.now solicited.now event.now queue.old.items }
    ensures capacity { deque_capacity queue.new ≡ deque_capacity queue.old }
    ensures len { deque_len queue.new ≤ deque_len queue.old + queued_by params busy.now tasks.now solicited.now event.now }
{
    match event {
        Event::Login { .. } | Event::Lost { .. } => queue.clear(),
        Event::Issue { id, tag, .. } => {
            queue_unasked(queue, params, *id, *tag, task_at(tasks, *id));
        }
        Event::Draw { .. } => queue_drawn(queue, params, busy, tasks, solicited),
        Event::Push { .. } => {
            let _ = queue.pop_front();
        }
        Event::Reap { tag } => drop_queued(queue, *tag),
        _ => {}
    }
}

pub fn task_at(tasks: &[Task], id: u64) -> Option<&Task>
    ensures { option_copied result ≡ slice_get tasks.now id }
{
    tasks.get(id as usize)
}

pub fn solicited_step(solicited: &mut Vec<Solicited>, accepted: bool, event: &Event)
    requires within { accepted ≡ true → IsWithin event.now }
    requires room { vec_len solicited.old + heard_by event.now ≤ vec_capacity solicited.old }
    requires fits { All (λ r. r.offset + r.length < 2 ^ 32) solicited.old.items }
    ensures is { solicited.new.items ≡ solicited_step accepted event.now solicited.old.items }
    ensures fits { All (λ r. r.offset + r.length < 2 ^ 32) solicited.new.items }
{
    match event {
        Event::Login { .. } | Event::Lost { .. } | Event::Draw { .. } => solicited.clear(),
        Event::Reap { tag } => drop_solicited(solicited, *tag),
        Event::PduIn { pdu, .. } if accepted => hear_r2t(solicited, &pdu.head),
        _ => {}
    }
}

// All tags of a connection are free.
fn free_all(free: &mut VecDeque<Tag>, age: u8, count: u16)
    requires age { age < 16 }
    requires count { count ≤ 2048 }
    requires room { count ≤ deque_capacity free.old }
    ensures items { free.new.items ≡ fresh_tags age count }
    ensures capacity { deque_capacity free.new ≡ deque_capacity free.old }
{
    free.clear();
    for index in 0..count {
        free.push_back_reserved(Tag::command(age, index));
    }
}

pub fn free_step(free: &mut VecDeque<Tag>, count: u16, event: &Event)
    requires count { count ≤ 2048 }
    requires login { IsLogin event.now }
    requires room { deque_len free.old + freed_by count event.now ≤ deque_capacity free.old }
    ensures items { free.new.items ≡ free_after count event.now free.old.items }
    ensures capacity { deque_capacity free.new ≡ deque_capacity free.old }
    ensures len { is_login event.now ≡ false → deque_len free.new ≤ deque_len free.old + released_by event.now }
{
    match event {
        Event::Login { generation, .. } => free_all(free, age_of(*generation), count),
        Event::Issue { .. } => {
            let _ = free.pop_front();
        }
        Event::Reap { tag } => free.push_back_reserved(*tag),
        _ => {}
    }
}

pub fn busy_step(busy: &mut Vec<Allocated>, event: &Event)
    requires { vec_len busy.old + taken_by event.now ≤ vec_capacity busy.old }
    ensures items { busy.new.items ≡ allocated_step event.now busy.old.items }
    ensures capacity { vec_capacity busy.new ≡ vec_capacity busy.old }
    ensures len { vec_len busy.new ≤ vec_len busy.old + taken_by event.now }
{
    match event {
        Event::Login { .. } | Event::Lost { .. } => busy.clear(),
        Event::Issue { id, tag, cmdsn, .. } => busy.push_reserved(Allocated {
            tag: *tag,
            id: *id,
            cmdsn: *cmdsn,
        }),
        Event::Reap { tag } => release(busy, *tag),
        _ => {}
    }
}

/// What the half that receives tells, where so many submissions are not done.
pub fn told_step(joint: bool, event: &Event, stat: u32, pending: usize, told: Told) -> Told
    ensures { (tasks : List Task) → pending ≡ count_by (λ t. not (is_done t.fate)) tasks → result ≡ told_step joint event.now stat tasks told }
{
    if joint {
        return Told {
            stat,
            pending: u32::try_from(pending).unwrap_or(u32::MAX),
        };
    }
    match event {
        Event::Submit { .. } => Told {
            stat: told.stat,
            pending: told.pending.saturating_add(1),
        },
        _ => told,
    }
}

fn is_task_response(head: &Header) -> bool
    ensures { result ≡ is_task_response head.now }
{
    match head {
        Header::TaskResponse(_) => true,
        _ => false,
    }
}

/// The entry needs both locks.
pub fn is_joint(fails_fast: bool, pending: u32, event: &Event) -> bool
    ensures { result ≡ is_joint fails_fast pending event.now }
{
    match event {
        Event::PduIn { pdu, .. } => is_task_response(&pdu.head),
        Event::Deliver { .. } | Event::Push { .. } => false,
        Event::Submit { .. } => fails_fast || pending >= 1024,
        _ => true,
    }
}

/// A PDU counts on the live connection, unbroken so far, where it breaks no rule.
pub fn counts(current: bool, rule: Option<Rule>) -> bool
    ensures { result ≡ (current && is_none rule) }
{
    current && rule.is_none()
}
