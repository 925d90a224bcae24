ghost use Rattle.std.specs.Prelude.{◌≡◌, ◌≤◌, ◌<◌, ◌+◌, ◌^◌, ◌++◌, ◌∷◌, ◌==◌, ℕ, [], All, IfSome, None, Some, filter, length, not, vec_len};
ghost use Rattle.std.specs.Option.{option_copied};
ghost use Rattle.std.specs.Vec.{vec_capacity};
ghost use Rattle.std.specs.VecDeque.{deque_capacity, deque_len};
ghost use Rattle.oi_base.specs.declared.login.Params.{Params};
ghost use Rattle.oi_base.specs.declared.tag.Tag.{Tag};
ghost use Rattle.oi_history.specs.Ledgers.{EndsWithin};
ghost use Rattle.oi_history.specs.Queues.{drawn, drawn_by, is_wanted, queued_as, solicited_told, unasked};

use crate::acceptance::{held, holder_of};
use crate::allocated::Allocated;
use crate::owed::{Queued, Solicited};
use crate::reply::is_live_on;
use crate::task::Task;
use oi_base::{Params, Tag};
use oi_buffer::{Pieces, cut_pieces, first_cut};
use oi_pdu::Header;
use std::collections::VecDeque;

const RESERVED: u32 = u32::MAX;

// Pieces behind those that wait.
fn queue_pieces(queue: &mut VecDeque<Queued>, id: u64, tag: Tag, ttt: u32, more: Pieces)
    requires { deque_len queue.old + length more ≤ deque_capacity queue.old }
    ensures items { queue.new.items ≡ queue.old.items ++ queued_as id tag ttt more }
    ensures capacity { deque_capacity queue.new ≡ deque_capacity queue.old }
{
    for piece in more {
        queue.push_back_reserved(Queued {
            id,
            tag,
            ttt,
            piece,
        });
    }
}

/// The unsolicited data of a write whose command goes out.
pub fn queue_unasked(
    queue: &mut VecDeque<Queued>,
    params: Option<Params>,
    id: u64,
    tag: Tag,
    task: Option<&Task>,
)
    requires some { (p : Params) → params ≡ Some p → 1 ≤ p.max_send }
    requires room { deque_len queue.old + length (unasked params id tag (option_copied task)) ≤ deque_capacity queue.old }
    ensures items { queue.new.items ≡ queue.old.items ++ unasked params id tag (option_copied task.entry) }
    ensures capacity { deque_capacity queue.new ≡ deque_capacity queue.old }
{
    let (Some(params), Some(task)) = (params, task) else {
        return;
    };
    if !task.command.writes {
        return;
    }
    let cut = first_cut(task.command.length, &params);
    let more = cut_pieces(cut.immediate, cut.unsolicited, params.max_send);
    queue_pieces(queue, id, tag, RESERVED, more);
}

/// How many pieces they are.
pub fn count_unasked(params: Option<Params>, task: Option<&Task>) -> usize
    requires { (p : Params) → params ≡ Some p → 1 ≤ p.max_send }
    ensures { (id : ℕ) (tag : Tag) → result ≡ length (unasked params id tag (option_copied task.entry)) }
{
    let (Some(params), Some(task)) = (params, task) else {
        return 0;
    };
    if !task.command.writes {
        return 0;
    }
    let cut = first_cut(task.command.length, &params);
    cut.unsolicited.div_ceil(params.max_send) as usize
}

/// Takes the data of a released tag out.
pub fn drop_queued(queue: &mut VecDeque<Queued>, tag: Tag)
    ensures items { queue.new.items ≡ filter (λ q. not (q.tag.0 == tag.0)) queue.old.items }
    ensures len { deque_len queue.new ≤ deque_len queue.old }
    ensures capacity { deque_capacity queue.new ≡ deque_capacity queue.old }
{
    queue.retain(|q| q.tag.0 != tag.0);
}

/// Takes the R2Ts of a released tag out.
pub fn drop_solicited(solicited: &mut Vec<Solicited>, tag: Tag)
    ensures is { solicited.new.items ≡ filter (λ r. not (r.tag.0 == tag.0)) solicited.old.items }
    ensures fits { All (λ r. r.offset + r.length < 2 ^ 32) solicited.old.items → All (λ r. r.offset + r.length < 2 ^ 32) solicited.new.items }
{
    solicited.retain(|r| r.tag.0 != tag.0);
}

/// An R2T counts while the submission of its tag is live on it.
pub fn is_wanted(busy: &[Allocated], tasks: &[Task], r: &Solicited) -> bool
    ensures { result ≡ is_wanted busy.now tasks.now r.now }
{
    match held(busy, tasks, r.tag) {
        Some(task) => is_live_on(&task.fate, r.tag),
        None => false,
    }
}

// The pieces that an R2T asks for.
fn queue_one(
    queue: &mut VecDeque<Queued>,
    params: Option<Params>,
    busy: &[Allocated],
    r: &Solicited,
)
    requires some { (p : Params) → params ≡ Some p → 1 ≤ p.max_send }
    requires fits { r.now.offset + r.now.length < 2 ^ 32 }
    requires room { deque_len queue.old + length (drawn_by params busy.now r.now) ≤ deque_capacity queue.old }
    ensures items { queue.new.items ≡ queue.old.items ++ drawn_by params busy.now r.now }
    ensures capacity { deque_capacity queue.new ≡ deque_capacity queue.old }
{
    let (Some(params), Some(id)) = (params, holder_of(busy, r.tag)) else {
        return;
    };
    let more = cut_pieces(r.offset, r.length, params.max_send);
    queue_pieces(queue, id, r.tag, r.ttt, more);
}

// How many they are.
fn count_one(params: Option<Params>, busy: &[Allocated], r: &Solicited) -> usize
    requires some { (p : Params) → params ≡ Some p → 1 ≤ p.max_send }
    ensures { result ≡ length (drawn_by params busy.now r.now) }
{
    let (Some(params), Some(_)) = (params, holder_of(busy, r.tag)) else {
        return 0;
    };
    r.length.div_ceil(params.max_send) as usize
}

fn queue_wanted(
    queue: &mut VecDeque<Queued>,
    params: Option<Params>,
    busy: &[Allocated],
    tasks: &[Task],
    r: &Solicited,
)
    requires some { (p : Params) → params ≡ Some p → 1 ≤ p.max_send }
    requires fits { r.now.offset + r.now.length < 2 ^ 32 }
    requires room { deque_len queue.old + length (drawn params busy.now tasks.now (r.now ∷ [])) ≤ deque_capacity queue.old }
    ensures items { queue.new.items ≡ queue.old.items ++ drawn params busy.now tasks.now (r.now ∷ []) }
    ensures capacity { deque_capacity queue.new ≡ deque_capacity queue.old }
{
    if is_wanted(busy, tasks, r) {
        queue_one(queue, params, busy, r);
    }
}

fn count_wanted(params: Option<Params>, busy: &[Allocated], tasks: &[Task], r: &Solicited) -> usize
    requires some { (p : Params) → params ≡ Some p → 1 ≤ p.max_send }
    ensures { result ≡ length (drawn params busy.now tasks.now (r.now ∷ [])) }
{
    if is_wanted(busy, tasks, r) {
        count_one(params, busy, r)
    } else {
        0
    }
}

/// The data that all R2Ts ask for which still count.
pub fn queue_drawn(
    queue: &mut VecDeque<Queued>,
    params: Option<Params>,
    busy: &[Allocated],
    tasks: &[Task],
    solicited: &[Solicited],
)
    requires some { (p : Params) → params ≡ Some p → 1 ≤ p.max_send }
    requires fits { All (λ r. r.offset + r.length < 2 ^ 32) solicited.now }
    requires room { deque_len queue.old + length (drawn params busy.now tasks.now solicited.now) ≤ deque_capacity queue.old }
    ensures items { queue.new.items ≡ queue.old.items ++ drawn params busy.now tasks.now solicited.now }
    ensures capacity { deque_capacity queue.new ≡ deque_capacity queue.old }
{
    for r in solicited {
        queue_wanted(queue, params, busy, tasks, r);
    }
}

/// How many pieces they are, where the number fits.
pub fn count_drawn(
    params: Option<Params>,
    busy: &[Allocated],
    tasks: &[Task],
    solicited: &[Solicited],
) -> Option<usize>
    requires some { (p : Params) → params ≡ Some p → 1 ≤ p.max_send }
    ensures some { IfSome result (λ n. n ≡ length (drawn params busy.now tasks.now solicited.now)) }
    ensures none { result ≡ None → 2 ^ 64 ≤ length (drawn params busy.now tasks.now solicited.now) }
{
    let mut count = 0_usize;
    for r in solicited {
        let more = count_wanted(params, busy, tasks, r);
        if more > usize::MAX - count {
            return None;
        }
        count += more;
    }
    Some(count)
}

/// An R2T that counts.
pub fn hear_r2t(solicited: &mut Vec<Solicited>, head: &Header)
    requires ends { EndsWithin head.now }
    requires room { vec_len solicited.old < vec_capacity solicited.old }
    requires fits { All (λ r. r.offset + r.length < 2 ^ 32) solicited.old.items }
    ensures told { solicited.new.items ≡ solicited_told head.now solicited.old.items }
    ensures fits { All (λ r. r.offset + r.length < 2 ^ 32) solicited.new.items }
{
    if let Header::R2t(h) = head {
        solicited.push_reserved(Solicited {
            tag: h.tag,
            ttt: h.ttt,
            offset: h.offset,
            length: h.length,
        });
    }
}
