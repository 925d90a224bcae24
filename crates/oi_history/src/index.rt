ghost use Rattle.std.specs.Prelude.{◌≡◌, ◌≤◌, ◌<◌, ◌+◌, ◌^◌, ◌⊎◌, Bool, IfOk, List, ℕ, Some, [], cond, false, length, map, nat_lt, slice_get, take, vec_len};
ghost use Rattle.oi_history.specs.Handling.{is_live};
ghost use Rattle.oi_history.specs.Indices.{IsFirstBut, IsIndexed, IsNarrow, WasIndexed, WasIndexedOn, earlier, earlier_where, high_noted, high_over, high_with, low_noted, low_over, low_with, lun_index, no_low, waiting_on, waits_on, with_one};
ghost use Rattle.oi_history.specs.Owing.{sendable};
ghost use Rattle.oi_history.specs.Tasks.{is_done, is_waiting, told_task};
ghost use Rattle.oi_history.specs.declared.task.Task.{Task};

use crate::handling::is_live;
use crate::reply::{is_done, is_waiting};
use crate::task::Task;
use oi_base::NoMemory;
use std::alloc::Global;

const LUNS: usize = 256;

/// What is kept of the submissions of a logical unit.
#[derive(Clone, Copy, Debug)]
pub struct LunIndex {
    /// The first that waits.
    pub first: Option<usize>,
    /// How many are live.
    pub live: usize,
}

/// Where to find the submission to send, and those that are due.
#[derive(Debug, Drop)]
pub struct Index {
    /// By logical unit.
    pub luns: Vec<LunIndex>,
    /// What is due lies at or above this id ..
    pub low: usize,
    /// .. and below this one.
    pub high: usize,
}

fn waits_on(task: &Task, lun: u8) -> bool
    ensures { result ≡ waits_on lun task.now }
{
    task.command.lun == lun && is_waiting(&task.fate)
}

// The first that waits for a logical unit; none below `from` does.
fn first_waiting(tasks: &[Task], lun: u8, from: usize) -> Option<usize>
    requires { (k : ℕ) (t : Task) → k < from → slice_get tasks.now k ≡ Some t → waits_on lun t ≡ false }
    ensures { result ≡ waiting_on lun tasks.now }
{
    let mut id = from;
    while id < tasks.len() {
        if waits_on(&tasks[id], lun) {
            return Some(id);
        }
        id += 1;
    }
    None
}

// The first that waits for the logical unit of the submission with this id, which moved on.
fn first_after(first: Option<usize>, tasks: &[Task], id: usize, lun: u8) -> Option<usize>
    requires id { id < length tasks.now }
    requires first { IsFirstBut (waits_on lun) id first tasks.now }
    ensures { result ≡ waiting_on lun tasks.now }
{
    let waits = waits_on(&tasks[id], lun);
    let Some(found) = first else {
        return if waits { Some(id) } else { None };
    };
    if found < id {
        return Some(found);
    }
    if waits {
        return Some(id);
    }
    if found == id {
        return first_waiting(tasks, lun, id + 1);
    }
    Some(found)
}

// The lesser of two places.
fn earlier(one: Option<usize>, other: Option<usize>) -> Option<usize>
    ensures { result ≡ earlier one other }
{
    match (one, other) {
        (Some(one), Some(other)) => Some(one.min(other)),
        (Some(one), None) => Some(one),
        (None, other) => other,
    }
}

impl LunIndex {
    const EMPTY: LunIndex = LunIndex {
        first: None,
        live: 0,
    };

    // The first that waits, where there is room, or an earlier one.
    fn earlier_sendable(&self, depth: u16, first: Option<usize>) -> Option<usize>
        ensures { result ≡ earlier_where (nat_lt self.now.live depth) first self.now.first }
    {
        if self.live < depth as usize {
            earlier(first, self.first)
        } else {
            first
        }
    }

    // One submission of this logical unit more, behind all others.
    fn with(self, live: bool, waits: bool, id: usize) -> LunIndex
        requires live { self.live ≤ id }
        requires id { id + 1 < 2 ^ 64 }
        ensures { result ≡ with_one self live waits id }
    {
        LunIndex {
            first: if self.first.is_none() && waits {
                Some(id)
            } else {
                self.first
            },
            live: if live { self.live + 1 } else { self.live },
        }
    }

    // The submission with this id, of this logical unit, moved on.
    fn after(self, lun: u8, tasks: &[Task], id: usize, was_live: bool, live: bool) -> LunIndex
        requires id { id < length tasks.now }
        requires kept { WasIndexedOn lun self id was_live live tasks.now }
        ensures { result ≡ lun_index lun tasks.now }
    {
        let others = if was_live { self.live - 1 } else { self.live };
        LunIndex {
            first: first_after(self.first, tasks, id, lun),
            live: if live { others + 1 } else { others },
        }
    }
}

impl Index {
    /// Of no submission.
    pub fn new(alloc: Global) -> Result<Index, NoMemory>
        ensures index { IfOk result (λ index. IsIndexed index []) }
        ensures range { IfOk result (λ index. IsNarrow index no_low 0) }
    {
        let mut luns = Vec::with_capacity(alloc, LUNS)?;
        for _lun in 0..LUNS {
            luns.push(LunIndex::EMPTY)?;
        }
        Ok(Index {
            luns,
            low: usize::MAX,
            high: 0,
        })
    }

    // Finds the submission with this id among those that are due, where it is or a delivery would change it.
    fn note_due(&mut self, task: &Task, id: usize)
        requires { id + 1 < 2 ^ 64 }
        ensures luns { self.new.luns ≡ self.old.luns }
        ensures low { self.new.low ≤ self.old.low }
        ensures high { self.old.high ≤ self.new.high }
        ensures range { IsNarrow self.new (low_with task.now id self.old.low) (high_with task.now id self.old.high) }
        ensures settled { (task.now.told ≡ is_done task.now.fate) ⊎ ((self.new.low ≤ id) × (id < self.new.high)) }
    {
        if task.told == is_done(&task.fate) {
            return;
        }
        if id < self.low {
            self.low = id;
        }
        if self.high <= id {
            self.high = id + 1;
        }
    }

    /// The submission with this id moved on. `was_live` says that it was live before.
    pub fn note(&mut self, tasks: &[Task], id: u64, was_live: bool)
        requires { WasIndexed self.old id was_live tasks.now }
        ensures index { IsIndexed self.new tasks.now }
        ensures range { IsNarrow self.new (low_noted (slice_get tasks.now id) id self.old.low) (high_noted (slice_get tasks.now id) id self.old.high) }
    {
        if id >= tasks.len() as u64 {
            return;
        }
        let id = id as usize;
        let task = &tasks[id];
        let lun = task.command.lun;
        let live = is_live(&task.fate);
        self.luns[lun as usize] = self.luns[lun as usize].after(lun, tasks, id, was_live, live);
        self.note_due(task, id);
    }

    /// One submission more, behind the first `count`.
    pub fn add(&mut self, tasks: &[Task], count: usize)
        requires count { count < length tasks.now }
        requires before { IsIndexed self.old (take count tasks.now) }
        ensures index { IsIndexed self.new (take (count + 1) tasks.now) }
        ensures range { IsNarrow self.new (low_noted (slice_get tasks.now count) count self.old.low) (high_noted (slice_get tasks.now count) count self.old.high) }
    {
        let task = &tasks[count];
        let lun = task.command.lun;
        self.luns[lun as usize] = self.luns[lun as usize].with(
            is_live(&task.fate),
            is_waiting(&task.fate),
            count,
        );
        self.note_due(task, count);
    }

    /// Anew, of all submissions.
    pub fn build(&mut self, tasks: &[Task])
        requires { vec_len self.old.luns ≡ 256 }
        ensures index { IsIndexed self.new tasks.now }
        ensures range { IsNarrow self.new (low_over 0 tasks.now no_low) (high_over 0 tasks.now 0) }
    {
        self.clear();
        for count in 0..tasks.len() {
            self.add(tasks, count);
        }
    }

    fn clear(&mut self)
        requires { vec_len self.old.luns ≡ 256 }
        ensures index { IsIndexed self.new [] }
        ensures range { IsNarrow self.new no_low 0 }
    {
        for lun in self.luns.iter_mut() {
            *lun = LunIndex::EMPTY;
        }
        self.low = usize::MAX;
        self.high = 0;
    }

    /// All that are done are handed out.
    pub fn settle(&mut self)
        ensures index { (ts : List Task) → IsIndexed self.old ts → IsIndexed self.new (map told_task ts) }
        ensures range { IsNarrow self.new no_low 0 }
    {
        self.low = usize::MAX;
        self.high = 0;
    }

    /// The least submission that waits and whose logical unit has room.
    pub fn sendable(&self, depth: u16) -> Option<usize>
        ensures { (ts : List Task) → IsIndexed self.now ts → result ≡ sendable depth ts }
    {
        let mut first = None;
        for lun in &self.luns {
            first = lun.earlier_sendable(depth, first);
        }
        first
    }
}
