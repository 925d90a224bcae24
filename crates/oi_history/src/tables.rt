ghost use Rattle.std.specs.Prelude.{◌≡◌, ◌++◌, ◌<◌, ◌≤◌, ◌+◌, IfOk, OnOk, OnErr, length, map, filter, not, ◌==◌, count_by, vec_len, Some, [], ◌∷◌, slice_get, if◌then◌else◌};
ghost use Rattle.std.specs.Vec.{vec_capacity};
ghost use Rattle.oi_history.specs.Indices.{AreSettledBut};
ghost use Rattle.oi_history.specs.Tags.{fresh_tags};
ghost use Rattle.oi_history.specs.declared.task.Task.{Task};
ghost use Rattle.oi_history.specs.Tasks.{due_in, due_of, is_done, is_due, told_task};

use crate::allocated::Allocated;
use crate::fate::{Delivered, Fate};
use crate::reply::is_done;
use crate::task::Task;
use oi_base::{NoMemory, Series, Tag};
use oi_pdu::{DataIn, ScsiResponse};
use std::alloc::Global;
use std::collections::VecDeque;

/// All tags of an age, in ascending index.
pub fn fresh_tags(alloc: Global, age: u8, count: u16) -> Result<VecDeque<Tag>, NoMemory>
    requires age { age < 16 }
    requires count { count ≤ 2048 }
    ensures { IfOk result (λ q. q.items ≡ fresh_tags age count) }
{
    let mut tags = VecDeque::with_capacity(alloc, count as usize)?;
    for index in 0..count {
        tags.push_back(Tag::command(age, index))?;
    }
    Ok(tags)
}

/// The tag is in use no more.
pub fn release(busy: &mut Vec<Allocated>, tag: Tag)
    ensures items { busy.new.items ≡ filter (λ a. not (a.tag.0 == tag.0)) busy.old.items }
    ensures len { vec_len busy.new ≤ vec_len busy.old }
    ensures capacity { vec_capacity busy.new ≡ vec_capacity busy.old }
{
    busy.retain(|a| a.tag.0 != tag.0);
}

/// All that are done are handed out, where a delivery changes none below `low`, nor any at or above `high`.
pub fn tell_within(tasks: &mut Vec<Task>, low: usize, high: usize)
    requires { AreSettledBut low high tasks.old.items }
    ensures { tasks.new.items ≡ map told_task tasks.old.items }
{
    let end = high.min(tasks.len());
    let mut id = low;
    while id < end {
        let task = &mut tasks[id];
        tell(task);
        id += 1;
    }
}

fn tell(task: &mut Task)
    ensures { task.new ≡ told_task task.old }
{
    task.told = is_done(&task.fate);
}

// The outcome of a submission, where it is due.
fn add_due(alloc: Global, id: u64, task: &Task, out: &mut Vec<Delivered>) -> Result<(), NoMemory>
    ensures ok { OnOk result (out.new.items ≡ out.old.items ++ due_of id task.now task.now.fate) }
    ensures err { OnErr result (out.new.items ≡ out.old.items) }
{
    match &task.fate {
        Fate::Done { outcome, .. } if !task.told => {
            let outcome = outcome.copy(alloc)?;
            out.push(Delivered { id, outcome })?;
            Ok(())
        }
        _ => Ok(()),
    }
}

/// Copies of the outcomes that are due, in ascending id, where none is due below `low`, nor at or above `high`.
pub fn due_within(
    alloc: Global,
    tasks: &[Task],
    low: usize,
    high: usize,
) -> Result<Vec<Delivered>, NoMemory>
    requires { AreSettledBut low high tasks.now }
    ensures { IfOk result (λ v. v.items ≡ due_in tasks.now) }
{
    let end = high.min(tasks.len());
    let mut out = Vec::new(alloc);
    let mut id = low;
    while id < end {
        add_due(alloc, id as u64, &tasks[id], &mut out)?;
        id += 1;
    }
    Ok(out)
}

fn is_due(task: &Task) -> bool
    ensures { result ≡ is_due task.now }
{
    is_done(&task.fate) && !task.told
}

/// How many are due, where none is below `low`, nor at or above `high`.
pub fn count_due(tasks: &[Task], low: usize, high: usize) -> usize
    requires { AreSettledBut low high tasks.now }
    ensures { result ≡ count_by is_due tasks.now }
{
    let end = high.min(tasks.len());
    let mut count = 0;
    let mut id = low;
    while id < end {
        if is_due(&tasks[id]) {
            count += 1;
        }
        id += 1;
    }
    count
}

/// Where the submissions stand, by id.
pub fn fates_of(alloc: Global, tasks: Vec<Task>) -> Result<Series<Fate>, NoMemory>
    ensures { IfOk result (λ found. found ≡ map (λ t. t.fate) tasks.items) }
{
    let mut fates = Vec::new(alloc);
    for task in tasks {
        let Task { fate, .. } = task;
        fates.push(fate)?;
    }
    Ok(Series::from_vec(fates))
}
