ghost use Rattle.std.specs.Prelude.{◌≡◌, ◌≤◌, OnErr, OnOk, Some, slice_get, true};
ghost use Rattle.oi_history.specs.Blows.{blow_by};
ghost use Rattle.oi_history.specs.Handling.{aim_of};
ghost use Rattle.oi_history.specs.Recovering.{got_data, got_response, map_from};
ghost use Rattle.oi_history.specs.Standing.{HaveTries};
ghost use Rattle.oi_history.specs.Tallies.{AreCounted, HasPlace, HavePlaces, IsCounted};
ghost use Rattle.oi_history.specs.Tasks.{changed, is_waiting, issued};
ghost use Rattle.oi_history.specs.declared.task.Task.{Task};

use crate::handling::aim_of;
use crate::phase::Handler;
use crate::recovering::{Blow, data_to, response_to, strike};
use crate::reply::issue;
use crate::tally::{Footing, Tally};
use crate::task::Task;
use oi_base::{NoMemory, Tag};
use oi_pdu::{DataIn, ScsiResponse};
use oi_recovery::Aim;
use std::alloc::Global;

// What befalls a submission, with the counts.
fn strike_noted(
    task: &mut Task,
    tally: &mut Tally,
    alloc: Global,
    allowed: u8,
    at: u64,
    blow: Blow,
    id: u64,
)
    requires { HasPlace tally.old task.old.fate }
    ensures task { task.new ≡ blow_by allowed at blow id task.old }
    ensures tally { IsCounted tally.old tally.new task.old.fate task.new.fate }
{
    let was = Footing::of(&task.fate);
    strike(task, alloc, allowed, at, blow, id);
    tally.note(was, &task.fate);
}

/// What befalls the submission with this id.
pub fn strike_at(
    tasks: &mut Vec<Task>,
    tally: &mut Tally,
    alloc: Global,
    allowed: u8,
    at: u64,
    blow: Blow,
    id: u64,
)
    requires { HavePlaces tally.old tasks.old.items }
    ensures tasks { tasks.new.items ≡ changed id (blow_by allowed at blow id) tasks.old.items }
    ensures tally { AreCounted tally.old tally.new tasks.old.items tasks.new.items }
{
    if id < tasks.len() as u64 {
        let task = &mut tasks[id as usize];
        strike_noted(task, tally, alloc, allowed, at, blow, id);
    }
}

/// What befalls all submissions.
pub fn strike_all(
    tasks: &mut Vec<Task>,
    tally: &mut Tally,
    alloc: Global,
    allowed: u8,
    at: u64,
    blow: Blow,
)
    requires { HavePlaces tally.old tasks.old.items }
    ensures tasks { tasks.new.items ≡ map_from 0 (blow_by allowed at blow) tasks.old.items }
    ensures tally { AreCounted tally.old tally.new tasks.old.items tasks.new.items }
{
    let mut id = 0;
    while id < tasks.len() {
        let task = &mut tasks[id];
        strike_noted(task, tally, alloc, allowed, at, blow, id as u64);
        id += 1;
    }
}

// A Data-In for a submission, with the counts.
fn data_noted(
    task: &mut Task,
    tally: &mut Tally,
    alloc: Global,
    allowed: u8,
    at: u64,
    aim: Aim,
    h: DataIn,
    payload: &[u8],
) -> Result<(), NoMemory>
    requires { HasPlace tally.old task.old.fate }
    ensures task { OnOk result (task.new ≡ got_data allowed at aim h payload.now task.old) }
    ensures tally { OnOk result (IsCounted tally.old tally.new task.old.fate task.new.fate) }
    ensures err_task { OnErr result (task.new ≡ task.old) }
    ensures err_tally { OnErr result (tally.new ≡ tally.old) }
{
    let was = Footing::of(&task.fate);
    data_to(task, alloc, allowed, at, aim, h, payload)?;
    tally.note(was, &task.fate);
    Ok(())
}

// A SCSI Response for a submission, with the counts.
fn response_noted(
    task: &mut Task,
    tally: &mut Tally,
    alloc: Global,
    allowed: u8,
    at: u64,
    aim: Aim,
    h: ScsiResponse,
    payload: &[u8],
) -> Result<(), NoMemory>
    requires { HasPlace tally.old task.old.fate }
    ensures task { OnOk result (task.new ≡ got_response allowed at aim h payload.now task.old) }
    ensures tally { OnOk result (IsCounted tally.old tally.new task.old.fate task.new.fate) }
    ensures err_task { OnErr result (task.new ≡ task.old) }
    ensures err_tally { OnErr result (tally.new ≡ tally.old) }
{
    let was = Footing::of(&task.fate);
    response_to(task, alloc, allowed, at, aim, h, payload)?;
    tally.note(was, &task.fate);
    Ok(())
}

/// A Data-In for the submission with this id.
pub fn data_for(
    tasks: &mut Vec<Task>,
    tally: &mut Tally,
    alloc: Global,
    allowed: u8,
    at: u64,
    handler: Handler,
    id: u64,
    h: DataIn,
    payload: &[u8],
) -> Result<(), NoMemory>
    requires { HavePlaces tally.old tasks.old.items }
    ensures tasks { OnOk result (tasks.new.items ≡ changed id (λ t. got_data allowed at (aim_of handler id t) h payload.now t) tasks.old.items) }
    ensures tally { OnOk result (AreCounted tally.old tally.new tasks.old.items tasks.new.items) }
    ensures err_tasks { OnErr result (tasks.new.items ≡ tasks.old.items) }
    ensures err_tally { OnErr result (tally.new ≡ tally.old) }
{
    if id >= tasks.len() as u64 {
        return Ok(());
    }
    let task = &mut tasks[id as usize];
    let aim = aim_of(handler, id, task);
    data_noted(task, tally, alloc, allowed, at, aim, h, payload)
}

/// A SCSI Response for the submission with this id.
pub fn response_for(
    tasks: &mut Vec<Task>,
    tally: &mut Tally,
    alloc: Global,
    allowed: u8,
    at: u64,
    handler: Handler,
    id: u64,
    h: ScsiResponse,
    payload: &[u8],
) -> Result<(), NoMemory>
    requires { HavePlaces tally.old tasks.old.items }
    ensures tasks { OnOk result (tasks.new.items ≡ changed id (λ t. got_response allowed at (aim_of handler id t) h payload.now t) tasks.old.items) }
    ensures tally { OnOk result (AreCounted tally.old tally.new tasks.old.items tasks.new.items) }
    ensures err_tasks { OnErr result (tasks.new.items ≡ tasks.old.items) }
    ensures err_tally { OnErr result (tally.new ≡ tally.old) }
{
    if id >= tasks.len() as u64 {
        return Ok(());
    }
    let task = &mut tasks[id as usize];
    let aim = aim_of(handler, id, task);
    response_noted(task, tally, alloc, allowed, at, aim, h, payload)
}

/// The command of the submission with this id goes out.
pub fn send_at(tasks: &mut Vec<Task>, allowed: u8, id: u64, generation: u64, tag: Tag)
    requires tries { HaveTries allowed tasks.old.items }
    requires waits { (t : Task) → slice_get tasks.old.items id ≡ Some t → is_waiting t.fate ≡ true }
    ensures { tasks.new.items ≡ changed id (issued generation tag) tasks.old.items }
{
    if id < tasks.len() as u64 {
        let task = &mut tasks[id as usize];
        issue(task, generation, tag);
    }
}
