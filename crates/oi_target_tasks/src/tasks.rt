ghost use Rattle.std.specs.Prelude.{◌≡◌, ◌++◌, ◌∷◌, [], false, true, IfNone, IfOk, IfSome, OnErr, OnOk, bytes_eq, filter, not, option_copied};
ghost use Rattle.std.specs.List.{list_any};
ghost use Rattle.oi_target_tasks.specs.Places.{number_waiting, place_of};
ghost use Rattle.oi_target_tasks.specs.Tasks.{asked_again, asks_for, filled_in, is_busy, is_stuck, is_waiting, waiting_in, waits_as};

use crate::task::Task;
use oi_base::NoMemory;
use std::alloc::Global;
use std::collections::BTreeMap;
use std::marker::Model;

/// Commands that came and were not executed yet, in the order in which they came. No two have the same tag.
#[derive(Debug, Drop)]
pub struct Tasks {
    order: BTreeMap<u64, Task>,
    // The number of each by its tag; a number may be left over from a command that is gone.
    places: BTreeMap<u32, u64>,
    next: u64,
}

impl Model for Tasks {
    ghost use Rattle.std.specs.Prelude.{List};
    ghost use Rattle.std.specs.Map.{values_of};
    ghost use Rattle.oi_target_tasks.specs.Places.{IsIndexed};
    ghost use Rattle.oi_target_tasks.specs.declared.task.Task.{Task};

    ghost Value = { List Task };

    ghost view = { λ a. values_of a.order.entries };

    ghost invariant = { λ a. IsIndexed a.order.entries a.places.entries a.next };
}

// The number under this tag.
fn number_at(places: &BTreeMap<u32, u64>, tag: u32) -> Option<u64>
    ensures { result ≡ place_of places.now.entries tag }
{
    places.get(&tag).copied()
}

// The number of the command that waits for data under this tag.
fn waiting_at(order: &BTreeMap<u64, Task>, places: &BTreeMap<u32, u64>, tag: u32) -> Option<u64>
    ensures { result ≡ number_waiting order.now.entries tag (place_of places.now.entries tag) }
{
    let number = number_at(places, tag)?;
    let task = order.get(&number)?;
    if task.waits_as(tag) {
        Some(number)
    } else {
        None
    }
}

impl Tasks {
    /// No commands; takes no memory.
    pub fn new(alloc: Global) -> Tasks
        ensures { result ≡ [] }
    {
        Tasks {
            order: BTreeMap::new(alloc),
            places: BTreeMap::new(alloc),
            next: 0,
        }
    }

    /// Whether one of them has this tag.
    pub fn is_busy(&self, tag: u32) -> bool
        ensures { result ≡ is_busy tag self.now }
    {
        let Some(number) = number_at(&self.places, tag) else {
            return false;
        };
        match self.order.get(&number) {
            Some(task) => task.tag.0 == tag,
            None => false,
        }
    }

    /// Takes a command behind the others.
    pub fn push(&mut self, task: Task) -> Result<(), NoMemory>
        requires { is_busy task.tag.0 self.old ≡ false }
        ensures ok { OnOk result (self.new ≡ self.old ++ task ∷ []) }
        ensures err { OnErr result (self.new ≡ self.old) }
    {
        let Some(next) = self.next.checked_add(1) else {
            return Err(NoMemory);
        };
        self.places.insert(task.tag.0, self.next)?;
        self.order.insert(self.next, task)?;
        self.next = next;
        Ok(())
    }

    /// The one that waits for data under this tag.
    pub fn waiting(&self, tag: u32) -> Option<&Task>
        ensures { option_copied result ≡ waiting_in tag self.now }
    {
        let number = waiting_at(&self.order, &self.places, tag)?;
        self.order.get(&number)
    }

    /// Gives data to the one that waits for them under this tag. Tells whether it asks for more.
    pub fn fill(
        &mut self,
        alloc: Global,
        tag: u32,
        payload: &[u8],
        transfer: u32,
        burst: u32,
    ) -> Result<bool, NoMemory>
        ensures asked { IfOk result (λ asked. asked ≡ asks_for payload.now (waiting_in tag self.old)) }
        ensures tasks { OnOk result (self.new ≡ filled_in transfer burst payload.now (waiting_in tag self.old) self.old) }
        ensures again { IfOk result (λ asked. asked ≡ true → waiting_in tag self.new ≡ asked_again transfer burst payload.now (waiting_in tag self.old)) }
        ensures err { OnErr result (self.new ≡ self.old) }
    {
        let Some(number) = waiting_at(&self.order, &self.places, tag) else {
            return Ok(false);
        };
        let Some(task) = self.order.get_mut(&number) else {
            return Ok(false);
        };
        task.fill(alloc, payload, transfer, burst)
    }

    /// The first one, where it does not wait for data.
    pub fn next_ready(&mut self) -> Option<Task>
        ensures none { IfNone result (self.new ≡ self.old) }
        ensures stuck { IfNone result (is_stuck self.old ≡ true) }
        ensures some { IfSome result (λ t. (is_waiting t ≡ false) × (self.old ≡ t ∷ self.new)) }
    {
        let (_, task) = self.order.first_key_value()?;
        if task.is_waiting() {
            return None;
        }
        let (_, task) = self.order.pop_first()?;
        self.places.remove(&task.tag.0);
        Some(task)
    }

    /// Drops the one that waits for data under this tag. Tells whether there was one.
    pub fn drop_waiting(&mut self, tag: u32) -> bool
        ensures dropped { result ≡ list_any (waits_as tag) self.old }
        ensures tasks { self.new ≡ filter (λ t. not (waits_as tag t)) self.old }
        ensures none { result ≡ false → self.new ≡ self.old }
    {
        let Some(number) = waiting_at(&self.order, &self.places, tag) else {
            return false;
        };
        self.order.remove(&number);
        self.places.remove(&tag);
        true
    }

    /// Drops those for this logical unit.
    pub fn drop_of_unit(&mut self, lun: [u8; 8])
        ensures { self.new ≡ filter (λ t. not (bytes_eq t.command.lun lun)) self.old }
    {
        self.order.retain(|_, task| task.command.lun != lun);
        let order = &self.order;
        self.places.retain(|_, number| order.contains_key(&*number));
    }

    /// Drops them all.
    pub fn clear(&mut self)
        ensures { self.new ≡ [] }
    {
        self.order.clear();
        self.places.clear();
    }
}
