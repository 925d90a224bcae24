use oi_base::NoMemory;
use std::alloc::Global;
use std::collections::{BTreeMap, BTreeSet};
use std::marker::Model;

/// Times by key, in milliseconds. A key has one time at most.
#[derive(Drop)]
pub struct Agenda {
    by_key: BTreeMap<u32, u64>,
    by_time: BTreeSet<(u64, u32)>,
}

impl Model for Agenda {
    ghost use Rattle.std.specs.Prelude.{List, ℕ};
    ghost use Rattle.oi_timers.specs.Agenda.{Agree, IsOneEach};

    ghost Value = { List (ℕ × ℕ) };

    ghost view = { λ a. a.by_key.entries };

    ghost invariant = { λ a. Agree a.by_key.entries a.by_time × IsOneEach a.by_key.entries };
}

impl Agenda {
    ghost use Rattle.std.specs.Prelude.{◌≡◌, ◌≤◌, ℕ, [], IfNone, IfSome, OnErr, OnOk};
    ghost use Rattle.oi_timers.specs.Agenda.{IsFirst, IsOneEach, NoneDue, time_of, with_time, without};

    /// No times; takes no memory.
    pub fn new(alloc: Global) -> Agenda
        ensures { result ≡ [] }
    {
        Agenda {
            by_key: BTreeMap::new(alloc),
            by_time: BTreeSet::new(alloc),
        }
    }

    /// Gives the key this time, in place of the one that it had.
    pub fn set(&mut self, key: u32, at: u64) -> Result<(), NoMemory>
        ensures ok { OnOk result (self.new ≡ with_time self.old key at) }
        ensures err { OnErr result (self.new ≡ self.old) }
        ensures one_each { IsOneEach self.new }
    {
        self.by_time.insert((at, key))?;
        match self.by_key.insert(key, at) {
            Ok(Some(old)) => {
                if old != at {
                    self.by_time.remove(&(old, key));
                }
                Ok(())
            }
            Ok(None) => Ok(()),
            Err(_) => {
                self.by_time.remove(&(at, key));
                Err(NoMemory)
            }
        }
    }

    /// Takes the key's time away, if it has one.
    pub fn clear(&mut self, key: u32)
        ensures cleared { self.new ≡ without self.old key }
        ensures one_each { IsOneEach self.new }
    {
        if let Some(at) = self.by_key.remove(&key) {
            self.by_time.remove(&(at, key));
        }
    }

    /// The earliest time.
    pub fn earliest(&self) -> Option<u64>
        ensures none { IfNone result (self.now ≡ []) }
        ensures first { IfSome result (λ at. (key : ℕ) × IsFirst self.now key at) }
        ensures one_each { IsOneEach self.now }
    {
        let (at, _) = self.first()?;
        Some(at)
    }

    // The least pair of time and key.
    fn first(&self) -> Option<(u64, u32)>
        ensures none { IfNone result (self.now ≡ []) }
        ensures first { IfSome result (λ pair. IsFirst self.now pair.1 pair.0) }
        ensures one_each { IsOneEach self.now }
    {
        match self.by_time.first() {
            Some(pair) => Some(*pair),
            None => None,
        }
    }

    /// Takes out the key with the least pair of time and key, where that time has come.
    pub fn take_due(&mut self, now: u64) -> Option<u32>
        ensures none { IfNone result (self.new ≡ self.old) }
        ensures none_due { IfNone result (NoneDue self.old now) }
        ensures first { IfSome result (λ key. (at : ℕ) × (at ≤ now) × IsFirst self.old key at) }
        ensures left { IfSome result (λ key. self.new ≡ without self.old key) }
        ensures one_each { IsOneEach self.new }
    {
        let (at, key) = self.first()?;
        if at > now {
            return None;
        }
        self.by_time.remove(&(at, key));
        self.by_key.remove(&key);
        Some(key)
    }
}
