ghost use Rattle.std.specs.Prelude.{◌≡◌, IfOk};
ghost use Rattle.std.specs.Str.{IsUtf8};

use crate::calls::is_to_fail;
use crate::record_store::RecordStore;
use crate::store_error::StoreError;
use oi_base::{Blob, Label, NoMemory, Series};
use std::alloc::Global;
use std::collections::BTreeMap;
use std::marker::Model;

/// A store of records over memory. Its calls are numbered from 0, and those whose number is listed fail and leave the
/// records as they are.
#[derive(Drop)]
pub struct MemStore {
    alloc: Global,
    records: BTreeMap<String, Blob>,
    calls: u64,
    fails: Series<u64>,
    faults: u64,
}

impl Model for MemStore {
    ghost use Rattle.oi_outside.specs.MemStores.{MemRecords, mem_records_code, records_of};

    ghost Value = { MemRecords };

    ghost coded = { mem_records_code };

    ghost view = { λ s. record { records = records_of s.records.entries; calls = s.calls; fails = s.fails; faults = s.faults } };
}

impl MemStore {
    ghost use Rattle.std.specs.Prelude.{◌≡◌, Ok, Some, IfErr, IfOk, OnErr, OnOk, is_err};
    ghost use Rattle.std.specs.FinMap.{empty};
    ghost use Rattle.std.specs.Option.{option_copied};
    ghost use Rattle.oi_outside.specs.declared.store_error.StoreError.TheVariants.{Failed};
    ghost use Rattle.oi_outside.specs.Calls.{is_to_fail};
    ghost use Rattle.oi_outside.specs.MemStores.{numbered};
    ghost use Rattle.oi_outside.specs.Records.{has_path, lookup, with_path, without_path};
    ghost use Rattle.oi_outside.specs.Stores.{Lists};

    /// A store without records; takes no memory.
    pub fn new(alloc: Global, fails: Series<u64>) -> MemStore
        ensures { result ≡ record { records = empty; calls = 0; fails = fails; faults = 0 } }
    {
        MemStore {
            alloc,
            records: BTreeMap::new(alloc),
            calls: 0,
            fails,
            faults: 0,
        }
    }

    /// The text at the path. This call has no number, and never fails.
    pub fn text_at(&self, path: &str) -> Option<&[u8]>
        ensures { option_copied result ≡ lookup self.now.records path.now }
    {
        match self.records.get(path) {
            Some(text) => Some(text.as_slice()),
            None => None,
        }
    }

    // Numbers a call. One whose number is listed fails, and is counted.
    fn begin_call(&mut self) -> Result<(), StoreError>
        ensures fails { is_err result ≡ is_to_fail self.old.fails self.old.calls }
        ensures failed { IfErr result (λ e. e ≡ Failed) }
        ensures after { self.new ≡ numbered self.old }
    {
        let call = self.calls;
        self.calls = call.saturating_add(1);
        if is_to_fail(self.fails.as_slice(), call) {
            self.faults = self.faults.saturating_add(1);
            return Err(StoreError::Failed);
        }
        Ok(())
    }

    fn paths(&self) -> Result<Series<Label>, NoMemory>
        ensures { IfOk result (λ found. Lists (Ok found) (Some self.now.records) (Some self.now.records)) }
    {
        let mut found = Vec::with_capacity(self.alloc, self.records.len())?;
        for path in self.records.keys() {
            found.push(label_of(self.alloc, path.as_str())?)?;
        }
        Ok(Series::from_vec(found))
    }

    fn put(&mut self, path: &str, text: &[u8]) -> Result<(), NoMemory>
        ensures ok { OnOk result (self.new ≡ record self.old { records = with_path self.old.records path.now text.now }) }
        ensures err { OnErr result (self.new ≡ self.old) }
    {
        let text = Blob::from_slice(self.alloc, text)?;
        self.records
            .insert(String::from_str(self.alloc, path)?, text)?;
        Ok(())
    }

    // Answers whether there was a text.
    fn take(&mut self, path: &str) -> bool
        ensures was { result ≡ has_path self.old.records path.now }
        ensures after { self.new ≡ record self.old { records = without_path self.old.records path.now } }
    {
        self.records.remove(path).is_some()
    }
}

fn label_of(alloc: Global, text: &str) -> Result<Label, NoMemory>
    ensures label { IfOk result (λ label. label ≡ text.now) }
    ensures text { IfOk result (λ label. IsUtf8 label) }
{
    Label::from_slice(alloc, text.as_bytes())
}

impl RecordStore for MemStore {
    ghost use Rattle.std.specs.Prelude.{◌≡◌, Some};
    ghost use Rattle.oi_outside.specs.Calls.{is_to_fail};
    ghost use Rattle.oi_outside.specs.MemStores.{numbered, after_change};
    ghost use Rattle.oi_outside.specs.Records.{with_path, without_path};
    ghost use Rattle.oi_outside.specs.Stores.{Finds, IsTallied, Lists, Puts, Removes, has_failed};

    ghost records = { λ s. Some s.records };

    ghost faults = { λ s. s.faults };

    fn list(&mut self) -> Result<Series<Label>, StoreError>
        ensures lists { Lists result (Some self.old.records) (Some self.new.records) }
        ensures count { IsTallied result self.old.faults self.new.faults }
        ensures fails { has_failed result ≡ is_to_fail self.old.fails self.old.calls }
        ensures after { self.new ≡ numbered self.old }
    {
        self.begin_call()?;
        Ok(self.paths()?)
    }

    fn read(&mut self, path: &str) -> Result<Option<Blob>, StoreError>
        ensures finds { Finds result path.now (Some self.old.records) (Some self.new.records) }
        ensures count { IsTallied result self.old.faults self.new.faults }
        ensures fails { has_failed result ≡ is_to_fail self.old.fails self.old.calls }
        ensures after { self.new ≡ numbered self.old }
    {
        self.begin_call()?;
        match self.text_at(path) {
            Some(text) => Ok(Some(Blob::from_slice(self.alloc, text)?)),
            None => Ok(None),
        }
    }

    fn write_whole(&mut self, path: &str, bytes: &[u8]) -> Result<(), StoreError>
        ensures puts { Puts result path.now bytes.now (Some self.old.records) (Some self.new.records) }
        ensures count { IsTallied result self.old.faults self.new.faults }
        ensures fails { has_failed result ≡ is_to_fail self.old.fails self.old.calls }
        ensures after { self.new ≡ after_change result (with_path self.old.records path.now bytes.now) self.old }
    {
        self.begin_call()?;
        Ok(self.put(path, bytes)?)
    }

    fn remove(&mut self, path: &str) -> Result<bool, StoreError>
        ensures removes { Removes result path.now (Some self.old.records) (Some self.new.records) }
        ensures count { IsTallied result self.old.faults self.new.faults }
        ensures fails { has_failed result ≡ is_to_fail self.old.fails self.old.calls }
        ensures after { self.new ≡ after_change result (without_path self.old.records path.now) self.old }
    {
        self.begin_call()?;
        Ok(self.take(path))
    }
}
