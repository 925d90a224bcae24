ghost use Rattle.std.specs.Prelude.{◌≡◌, ◌≤◌, ◌⊎◌, ◌++◌, ◌∷◌, [], List, None, IfOk, OnErr, OnOk, insert, vec_len};
ghost use Rattle.oi_base.specs.Counts.{told};
ghost use Rattle.oi_settings.specs.Keys.{Key};
ghost use Rattle.oi_settings.specs.Schema.{fresh_pairs, row_named, table};
ghost use Rattle.oi_settings.specs.Texts.{IsLine};
ghost use Rattle.oi_nodedb.specs.Answers.{Adds, Checks, Deletes, IsCounted, Updates, finished};
ghost use Rattle.oi_nodedb.specs.Databases.{Ascends, fresh, keys_of, record_at, with_record};
ghost use Rattle.oi_nodedb.specs.Filters.{matching};
ghost use Rattle.oi_nodedb.specs.Loads.{Loads};
ghost use Rattle.oi_nodedb.specs.declared.error.DbError.TheVariants.{BadName, BadValue, Memory};

use crate::edits::{change_all, count, remove_all};
use crate::error::DbError;
use crate::filter::Filter;
use crate::load::read_record;
use crate::place::place_of;
use crate::sessions::in_use;
use crate::stored::put_text;
use oi_base::{Label, NoMemory};
use oi_names::SessionInfo;
use oi_outside::{RecordStore, StoreError};
use oi_settings::{NodeRecord, RecordKey, is_open, takes_value};
use std::alloc::Global;
use std::marker::Model;

/// The node records, in ascending order of their keys, beside a store that has their texts.
#[derive(Drop)]
pub struct NodeDb {
    alloc: Global,
    records: Vec<NodeRecord>,
}

impl Model for NodeDb {
    ghost use Rattle.std.specs.Prelude.{List};
    ghost use Rattle.oi_settings.specs.Texts.{Node};
    ghost use Rattle.oi_nodedb.specs.Databases.{Ascends};

    ghost Value = { List Node };

    ghost view = { λ d. d.records.items };

    ghost invariant = { λ d. Ascends d.records.items };
}

impl NodeDb {
    ghost use Rattle.std.specs.Prelude.{option_copied};

    /// No records; takes no memory.
    pub fn new(alloc: Global) -> NodeDb
        ensures { result ≡ [] }
    {
        NodeDb {
            alloc,
            records: Vec::new(alloc),
        }
    }

    /// Reads every record of the store: the texts under the paths that begin with `nodes/`. A path that was listed and is
    /// then not there is passed over.
    ///
    /// # Errors
    ///
    /// `BadRecord` for the first path, in the order of bytes, whose text is bad or is that of another path's record.
    pub fn load<R: RecordStore>(alloc: Global, store: &mut R) -> Result<NodeDb, DbError>
        ensures loads { Loads result (R.records store.old) (R.records store.new) }
        ensures count { IsCounted result (R.faults store.old) (R.faults store.new) }
    {
        let paths = match store.list() {
            Ok(paths) => paths,
            Err(fault) => return Err(DbError::from(fault)),
        };
        let found = paths.as_slice();
        let mut db = NodeDb::new(alloc);
        for path in found {
            let record = match read_record(alloc, store, path) {
                Ok(Some(record)) => record,
                Ok(None) => continue,
                Err(fault) => return Err(fault),
            };
            let Ok(()) = db.take_in(record) else {
                return Err(DbError::Memory);
            };
        }
        Ok(db)
    }

    // Puts the record of a new key in its place.
    fn take_in(&mut self, node: NodeRecord) -> Result<(), NoMemory>
        requires { record_at node.key self.old ≡ None }
        ensures { OnOk result (self.new ≡ with_record node self.old) }
    {
        match place_of(&self.records, node.key()) {
            Ok(_) => unreachable!(),
            Err(at) => {
                self.records.insert(at, node)?;
                Ok(())
            }
        }
    }

    /// The records, in the order of their keys.
    pub fn records(&self) -> &[NodeRecord]
        ensures all { result.now ≡ self.now }
        ensures ordered { Ascends self.now }
    {
        self.records.as_slice()
    }

    /// The record with this key.
    pub fn get(&self, key: &RecordKey) -> Option<&NodeRecord>
        ensures { option_copied result ≡ record_at key.now self.now }
    {
        match place_of(&self.records, key) {
            Ok(at) => Some(&self.records[at]),
            Err(_) => None,
        }
    }

    /// Appends the keys of the records that the filter means, in order.
    pub fn find(&self, filter: &Filter, out: &mut Vec<RecordKey>) -> Result<(), NoMemory>
        ensures ok { OnOk result (out.new.items ≡ out.old.items ++ keys_of (matching filter.now self.now)) }
        ensures err { OnErr result (out.new.items ≡ out.old.items) }
    {
        let start = out.len();
        let done = append_keys(self.alloc, &self.records, filter, out);
        if done.is_err() {
            out.truncate(start);
        }
        done
    }

    /// Makes the record of the key, with the initial value of every setting, and stores it. Answers false, and changes
    /// nothing, where there is one.
    ///
    /// # Errors
    ///
    /// `StoreFault` where the store failed: the store has the text at the record's path or not. Nothing else changed.
    pub fn new_record<R: RecordStore>(
        &mut self,
        store: &mut R,
        key: RecordKey,
    ) -> Result<bool, DbError>
        ensures adds { Adds (fresh key) result self.old self.new (R.records store.old) (R.records store.new) }
        ensures count { IsCounted result (R.faults store.old) (R.faults store.new) }
    {
        let at = match place_of(&self.records, &key) {
            Ok(_) => return Ok(false),
            Err(at) => at,
        };
        match NodeRecord::fresh(self.alloc, key) {
            Ok(record) => add(self.alloc, store, &mut self.records, at, record),
            Err(_) => Err(DbError::Memory),
        }
    }

    /// The same with one more pair as its last one, whose name is that of no setting.
    pub fn new_marked<R: RecordStore>(
        &mut self,
        store: &mut R,
        key: RecordKey,
        name: &str,
        value: &str,
    ) -> Result<bool, DbError>
        requires line { IsLine name.now value.now }
        requires unknown { row_named name.now table ≡ None }
        ensures adds { Adds record { key = key; pairs = fresh_pairs key ++ (name.now, value.now) ∷ [] } result self.old self.new (R.records store.old) (R.records store.new) }
        ensures count { IsCounted result (R.faults store.old) (R.faults store.new) }
    {
        let at = match place_of(&self.records, &key) {
            Ok(_) => return Ok(false),
            Err(at) => at,
        };
        match marked(self.alloc, key, name, value) {
            Ok(record) => add(self.alloc, store, &mut self.records, at, record),
            Err(_) => Err(DbError::Memory),
        }
    }

    /// Gives each record that the filter means this value of the name, one after another, and answers how many there
    /// are.
    ///
    /// # Errors
    ///
    /// `BadName` where no setting has the name or it comes from the key, `BadValue` where the setting does not take the
    /// value, `NoObjects` where no record is meant. After `StoreFault` or `Memory` the records before one that is meant
    /// are changed, in the store and here, or none is.
    pub fn update<R: RecordStore>(
        &mut self,
        store: &mut R,
        filter: &Filter,
        name: &str,
        value: &str,
    ) -> Result<u32, DbError>
        ensures updates { Updates filter.now name.now value.now result self.old self.new (R.records store.old) (R.records store.new) }
        ensures count { IsCounted result (R.faults store.old) (R.faults store.new) }
    {
        self.update_bytes(store, filter, name.as_bytes(), value.as_bytes())
    }

    /// The same with a name and a value of which it is not known that they are texts.
    pub fn update_bytes<R: RecordStore>(
        &mut self,
        store: &mut R,
        filter: &Filter,
        name: &[u8],
        value: &[u8],
    ) -> Result<u32, DbError>
        ensures updates { Updates filter.now name.now value.now result self.old self.new (R.records store.old) (R.records store.new) }
        ensures count { IsCounted result (R.faults store.old) (R.faults store.new) }
    {
        match check_setting(self.alloc, name, value) {
            Ok(()) => {}
            Err(fault) => return Err(fault),
        }
        let meant = count(filter, &self.records);
        if meant == 0 {
            return Err(DbError::NoObjects);
        }
        let done = change_all(self.alloc, store, filter, name, value, &mut self.records);
        finished(done, meant)
    }

    /// Takes each record that the filter means away, one after another, and answers how many there were.
    ///
    /// # Errors
    ///
    /// `NoObjects` where no record is meant, `InUse` where a living session has the identity of one. After `StoreFault`
    /// or `Memory` the records before one that is meant are gone, from the store and here, or none is.
    pub fn delete<R: RecordStore>(
        &mut self,
        store: &mut R,
        filter: &Filter,
        living: &[SessionInfo],
    ) -> Result<u32, DbError>
        ensures deletes { Deletes filter.now living.now result self.old self.new (R.records store.old) (R.records store.new) }
        ensures count { IsCounted result (R.faults store.old) (R.faults store.new) }
    {
        let meant = count(filter, &self.records);
        if meant == 0 {
            return Err(DbError::NoObjects);
        }
        if let Some(sid) = in_use(filter, living, &self.records) {
            return Err(DbError::InUse { sid });
        }
        let done = remove_all(self.alloc, store, filter, &mut self.records);
        finished(done, meant)
    }
}

// Appends the keys; where it fails, a part of them.
fn append_keys(
    alloc: Global,
    records: &[NodeRecord],
    filter: &Filter,
    out: &mut Vec<RecordKey>,
) -> Result<(), NoMemory>
    ensures ok { OnOk result (out.new.items ≡ out.old.items ++ keys_of (matching filter.now records.now)) }
    ensures err { OnErr result ((more : List Key) × (out.new.items ≡ out.old.items ++ more)) }
{
    for record in records {
        if filter.matches(record.key()) {
            let Ok(key) = record.key().copy(alloc) else {
                return Err(NoMemory);
            };
            let Ok(()) = out.push(key) else {
                return Err(NoMemory);
            };
        }
    }
    Ok(())
}

// Puts a new record in its place, and its text into the store.
fn add<R: RecordStore>(
    alloc: Global,
    store: &mut R,
    records: &mut Vec<NodeRecord>,
    at: usize,
    node: NodeRecord,
) -> Result<bool, DbError>
    requires within { at ≤ vec_len records.old }
    requires new { record_at node.key records.old.items ≡ None }
    requires gap { insert records.old.items at node ≡ with_record node records.old.items }
    ensures adds { Adds node result records.old.items records.new.items (R.records store.old) (R.records store.new) }
    ensures count { IsCounted result (R.faults store.old) (R.faults store.new) }
{
    let Ok(()) = records.insert(at, node) else {
        return Err(DbError::Memory);
    };
    match put_text(alloc, store, &records[at]) {
        Ok(()) => Ok(true),
        Err(fault) => {
            let _ = records.remove(at);
            Err(DbError::from(fault))
        }
    }
}

fn marked(alloc: Global, key: RecordKey, name: &str, value: &str) -> Result<NodeRecord, NoMemory>
    requires line { IsLine name.now value.now }
    requires unknown { row_named name.now table ≡ None }
    ensures { IfOk result (λ r. (r.key ≡ key) × (r.pairs ≡ fresh_pairs key ++ (name.now, value.now) ∷ [])) }
{
    let mut record = NodeRecord::fresh(alloc, key)?;
    let name = Label::from_slice(alloc, name.as_bytes())?;
    record.mark(name, Label::from_slice(alloc, value.as_bytes())?)?;
    Ok(record)
}

// Whether a setting of this name can be updated, and takes the value.
fn check_setting(alloc: Global, name: &[u8], value: &[u8]) -> Result<(), DbError>
    ensures { Checks name.now value.now result }
{
    if !is_open(name) {
        return Err(bad_name(alloc, name));
    }
    match takes_value(alloc, name, value) {
        Ok(true) => Ok(()),
        Ok(false) => Err(bad_value(alloc, name)),
        Err(_) => Err(DbError::Memory),
    }
}

// The answer, where so many records were meant.
fn finished(done: Result<(), StoreError>, meant: usize) -> Result<u32, DbError>
    ensures { result ≡ finished done meant }
{
    match done {
        Ok(()) => Ok(told(meant)),
        Err(fault) => Err(DbError::from(fault)),
    }
}

fn bad_name(alloc: Global, name: &[u8]) -> DbError
    ensures { (result ≡ Memory) ⊎ (result ≡ BadName name.now) }
{
    match Label::from_slice(alloc, name) {
        Ok(name) => DbError::BadName { name },
        Err(_) => DbError::Memory,
    }
}

fn bad_value(alloc: Global, name: &[u8]) -> DbError
    ensures { (result ≡ Memory) ⊎ (result ≡ BadValue name.now) }
{
    match Label::from_slice(alloc, name) {
        Ok(name) => DbError::BadValue { name },
        Err(_) => DbError::Memory,
    }
}

// A count as 32 bits tell it.
fn told(n: usize) -> u32
    ensures { result ≡ told n }
{
    n.min(u32::MAX as usize) as u32
}
