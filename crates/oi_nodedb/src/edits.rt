ghost use Rattle.std.specs.Prelude.{◌≡◌, true, length};
ghost use Rattle.oi_outside.specs.Stores.{IsTallied};
ghost use Rattle.oi_settings.specs.Schema.{Takes, is_open, table};
ghost use Rattle.oi_nodedb.specs.Answers.{Changes, Drops};
ghost use Rattle.oi_nodedb.specs.Filters.{matching};

use crate::filter::Filter;
use crate::stored::{change, remove_text};
use oi_outside::{RecordStore, StoreError};
use oi_settings::NodeRecord;
use std::alloc::Global;

/// How many records the filter means.
pub fn count(filter: &Filter, records: &[NodeRecord]) -> usize
    ensures { result ≡ length (matching filter.now records.now) }
{
    records
        .iter()
        .filter(|record| filter.matches(record.key()))
        .count()
}

/// Gives each record that the filter means this value of the name, in the store and in the list, one after another.
pub fn change_all<R: RecordStore>(
    alloc: Global,
    store: &mut R,
    filter: &Filter,
    name: &[u8],
    value: &[u8],
    records: &mut Vec<NodeRecord>,
) -> Result<(), StoreError>
    requires open { is_open name.now ≡ true }
    requires taken { Takes table name.now value.now }
    ensures changes { Changes filter.now name.now value.now result records.old.items records.new.items (R.records store.old) (R.records store.new) }
    ensures count { IsTallied result (R.faults store.old) (R.faults store.new) }
{
    for at in 0..records.len() {
        if !filter.matches(records[at].key()) {
            continue;
        }
        match change(alloc, store, &mut records[at], name, value) {
            Ok(()) => {}
            Err(fault) => return Err(fault),
        }
    }
    Ok(())
}

/// Takes each record that the filter means away, from the store and from the list, one after another.
pub fn remove_all<R: RecordStore>(
    alloc: Global,
    store: &mut R,
    filter: &Filter,
    records: &mut Vec<NodeRecord>,
) -> Result<(), StoreError>
    ensures drops { Drops filter.now result records.old.items records.new.items (R.records store.old) (R.records store.new) }
    ensures count { IsTallied result (R.faults store.old) (R.faults store.new) }
{
    let mut kept = 0;
    for at in 0..records.len() {
        if !filter.matches(records[kept].key()) {
            kept += 1;
            continue;
        }
        match remove_text(alloc, store, &records[kept]) {
            Ok(_) => {}
            Err(fault) => return Err(fault),
        }
        let _ = records.remove(kept);
    }
    Ok(())
}
