ghost use Rattle.std.specs.Prelude.{◌≡◌, true, IfOk, OnErr, OnOk};
ghost use Rattle.std.specs.Str.{IsUtf8};
ghost use Rattle.oi_outside.specs.Stores.{IsTallied, Puts, Removes};
ghost use Rattle.oi_settings.specs.Keys.{path_text};
ghost use Rattle.oi_settings.specs.Schema.{Takes, is_open, table};
ghost use Rattle.oi_settings.specs.Texts.{text_of};
ghost use Rattle.oi_nodedb.specs.Databases.{with_value};

use oi_base::{Label, NoMemory};
use oi_outside::{RecordStore, StoreError};
use oi_settings::{NodeRecord, path_of};
use std::alloc::Global;

/// Puts the record's text at its path.
pub fn put_text<R: RecordStore>(
    alloc: Global,
    store: &mut R,
    node: &NodeRecord,
) -> Result<(), StoreError>
    ensures puts { Puts result (path_text node.now.key) (text_of node.now.pairs) (R.records store.old) (R.records store.new) }
    ensures count { IsTallied result (R.faults store.old) (R.faults store.new) }
{
    let Ok(path) = path_of(alloc, node.key()) else {
        return Err(StoreError::Memory);
    };
    let mut text = Vec::new(alloc);
    let Ok(()) = node.write_text(&mut text) else {
        return Err(StoreError::Memory);
    };
    store.write_whole(as_text(&path), &text)
}

/// Takes the text at the record's path away, if there is one.
pub fn remove_text<R: RecordStore>(
    alloc: Global,
    store: &mut R,
    node: &NodeRecord,
) -> Result<bool, StoreError>
    ensures removes { Removes result (path_text node.now.key) (R.records store.old) (R.records store.new) }
    ensures count { IsTallied result (R.faults store.old) (R.faults store.new) }
{
    let Ok(path) = path_of(alloc, node.key()) else {
        return Err(StoreError::Memory);
    };
    store.remove(as_text(&path))
}

/// A path, as the store takes it.
pub fn as_text(path: &Label) -> &str
    requires { IsUtf8 path.now }
    ensures { result.now ≡ path.now }
{
    match path.as_text() {
        Some(text) => text,
        None => unreachable!(),
    }
}

/// Gives the record this value of the name, once the store has its new text.
pub fn change<R: RecordStore>(
    alloc: Global,
    store: &mut R,
    node: &mut NodeRecord,
    name: &[u8],
    value: &[u8],
) -> Result<(), StoreError>
    requires open { is_open name.now ≡ true }
    requires taken { Takes table name.now value.now }
    ensures ok { OnOk result (node.new ≡ with_value name.now value.now node.old) }
    ensures err { OnErr result (node.new ≡ node.old) }
    ensures puts { Puts result (path_text node.old.key) (text_of (with_value name.now value.now node.old).pairs) (R.records store.old) (R.records store.new) }
    ensures count { IsTallied result (R.faults store.old) (R.faults store.new) }
{
    let Ok(changed) = changed_record(alloc, node, name, value) else {
        return Err(StoreError::Memory);
    };
    match put_text(alloc, store, &changed) {
        Ok(()) => {
            *node = changed;
            Ok(())
        }
        Err(fault) => Err(fault),
    }
}

fn changed_record(
    alloc: Global,
    node: &NodeRecord,
    name: &[u8],
    value: &[u8],
) -> Result<NodeRecord, NoMemory>
    requires open { is_open name.now ≡ true }
    requires taken { Takes table name.now value.now }
    ensures { IfOk result (λ r. r ≡ with_value name.now value.now node.now) }
{
    let mut changed = node.copy(alloc)?;
    let name = Label::from_slice(alloc, name)?;
    changed.set(name, Label::from_slice(alloc, value)?)?;
    Ok(changed)
}
