ghost use Rattle.std.specs.Prelude.{◌≡◌, ◌⊎◌, ◌++◌, ◌↔◌, ℕ, IsTrue, List, MatchOption, codes};
ghost use Rattle.std.specs.Str.{IsUtf8};
ghost use Rattle.oi_nodedb.specs.Answers.{IsCounted};
ghost use Rattle.oi_nodedb.specs.Loads.{IsReadAs, ReadsAt};
ghost use Rattle.oi_nodedb.specs.declared.error.DbError.TheVariants.{BadRecord, Memory};

use crate::error::DbError;
use crate::stored::as_text;
use oi_base::Label;
use oi_outside::RecordStore;
use oi_settings::{NodeRecord, RecordFault, path_of, read_text};
use std::alloc::Global;

/// The record whose text is at the path. None where the path is none of node records, or nothing is there.
pub fn read_record<R: RecordStore>(
    alloc: Global,
    store: &mut R,
    path: &Label,
) -> Result<Option<NodeRecord>, DbError>
    requires { IsUtf8 path.now }
    ensures reads { ReadsAt path.now result (R.records store.old) (R.records store.new) }
    ensures count { IsCounted result (R.faults store.old) (R.faults store.new) }
{
    let Some(_) = behind_nodes(path.as_slice()) else {
        return Ok(None);
    };
    let text = match store.read(as_text(path)) {
        Ok(Some(text)) => text,
        Ok(None) => return Ok(None),
        Err(fault) => return Err(DbError::from(fault)),
    };
    match record_of(alloc, path, text.as_slice()) {
        Ok(record) => Ok(Some(record)),
        Err(fault) => Err(fault),
    }
}

// What follows `nodes/`, where the path begins so.
fn behind_nodes(path: &[u8]) -> Option<&[u8]>
    ensures { MatchOption result ((rest : List ℕ) → path.now ≡ codes "nodes/" ++ rest → ⊥) (λ rest. path.now ≡ codes "nodes/" ++ rest.now) }
{
    path.strip_prefix(b"nodes/")
}

// The record that the text at the path stores.
fn record_of(alloc: Global, path: &Label, text: &[u8]) -> Result<NodeRecord, DbError>
    ensures { IsReadAs path.now text.now result }
{
    let record = match read_text(alloc, text) {
        Ok(record) => record,
        Err(RecordFault::Bad { line }) => return Err(bad_record(alloc, path, line)),
        Err(RecordFault::Memory) => return Err(DbError::Memory),
    };
    let Ok(own) = path_of(alloc, record.key()) else {
        return Err(DbError::Memory);
    };
    if !is_same(own.as_slice(), path.as_slice()) {
        return Err(bad_record(alloc, path, 0));
    }
    Ok(record)
}

fn is_same(a: &[u8], b: &[u8]) -> bool
    ensures { IsTrue result ↔ (a.now ≡ b.now) }
{
    a == b
}

fn bad_record(alloc: Global, path: &Label, line: u32) -> DbError
    ensures { (result ≡ Memory) ⊎ (result ≡ BadRecord path.now line) }
{
    match path.copy(alloc) {
        Ok(path) => DbError::BadRecord { path, line },
        Err(_) => DbError::Memory,
    }
}
