ghost use Rattle.std.specs.Prelude.{◌≡◌, ℕ, false, List, IfOk, length};
ghost use Rattle.oi_nodedb.specs.Filters.{matching};
ghost use Rattle.oi_admin.specs.Applies.{Applies, IsSinkCounted, IsStoreCounted, Makes, Prints, answer_of, needs_daemon};
ghost use Rattle.oi_admin.specs.Listings.{list_text, session_text, show_text};

use crate::command::AdminCommand;
use crate::fault::AdminFault;
use crate::listing::{list_text, session_text, show_text};
use oi_base::NoMemory;
use oi_names::SessionInfo;
use oi_nodedb::{DbError, Filter, NodeDb};
use oi_outside::{RecordStore, Sink, write_all};
use oi_settings::RecordKey;
use std::alloc::Global;

/// Carries a command out. It is none that discovers, logs in or logs out.
///
/// # Errors
///
/// `Db` as the database says, and with `NoObjects` where there is nothing to list. `Write` where the sink failed: a front
/// of the text was taken.
pub fn apply<K: Sink, R: RecordStore>(
    alloc: Global,
    command: &AdminCommand,
    db: &mut NodeDb,
    store: &mut R,
    living: &[SessionInfo],
    sink: &mut K,
) -> Result<(), AdminFault>
    requires { needs_daemon command.now ≡ false }
    ensures applies { Applies command.now living.now result db.old db.new (R.records store.old) (R.records store.new) (K.held sink.old) (K.held sink.new) }
    ensures store { IsStoreCounted result (R.faults store.old) (R.faults store.new) }
    ensures sink { IsSinkCounted result (K.faults sink.old) (K.faults sink.new) }
{
    match command {
        AdminCommand::List { filter } => list(alloc, db, filter, sink),
        AdminCommand::Show { filter } => show(alloc, db, filter, sink),
        AdminCommand::Update {
            filter,
            name,
            value,
        } => told(db.update_bytes(store, filter, name.as_slice(), value.as_slice())),
        AdminCommand::Delete { filter } => told(db.delete(store, filter, living)),
        AdminCommand::New { key } => make(alloc, db, store, key),
        AdminCommand::Sessions => sessions(alloc, living, sink),
        AdminCommand::Discover { portal: _ } => unreachable!(),
        AdminCommand::Login { filter: _ } => unreachable!(),
        AdminCommand::Logout { filter: _ } => unreachable!(),
    }
}

// Prints a line for each record that the filter means.
fn list<K: Sink>(
    alloc: Global,
    db: &NodeDb,
    filter: &Filter,
    sink: &mut K,
) -> Result<(), AdminFault>
    ensures prints { Prints (length (matching filter.now db.now)) (list_text (matching filter.now db.now)) result (K.held sink.old) (K.held sink.new) }
    ensures sink { IsSinkCounted result (K.faults sink.old) (K.faults sink.new) }
    ensures store { (n : ℕ) → IsStoreCounted result n n }
{
    let text = list_text(alloc, db.records(), filter);
    print(count(db, filter), text, sink)
}

// Prints the settings of each record that the filter means.
fn show<K: Sink>(
    alloc: Global,
    db: &NodeDb,
    filter: &Filter,
    sink: &mut K,
) -> Result<(), AdminFault>
    ensures prints { Prints (length (matching filter.now db.now)) (show_text (matching filter.now db.now)) result (K.held sink.old) (K.held sink.new) }
    ensures sink { IsSinkCounted result (K.faults sink.old) (K.faults sink.new) }
    ensures store { (n : ℕ) → IsStoreCounted result n n }
{
    let text = show_text(alloc, db.records(), filter);
    print(count(db, filter), text, sink)
}

// Prints a line for each living session.
fn sessions<K: Sink>(alloc: Global, living: &[SessionInfo], sink: &mut K) -> Result<(), AdminFault>
    ensures prints { Prints (length living.now) (session_text living.now) result (K.held sink.old) (K.held sink.new) }
    ensures sink { IsSinkCounted result (K.faults sink.old) (K.faults sink.new) }
    ensures store { (n : ℕ) → IsStoreCounted result n n }
{
    let text = session_text(alloc, living);
    print(living.len(), text, sink)
}

// Prints the text of so many entries, of which there has to be one.
fn print<K: Sink>(
    entries: usize,
    text: Result<Vec<u8>, NoMemory>,
    sink: &mut K,
) -> Result<(), AdminFault>
    ensures prints { (wanted : List ℕ) → IfOk text (λ t. t.items ≡ wanted) → Prints entries wanted result (K.held sink.old) (K.held sink.new) }
    ensures sink { IsSinkCounted result (K.faults sink.old) (K.faults sink.new) }
    ensures store { (n : ℕ) → IsStoreCounted result n n }
{
    if entries == 0 {
        return Err(AdminFault::Db(DbError::NoObjects));
    }
    let Ok(text) = text else {
        return Err(AdminFault::Memory);
    };
    match write_all(sink, &text) {
        Ok(()) => Ok(()),
        Err(_) => Err(AdminFault::Write),
    }
}

// How many records the filter means.
fn count(db: &NodeDb, filter: &Filter) -> usize
    ensures { result ≡ length (matching filter.now db.now) }
{
    db.records()
        .iter()
        .filter(|record| filter.matches(record.key()))
        .count()
}

// Makes the record of a copy of the key.
fn make<R: RecordStore>(
    alloc: Global,
    db: &mut NodeDb,
    store: &mut R,
    key: &RecordKey,
) -> Result<(), AdminFault>
    ensures makes { Makes key.now result db.old db.new (R.records store.old) (R.records store.new) }
    ensures store { IsStoreCounted result (R.faults store.old) (R.faults store.new) }
    ensures sink { (n : ℕ) → IsSinkCounted result n n }
{
    match key.copy(alloc) {
        Ok(key) => told(db.new_record(store, key)),
        Err(_) => Err(AdminFault::Memory),
    }
}

// The answer that an answer of the database gives.
fn told<T: Drop>(answer: Result<T, DbError>) -> Result<(), AdminFault>
    ensures { result ≡ answer_of answer }
{
    match answer {
        Ok(_) => Ok(()),
        Err(fault) => Err(AdminFault::from(fault)),
    }
}
