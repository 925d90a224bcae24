ghost use Rattle.std.specs.Prelude.{◌≡◌, map};
ghost use Rattle.std.specs.String.{string_bytes};
ghost use Rattle.oi_tool.specs.Answers.{IsAnswer};
ghost use Rattle.oi_tool.specs.Asking.{AreRefused};
ghost use Rattle.oi_tool.specs.Runs.{IsTool};

use crate::asking::read_command;
use crate::ending::{end_done, end_stopped};
use crate::stop::{Stop, stop_of, stop_of_words};
use oi_admin::{AdminFault, apply};
use oi_nodedb::NodeDb;
use oi_outside::{RecordStore, Sink};
use std::alloc::Global;

/// Carries out the words behind `iscsiadm` over the stored records, and answers the status. No session lives.
///
/// The store is not touched before the words are read. After a write that failed nothing more is written. The sink is
/// flushed once.
pub fn run_tool<K: Sink, R: RecordStore>(
    alloc: Global,
    words: &[String],
    sink: &mut K,
    store: &mut R,
) -> u8
    ensures run { IsTool (map (λ s. string_bytes s) words.now) result (R.records store.old) (R.records store.new) (K.held sink.old) (K.held sink.new)
        (R.faults store.old) (R.faults store.new) (K.faults sink.old) (K.faults sink.new) }
    ensures untouched { AreRefused (map (λ s. string_bytes s) words.now) → store.new ≡ store.old }
{
    match carry_out(alloc, words, sink, store) {
        Ok(()) => end_done(sink),
        Err(stop) => end_stopped(alloc, &stop, sink),
    }
}

fn carry_out<K: Sink, R: RecordStore>(
    alloc: Global,
    words: &[String],
    sink: &mut K,
    store: &mut R,
) -> Result<(), Stop>
    ensures answer { IsAnswer (map (λ s. string_bytes s) words.now) result (R.records store.old) (R.records store.new) (K.held sink.old) (K.held sink.new)
        (R.faults store.old) (R.faults store.new) (K.faults sink.old) (K.faults sink.new) }
    ensures untouched { AreRefused (map (λ s. string_bytes s) words.now) → store.new ≡ store.old }
{
    let command = match read_command(alloc, words) {
        Ok(command) => command,
        Err(fault) => return Err(stop_of_words(fault)),
    };
    let mut db = match NodeDb::load(alloc, store) {
        Ok(db) => db,
        Err(fault) => return Err(stop_of(AdminFault::from(fault))),
    };
    match apply(alloc, &command, &mut db, store, &[], sink) {
        Ok(()) => Ok(()),
        Err(fault) => Err(stop_of(fault)),
    }
}
