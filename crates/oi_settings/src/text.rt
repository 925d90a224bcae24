ghost use Rattle.std.specs.Prelude.{◌≡◌, ◌+◌, ◌++◌, ◌↔◌, ℕ, List, IsTrue, IfErr, IfNone, IfOk, IfSome, OnOk};
ghost use Rattle.std.specs.List.{list_all};
ghost use Rattle.oi_base.specs.Counts.{told};
ghost use Rattle.oi_settings.specs.Pairs.{has_name, put, value_of};
ghost use Rattle.oi_settings.specs.Schema.{newest};
ghost use Rattle.oi_settings.specs.Texts.{ArePairs, IsComplete, IsFault, IsFaultBehind, IsStored, begin_line, end_line, is_choice, lines_of, rows_of, stored_by};

use crate::line::{Line, first_line, strip};
use crate::naming::key_of;
use crate::range::{is_yes_or_no, takes};
use crate::record::NodeRecord;
use crate::schema::{Schema, Setting, settings_of};
use crate::settings::Settings;
use oi_base::{Label, NoMemory};
use std::alloc::Global;
use thiserror::Error;

// The setting that the texts of the first schema lack.
const NEWEST: &[u8] = b"node.session.oi.count_disrupted";

/// Why bytes were not read as the text of a record.
#[derive(Clone, Copy, Debug, PartialEq, Eq, Drop, Error)]
pub enum RecordFault {
    /// The first bad line, counted from 1. A missing line is bad where it should stand.
    #[error("line {line} is bad")]
    Bad { line: u32 },
    #[error("out of memory")]
    Memory,
}

/// Reads a record's text of either schema. The record of a text of the first schema has the newest setting too, in its
/// place or as the last one.
pub fn read_text(alloc: Global, bytes: &[u8]) -> Result<NodeRecord, RecordFault>
    ensures ok { IfOk result (λ r. IsStored bytes.now r) }
    ensures fault { IfErr result (λ e. IsFault bytes.now e) }
{
    let Some(start) = begin(bytes) else {
        return Err(RecordFault::Bad { line: 1 });
    };
    let mut settings = match read_lines(alloc, start.schema, start.rest) {
        Ok(settings) => settings,
        Err(fault) => return Err(fault),
    };
    let Ok(()) = migrate(alloc, start.schema, &mut settings) else {
        return Err(RecordFault::Memory);
    };
    match key_of(alloc, &settings) {
        Ok(key) => Ok(NodeRecord::from_parts(key, settings)),
        Err(_) => Err(RecordFault::Memory),
    }
}

// The schema that the first line tells, and what follows it.
#[derive(Clone, Copy)]
struct Start<'a> {
    schema: Schema,
    rest: &'a [u8],
}

fn begin(bytes: &[u8]) -> Option<Start<'_>>
    ensures found { IfSome result (λ s. bytes.now ≡ begin_line s.schema ++ s.rest.now) }
    ensures none { IfNone result ((schema : Schema) (rest : List ℕ) → bytes.now ≡ begin_line schema ++ rest → ⊥) }
{
    if let Some(rest) = strip(bytes, b"# BEGIN RECORD 1\n") {
        return Some(Start {
            schema: Schema::First,
            rest,
        });
    }
    if let Some(rest) = strip(bytes, b"# BEGIN RECORD 2\n") {
        return Some(Start {
            schema: Schema::Second,
            rest,
        });
    }
    None
}

// The pairs of a text behind its first line.
fn read_lines(alloc: Global, schema: Schema, text: &[u8]) -> Result<Settings, RecordFault>
    ensures ok { IfOk result (λ ps. (text.now ≡ lines_of ps ++ end_line) × ArePairs (rows_of schema) ps) }
    ensures fault { IfErr result (λ e. IsFaultBehind schema text.now e) }
{
    let mut read = Settings::new(alloc);
    let mut rest = text;
    let mut line = 2;
    loop {
        if let Some(more) = strip(rest, b"# END RECORD\n") {
            if !is_complete(schema, &read) {
                return Err(RecordFault::Bad { line });
            }
            if !more.is_empty() {
                return Err(RecordFault::Bad {
                    line: next_line(line),
                });
            }
            return Ok(read);
        }
        let Some(next) = first_line(rest) else {
            return Err(RecordFault::Bad { line });
        };
        if read.has(next.name) {
            return Err(RecordFault::Bad { line });
        }
        let Ok(taken) = takes(alloc, settings_of(schema), next.name, next.value) else {
            return Err(RecordFault::Memory);
        };
        if !taken {
            return Err(RecordFault::Bad { line });
        }
        let Ok(()) = keep(alloc, next, &mut read) else {
            return Err(RecordFault::Memory);
        };
        rest = next.more;
        line = next_line(line);
    }
}

// The number of the line behind this one, as a fault tells it.
fn next_line(line: u32) -> u32
    ensures { result ≡ told (line + 1) }
{
    line.saturating_add(1)
}

fn is_complete(schema: Schema, read: &Settings) -> bool
    ensures { IsTrue result ↔ IsComplete (rows_of schema) read.now }
{
    has_all(settings_of(schema), read)
}

fn has_all(settings: &[Setting], read: &Settings) -> bool
    ensures { result ≡ list_all (λ s. has_name s.name.now read.now) settings.now }
{
    settings.iter().all(|setting| read.has(setting.name))
}

fn keep(alloc: Global, line: Line<'_>, read: &mut Settings) -> Result<(), NoMemory>
    ensures { OnOk result (read.new ≡ put line.entry.name.now line.entry.value.now read.old) }
{
    let name = Vec::from_slice(alloc, line.name)?;
    read.put(name, Label::from_slice(alloc, line.value)?)
}

// Gives the pairs of a text of the first schema the newest setting.
fn migrate(alloc: Global, schema: Schema, settings: &mut Settings) -> Result<(), NoMemory>
    ensures { OnOk result (settings.new ≡ stored_by schema settings.old) }
{
    match schema {
        Schema::First => add_newest(alloc, settings),
        Schema::Second => Ok(()),
    }
}

fn add_newest(alloc: Global, settings: &mut Settings) -> Result<(), NoMemory>
    ensures { OnOk result (settings.new ≡ stored_by Schema.First settings.old) }
{
    if has_choice(settings) {
        return Ok(());
    }
    let name = Vec::from_slice(alloc, NEWEST)?;
    settings.put(name, Label::from_slice(alloc, b"Yes")?)
}

fn has_choice(settings: &Settings) -> bool
    ensures { result ≡ is_choice (value_of newest.name settings.now) }
{
    match settings.value(NEWEST) {
        Some(value) => is_yes_or_no(value.as_slice()),
        None => false,
    }
}
