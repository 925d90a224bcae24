ghost use Rattle.std.specs.Prelude.{◌≡◌, ◌++◌, IfOk, OnOk};
ghost use Rattle.oi_admin.specs.declared.fault.AdminFault.TheVariants.{Db};
ghost use Rattle.oi_tool.specs.Outcomes.{bad_record, fault_text};
ghost use Rattle.oi_tool.specs.Stops.{failed_status, status_of, stop_of, stop_of_words, stop_text};

use oi_admin::AdminFault;
use oi_base::{Label, NoMemory, write_number};
use oi_nodedb::DbError;
use oi_words::WordsFault;
use std::alloc::Global;

/// Why the tool stopped.
#[derive(Debug, Drop)]
pub enum Stop {
    /// The words are none that the tool carries out by itself.
    Words,
    /// The stored text at the path is bad from this line on.
    Unreadable { path: Label, line: u32 },
    /// Nothing matches.
    Nothing,
    /// A session of a record lives.
    InUse,
    Store,
    Sink,
    Memory,
}

pub fn stop_of_words(fault: WordsFault) -> Stop
    ensures { result ≡ stop_of_words fault }
{
    match fault {
        WordsFault::Invalid => Stop::Words,
        WordsFault::Memory => Stop::Memory,
    }
}

pub fn stop_of(fault: AdminFault) -> Stop
    ensures { result ≡ stop_of fault }
{
    match fault {
        AdminFault::Db(fault) => stop_of_database(fault),
        AdminFault::Write => Stop::Sink,
        AdminFault::Memory => Stop::Memory,
    }
}

fn stop_of_database(fault: DbError) -> Stop
    ensures { result ≡ stop_of (Db fault) }
{
    match fault {
        DbError::BadName { name: _ } => Stop::Words,
        DbError::BadValue { name: _ } => Stop::Words,
        DbError::BadRecord { path, line } => Stop::Unreadable { path, line },
        DbError::NoObjects => Stop::Nothing,
        DbError::InUse { sid: _ } => Stop::InUse,
        DbError::StoreFault => Stop::Store,
        DbError::Memory => Stop::Memory,
    }
}

pub fn status_of(stop: &Stop) -> u8
    ensures { result ≡ status_of stop.now }
{
    match stop {
        Stop::Words => 7,
        Stop::Unreadable { path: _, line: _ } => 32,
        Stop::Nothing => 21,
        Stop::InUse => 15,
        Stop::Store => 6,
        Stop::Sink => 31,
        Stop::Memory => 3,
    }
}

/// The status where the sink failed besides: that of the sink, in place of one that is not fatal.
pub fn failed_status(stop: &Stop) -> u8
    ensures { result ≡ failed_status stop.now }
{
    match stop {
        Stop::Nothing | Stop::InUse => 31,
        other => status_of(other),
    }
}

/// The last text.
pub fn stop_text(alloc: Global, stop: &Stop) -> Result<Vec<u8>, NoMemory>
    ensures { IfOk result (λ t. t.items ≡ stop_text stop.now) }
{
    let mut text = Vec::new(alloc);
    match stop {
        Stop::Unreadable { path, line } => append_bad_record(path, *line, &mut text)?,
        Stop::Sink => {}
        other => append_fault(status_of(other), &mut text)?,
    }
    Ok(text)
}

fn append_bad_record(path: &Label, line: u32, out: &mut Vec<u8>) -> Result<(), NoMemory>
    ensures { OnOk result (out.new.items ≡ out.old.items ++ (bad_record path.now line).text) }
{
    out.extend_from_slice(b"fault 32 ")?;
    out.extend_from_slice(path.as_slice())?;
    out.push(b' ')?;
    write_number(line as u64, out)?;
    out.push(b'\n')?;
    Ok(())
}

fn append_fault(status: u8, out: &mut Vec<u8>) -> Result<(), NoMemory>
    ensures { OnOk result (out.new.items ≡ out.old.items ++ fault_text status) }
{
    out.extend_from_slice(b"fault ")?;
    write_number(status as u64, out)?;
    out.extend_from_slice(b" 0\n")?;
    Ok(())
}
