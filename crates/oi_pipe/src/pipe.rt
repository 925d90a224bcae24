ghost use Rattle.std.specs.Prelude.{◌≡◌, ℕ, ◌≤◌, true, List, ◌++◌, length, IfOk};
ghost use Rattle.oi_pipe.specs.Turns.{new_reader, new_writer};

use crate::reader::PipeReader;
use crate::rule::{PipeSeat, PipeTable, Store};
use crate::steps;
use crate::writer::PipeWriter;
use oi_base::NoMemory;
use std::alloc::Global;
use std::marker::Model;
use std::sync::Arc;

/// Where the two halves of a pipe have met. It takes no memory.
#[derive(Drop)]
pub struct PipeEnds {
    seat: PipeSeat,
}

impl Model for PipeEnds {
    ghost use Rattle.oi_pipe.specs.Turns.{Ends};
    ghost use Rattle.oi_pipe.specs.Halves.{ends_of, IsFront};

    ghost Value = { Ends };

    ghost view = { λ e. ends_of e.seat.me.0 };

    ghost invariant = { λ e. IsFront e.seat.me.0 };
}

/// A pipe with room for `room` bytes, and all the memory that it will ever take.
pub fn new_pipe(alloc: Global, room: u32) -> Result<(PipeReader, PipeWriter), NoMemory>
    requires { (1 ≤ room) × (room ≤ 1048576) }
    ensures { IfOk result (λ halves. (halves.0 ≡ new_reader halves.0.pipe room) × (halves.1 ≡ new_writer halves.0.pipe room)) }
{
    let store = Store::with_capacity(alloc, room as usize)?;
    let mut slots = Vec::with_capacity(alloc, 1)?;
    slots.push(Some(store))?;
    let Ok((table, mut seat)) = PipeTable::new(alloc, &[0, 0], slots, &room) else {
        return Err(NoMemory);
    };
    let table = Arc::new(alloc, table)?;
    let shared = Arc::try_clone(&table)?;
    let writer = steps::part(&table.shared, &mut seat);
    Ok((
        PipeReader { table, seat },
        PipeWriter {
            table: shared,
            seat: writer,
        },
    ))
}

/// Brings the halves of a pipe together again, and gives its memory back.
pub fn meet(reader: PipeReader, writer: PipeWriter) -> PipeEnds
    requires { reader.pipe ≡ writer.pipe }
    ensures lists { (result.taken ≡ reader.taken) × (result.given ≡ writer.given) }
    ensures whole { (inside : List ℕ) × (writer.given ≡ reader.taken ++ inside) × (length inside ≤ reader.room) }
    ensures end { reader.ended ≡ true → (writer.closed ≡ true) × (reader.taken ≡ writer.given) }
{
    let PipeReader { table, mut seat } = reader;
    let PipeWriter {
        table: _,
        seat: other,
    } = writer;
    steps::join(&table.shared, &mut seat, other);
    PipeEnds { seat }
}
