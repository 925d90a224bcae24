ghost use Rattle.std.specs.Prelude.{◌≡◌, ◌<◌, true, [], length};
ghost use Rattle.oi_pipe.specs.Turns.{IsRead};
ghost use Rattle.oi_pipe.specs.Halves.{IsEmptyTurn};
ghost use Rattle.oi_pipe.specs.Views.{IsInside};

use crate::rule::{PipeSeat, PipeShared, PipeTable, Store};
use crate::steps::{enter, leave, leave_read, look};
use crate::turn::PipeTurn;
use std::alloc::Global;
use std::marker::Model;
use std::sync::Arc;

/// The half of a pipe that takes bytes out.
#[derive(Drop)]
pub struct PipeReader {
    pub(crate) table: Arc<PipeTable, Global>,
    pub(crate) seat: PipeSeat,
}

impl Model for PipeReader {
    ghost use Rattle.std.specs.Prelude.{◌≡◌};
    ghost use Rattle.std.specs.Arc.{arc_value};
    ghost use Rattle.oi_pipe.specs.Turns.{Reader};
    ghost use Rattle.oi_pipe.specs.Halves.{reader_of};
    ghost use Rattle.oi_pipe.specs.Views.{IsReading};

    ghost Value = { Reader };

    ghost view = { λ r. reader_of r.seat.table_id r.seat.me.0 };

    ghost invariant = { λ r. (r.seat.table_id ≡ (arc_value r.table).shared.table_id) × IsReading r.seat.table_id r.seat.me };
}

impl PipeReader {
    /// Moves the first bytes of the pipe into `buf`, as many as it holds, and waits for nothing. Past the moved bytes
    /// `buf` stays as it was.
    pub fn read(&mut self, buf: &mut [u8]) -> PipeTurn
        requires { 0 < length buf.old }
        ensures same { (self.new.pipe ≡ self.old.pipe) × (self.new.room ≡ self.old.room) }
        ensures turn { IsRead self.old self.new buf.old buf.new result }
    {
        let table = &self.table.shared;
        let Some(mut store) = enter(table, &mut self.seat) else {
            return PipeTurn::NotYet;
        };
        if store.is_empty() {
            return find_empty(table, &mut self.seat, store);
        }
        let count = store.read_into(buf);
        leave_read(table, &mut self.seat, store);
        PipeTurn::Moved(count)
    }
}

// A reader that has found the pipe empty looks whether it is closed, and leaves.
fn find_empty(table: &PipeShared, seat: &mut PipeSeat, store: Store) -> PipeTurn
    requires table { seat.old.table_id ≡ table.now.table_id }
    requires inside { IsInside seat.old.table_id seat.old.me }
    requires empty { (seat.old.me.0.reads ≡ true) × (seat.old.me.0.content ≡ []) }
    requires store { (store.items ≡ []) × (store.capacity ≡ seat.old.me.0.room) }
    ensures same { (seat.new.table_id ≡ seat.old.table_id) × (seat.new.id ≡ seat.old.id) }
    ensures step { IsEmptyTurn seat.old.me.0 seat.new.me result }
{
    let closed = look(table, seat);
    leave(table, seat, store);
    if closed {
        PipeTurn::End
    } else {
        PipeTurn::NotYet
    }
}
