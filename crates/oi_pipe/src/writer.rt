ghost use Rattle.std.specs.Prelude.{◌≡◌, ◌<◌, false, true, length};
ghost use Rattle.oi_pipe.specs.Turns.{IsWritten};

use crate::rule::{PipeSeat, PipeTable};
use crate::steps;
use crate::steps::{enter, leave_full, leave_written};
use crate::turn::PipeTurn;
use std::alloc::Global;
use std::marker::Model;
use std::sync::Arc;

/// The half of a pipe that puts bytes in.
#[derive(Drop)]
pub struct PipeWriter {
    pub(crate) table: Arc<PipeTable, Global>,
    pub(crate) seat: PipeSeat,
}

impl Model for PipeWriter {
    ghost use Rattle.std.specs.Prelude.{◌≡◌};
    ghost use Rattle.std.specs.Arc.{arc_value};
    ghost use Rattle.oi_pipe.specs.Turns.{Writer};
    ghost use Rattle.oi_pipe.specs.Halves.{writer_of};
    ghost use Rattle.oi_pipe.specs.Views.{IsWriting};

    ghost Value = { Writer };

    ghost view = { λ w. writer_of w.seat.table_id w.seat.me.0 };

    ghost invariant = { λ w. (w.seat.table_id ≡ (arc_value w.table).shared.table_id) × IsWriting w.seat.table_id w.seat.me };
}

impl PipeWriter {
    /// Moves the first bytes of `piece` into the pipe, as many as there is room for, and waits for nothing.
    #[tactic(auto, using(crate::proofs::Fronts::drop_front))]
    pub fn write(&mut self, piece: &[u8]) -> PipeTurn
        requires piece { 0 < length piece.now }
        requires open { self.old.closed ≡ false }
        ensures same { (self.new.pipe ≡ self.old.pipe) × (self.new.room ≡ self.old.room) × (self.new.closed ≡ false) }
        ensures turn { IsWritten self.old self.new piece.now result }
    {
        let table = &self.table.shared;
        let Some(mut store) = enter(table, &mut self.seat) else {
            return PipeTurn::NotYet;
        };
        if store.is_full() {
            leave_full(table, &mut self.seat, store);
            return PipeTurn::NotYet;
        }
        let count = store.fill_from_slice(piece);
        leave_written(table, &mut self.seat, store);
        PipeTurn::Moved(count)
    }

    /// Closes the pipe for writing. What it holds can still be read. A second call changes nothing.
    pub fn close(&mut self)
        ensures { self.new ≡ record self.old { closed = true } }
    {
        steps::close(&self.table.shared, &mut self.seat);
    }
}
