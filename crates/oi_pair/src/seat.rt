ghost use Rattle.std.specs.Prelude.{◌≡◌};

use crate::rule::TableSeat;
use oi_base::Keeps;
use std::marker::Model;

/// A right to work with a pair, which one thread has at a time. It says in proofs which pair it is of and what it knows
/// of it, and takes no memory.
#[derive(Drop)]
pub struct PairSeat<F: Keeps, B: Keeps<Entry = F::Entry, Shared = F::Shared>> {
    pub(crate) seat: TableSeat<F::Entry, F::Shared, F, B>,
    pub(crate) parts: u32,
}

impl<F: Keeps, B: Keeps<Entry = F::Entry, Shared = F::Shared>> Model for PairSeat<F, B> {
    ghost use Rattle.std.specs.Prelude.{◌≡◌};
    ghost use Rattle.oi_pair.specs.Seats.{Seated, seated, IsReady};

    ghost Value = { Seated F.Entry F.Shared };

    ghost view = { λ s. seated s.seat.table_id s.seat.me.0 };

    ghost invariant = { λ s. (s.parts ≡ s.seat.me.0.parts) × IsReady s.seat.me };
}

impl<F: Keeps, B: Keeps<Entry = F::Entry, Shared = F::Shared>> PairSeat<F, B> {
    /// How many of a pair's 65,536 parts the seat has.
    pub fn parts(&self) -> u32
        ensures { result ≡ self.now.knows.parts }
    {
        self.parts
    }
}
