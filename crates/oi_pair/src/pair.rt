ghost use Rattle.std.specs.Prelude.{◌≡◌, ℕ, ◌<◌, ◌≤◌, ◌+◌, true, false, [], ◌∷◌, Some, IfOk, IfErr, IfSome, MatchOption};
ghost use Rattle.oi_pair.specs.Limits.{all_parts};
ghost use Rattle.oi_pair.specs.Lists.{StartsWith, numbers_of, IsRising};
ghost use Rattle.oi_pair.specs.Views.{opened, took_forward, took_back, took_back_too, kept_out, drew, left_back, left_forward, parted, branch, joined, met, HoldsNone, HoldsForward, MayDraw, IsNext, MayLeaveBack, MayLeaveForward, IsMet, IsBeside, IsWhole};
ghost use Rattle.oi_pair.specs.Seats.{seated};

use crate::half::{back_of, both_halves, both_slots, forward_of};
use crate::rule::PairTable;
use crate::seat::PairSeat;
use crate::steps;
use atomic_table::Refused;
use oi_base::{Keeps, NoMemory};
use std::alloc::Global;
use std::marker::Model;
use std::sync::Wait;
use std::thread;

/// The parts that the seats of a pair have together.
const ALL_PARTS: u32 = 65_536;

/// Two values, each behind a lock of its own, and one counter that numbers the entries of both. Calls take a seat of
/// the pair.
#[derive(Drop)]
pub struct Pair<F: Keeps, B: Keeps<Entry = F::Entry, Shared = F::Shared>> {
    table: PairTable<F::Entry, F::Shared, F, B>,
}

impl<F: Keeps, B: Keeps<Entry = F::Entry, Shared = F::Shared>> Model for Pair<F, B> {
    ghost use Rattle.atomic_table.specs.Seated.{TableId, table_id_coded};
    ghost use Rattle.oi_pair.specs.Seats.{IsPairTable};

    ghost Value = { TableId };

    ghost coded = { table_id_coded };

    ghost view = { λ p. p.table.shared.table_id };

    ghost invariant = { λ p. IsPairTable p.table.shared.table_id };
}

impl<F: Keeps, B: Keeps<Entry = F::Entry, Shared = F::Shared>> Pair<F, B> {
    /// A pair of two halves that keep no entry, and its first seat, which has all parts. It takes all the memory that the
    /// pair will ever take.
    pub fn new(
        alloc: Global,
        forward: F,
        back: B,
    ) -> Result<(Pair<F, B>, PairSeat<F, B>), (NoMemory, F, B)>
        requires empty { (F.entries forward ≡ []) × (B.entries back ≡ []) }
        requires shared { F.shared forward ≡ B.shared back }
        ensures made { IfOk result (λ made. made.1 ≡ seated made.0 opened) }
        ensures refused { IfErr result (λ refused. (refused.1 ≡ forward) × (refused.2 ≡ back)) }
    {
        let slots = match both_slots(alloc, forward, back) {
            Ok(slots) => slots,
            Err((forward, back)) => return Err((NoMemory, forward, back)),
        };
        match PairTable::new(alloc, &[0, 0, 0], slots, &()) {
            Ok((table, seat)) => Ok((
                Pair { table },
                PairSeat {
                    seat,
                    parts: ALL_PARTS,
                },
            )),
            Err(refused) => {
                let Refused { slots } = refused;
                let (forward, back) = both_halves(slots);
                Err((NoMemory, forward, back))
            }
        }
    }

    /// Takes the forward half, once no other seat holds it. It yields to other threads between two tries.
    pub fn take_forward<R: Wait>(&self, rt: &R, seat: &mut PairSeat<F, B>) -> F
        requires pair { seat.old.pair ≡ self.now }
        requires rests { HoldsNone seat.old.knows }
        ensures seat { seat.new ≡ seated seat.old.pair (took_forward seat.old.knows (F.entries result) (F.shared result)) }
        ensures seen { StartsWith (F.entries result) seat.old.knows.forward.seen }
        ensures rising { IsRising (numbers_of (F.entries result)) }
    {
        for _ in rt.forever() {
            if let Some(half) = steps::take_forward(&self.table.shared, &mut seat.seat) {
                return half;
            }
            thread::yield_now();
        }
        unreachable!()
    }

    /// Takes the back half alone, once no other seat holds it.
    pub fn take_back<R: Wait>(&self, rt: &R, seat: &mut PairSeat<F, B>) -> B
        requires pair { seat.old.pair ≡ self.now }
        requires rests { HoldsNone seat.old.knows }
        ensures seat { seat.new ≡ seated seat.old.pair (took_back seat.old.knows (B.entries result) (B.shared result)) }
        ensures seen { StartsWith (B.entries result) seat.old.knows.back.seen }
        ensures rising { IsRising (numbers_of (B.entries result)) }
    {
        for _ in rt.forever() {
            if let Some(half) = steps::take_back(&self.table.shared, &mut seat.seat) {
                return half;
            }
            thread::yield_now();
        }
        unreachable!()
    }

    /// Takes the back half beside the forward half, once no other seat holds it.
    pub fn take_back_too<R: Wait>(&self, rt: &R, seat: &mut PairSeat<F, B>) -> B
        requires pair { seat.old.pair ≡ self.now }
        requires holds { HoldsForward seat.old.knows }
        ensures seat { seat.new ≡ seated seat.old.pair (took_back_too seat.old.knows (B.entries result)) }
        ensures half { IsBeside seat.old.knows (B.entries result) (B.shared result) }
    {
        for _ in rt.forever() {
            if let Some(half) = steps::take_back_too(&self.table.shared, &mut seat.seat) {
                return half;
            }
            thread::yield_now();
        }
        unreachable!()
    }

    /// Takes the back half beside the forward half, or answers None where another seat holds it just then. It waits for
    /// nothing.
    pub fn try_take_back(&self, seat: &mut PairSeat<F, B>) -> Option<B>
        requires pair { seat.old.pair ≡ self.now }
        requires holds { HoldsForward seat.old.knows }
        ensures seat { MatchOption result (seat.new ≡ seated seat.old.pair (kept_out seat.old.knows)) (λ half. seat.new ≡ seated seat.old.pair (took_back_too seat.old.knows (B.entries half))) }
        ensures half { IfSome result (λ half. IsBeside seat.old.knows (B.entries half) (B.shared half)) }
    {
        steps::try_back(&self.table.shared, &mut seat.seat)
    }

    /// Draws the next number. Numbers begin at 0, and each is drawn once.
    pub fn number(&self, seat: &mut PairSeat<F, B>) -> u64
        requires pair { seat.old.pair ≡ self.now }
        requires room { MayDraw seat.old.knows }
        ensures seat { seat.new ≡ seated seat.old.pair (drew seat.old.knows result) }
        ensures next { IsNext seat.old.knows result }
    {
        steps::draw(&self.table.shared, &mut seat.seat)
    }

    /// Puts the back half back, for others to take.
    pub fn leave_back(&self, seat: &mut PairSeat<F, B>, half: B)
        requires pair { seat.old.pair ≡ self.now }
        requires holds { seat.old.knows.back.holds ≡ true }
        requires half { MayLeaveBack seat.old.knows (B.entries half) (B.shared half) }
        ensures { seat.new ≡ seated seat.old.pair (left_back seat.old.knows (B.entries half) (Some (B.shared half))) }
    {
        steps::leave_back(&self.table.shared, &mut seat.seat, half);
    }

    /// Puts the forward half back, for others to take.
    pub fn leave_forward(&self, seat: &mut PairSeat<F, B>, half: F)
        requires pair { seat.old.pair ≡ self.now }
        requires holds { HoldsForward seat.old.knows }
        requires half { MayLeaveForward seat.old.knows (F.entries half) (F.shared half) }
        ensures { seat.new ≡ seated seat.old.pair (left_forward seat.old.knows (F.entries half)) }
    {
        steps::leave_forward(&self.table.shared, &mut seat.seat, half);
    }

    /// Gives one part of a seat to a new seat.
    pub fn split(&self, seat: &mut PairSeat<F, B>) -> PairSeat<F, B>
        requires pair { seat.old.pair ≡ self.now }
        requires rests { HoldsNone seat.old.knows }
        requires parts { 2 ≤ seat.old.knows.parts }
        ensures stays { seat.new ≡ seated seat.old.pair (parted seat.old.knows) }
        ensures new { result ≡ seated seat.old.pair (branch seat.old.knows) }
    {
        let other = steps::part(&self.table.shared, &mut seat.seat);
        seat.parts -= 1;
        PairSeat {
            seat: other,
            parts: 1,
        }
    }

    /// Takes another seat of the pair in, with its parts and the numbers that it carries.
    pub fn join(&self, seat: &mut PairSeat<F, B>, other: PairSeat<F, B>)
        requires pair { (seat.old.pair ≡ self.now) × (other.pair ≡ self.now) }
        requires rests { HoldsNone seat.old.knows × HoldsNone other.knows }
        ensures seat { seat.new ≡ seated seat.old.pair (met (joined seat.old.knows other.knows)) }
        ensures met { IsMet (joined seat.old.knows other.knows) }
    {
        let PairSeat { seat: other, parts } = other;
        steps::join(&self.table.shared, &mut seat.seat, other);
        seat.parts += parts;
    }

    /// Takes a pair apart, by a seat that has all its parts.
    pub fn close(self, seat: PairSeat<F, B>) -> (F, B)
        requires pair { seat.pair ≡ self }
        requires parts { seat.knows.parts ≡ all_parts }
        requires rests { HoldsNone seat.knows }
        ensures shared { F.shared result.0 ≡ B.shared result.1 }
        ensures whole { IsWhole seat.knows.numbers (F.entries result.0) (B.entries result.1) }
        ensures seen { StartsWith (F.entries result.0) seat.knows.forward.seen × StartsWith (B.entries result.1) seat.knows.back.seen }
        ensures rising { IsRising (numbers_of (F.entries result.0)) × IsRising (numbers_of (B.entries result.1)) }
    {
        let Pair { table } = self;
        let PairSeat { seat, parts: _ } = seat;
        let mut closed = table.close_with(seat);
        let forward = closed.take(0);
        let back = closed.take(1);
        closed.free();
        (forward_of(forward), back_of(back))
    }
}
