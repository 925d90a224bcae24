//! The steps of a seat: what each does to the table, and what the seat knows afterwards.
ghost use Rattle.std.specs.Prelude.{◌≡◌, ℕ, ◌<◌, ◌≤◌, true, [], ◌∷◌, IfSome, MatchOption};
ghost use Rattle.atomic_table.specs.Table.{rest};
ghost use Rattle.oi_pair.specs.Lists.{StartsWith, numbers_of, IsRising};
ghost use Rattle.oi_pair.specs.Views.{took_forward, took_back, took_back_too, kept_out, drew, left_back, left_forward, parted, branch, joined, met, HoldsNone, HoldsForward, MayDraw, IsNext, MayLeaveBack, MayLeaveForward, IsMet, IsBeside};
ghost use Rattle.oi_pair.specs.Seats.{IsPairTable};

use crate::half::Half;
use crate::rule::{
    Draws, LeavesBack, LeavesForward, Meets, PairShared, Parts, TableSeat, TakesBack, TakesBackToo,
    TakesForward, TriesBack,
};
use oi_base::Keeps;

/// The word that is 1 while a seat holds the forward half, and its slot.
const FORWARD: usize = 0;

/// The same of the back half.
const BACK: usize = 1;

/// The counter.
const COUNTER: usize = 2;

// Tries once to take the forward half.
pub fn take_forward<E, X, F: Keeps<Entry = E, Shared = X>, B: Keeps<Entry = E, Shared = X>>(
    table: &PairShared<E, X, F, B>,
    seat: &mut TableSeat<E, X, F, B>,
) -> Option<F>
    requires table { (seat.old.table_id ≡ table.now.table_id) × IsPairTable seat.old.table_id }
    requires seat { (0 < seat.old.me.0.parts) × (seat.old.me.1 ≡ []) × HoldsNone seat.old.me.0 }
    ensures same { (seat.new.table_id ≡ seat.old.table_id) × (seat.new.id ≡ seat.old.id) }
    ensures step { MatchOption result (seat.new.me ≡ seat.old.me) (λ f. seat.new.me ≡ (took_forward seat.old.me.0 (F.entries f) (F.shared f), (0, None) ∷ [])) }
    ensures found { IfSome result (λ f. StartsWith (F.entries f) seat.old.me.0.forward.seen × IsRising (numbers_of (F.entries f))) }
{
    if table.compare_exchange::<TakesForward>(seat, FORWARD, 0, 1) != 0 {
        return None;
    }
    let slot = table.exchange(seat, FORWARD, None);
    let Some(Half::Forward(half)) = slot else {
        unreachable!()
    };
    Some(half)
}

// Tries once to take the back half alone.
pub fn take_back<E, X, F: Keeps<Entry = E, Shared = X>, B: Keeps<Entry = E, Shared = X>>(
    table: &PairShared<E, X, F, B>,
    seat: &mut TableSeat<E, X, F, B>,
) -> Option<B>
    requires table { (seat.old.table_id ≡ table.now.table_id) × IsPairTable seat.old.table_id }
    requires seat { (0 < seat.old.me.0.parts) × (seat.old.me.1 ≡ []) × HoldsNone seat.old.me.0 }
    ensures same { (seat.new.table_id ≡ seat.old.table_id) × (seat.new.id ≡ seat.old.id) }
    ensures step { MatchOption result (seat.new.me ≡ seat.old.me) (λ b. seat.new.me ≡ (took_back seat.old.me.0 (B.entries b) (B.shared b), (1, None) ∷ [])) }
    ensures found { IfSome result (λ b. StartsWith (B.entries b) seat.old.me.0.back.seen × IsRising (numbers_of (B.entries b))) }
{
    if table.compare_exchange::<TakesBack>(seat, BACK, 0, 1) != 0 {
        return None;
    }
    let slot = table.exchange(seat, BACK, None);
    let Some(Half::Back(half)) = slot else {
        unreachable!()
    };
    Some(half)
}

// Tries once to take the back half beside the forward half, for a seat that waits.
pub fn take_back_too<E, X, F: Keeps<Entry = E, Shared = X>, B: Keeps<Entry = E, Shared = X>>(
    table: &PairShared<E, X, F, B>,
    seat: &mut TableSeat<E, X, F, B>,
) -> Option<B>
    requires table { (seat.old.table_id ≡ table.now.table_id) × IsPairTable seat.old.table_id }
    requires seat { (0 < seat.old.me.0.parts) × (seat.old.me.1 ≡ (0, None) ∷ []) × HoldsForward seat.old.me.0 }
    ensures same { (seat.new.table_id ≡ seat.old.table_id) × (seat.new.id ≡ seat.old.id) }
    ensures step { MatchOption result (seat.new.me ≡ seat.old.me) (λ b. seat.new.me ≡ (took_back_too seat.old.me.0 (B.entries b), (1, None) ∷ (0, None) ∷ [])) }
    ensures found { IfSome result (λ b. IsBeside seat.old.me.0 (B.entries b) (B.shared b)) }
{
    if table.compare_exchange::<TakesBackToo>(seat, BACK, 0, 1) != 0 {
        return None;
    }
    let slot = table.exchange(seat, BACK, None);
    let Some(Half::Back(half)) = slot else {
        unreachable!()
    };
    Some(half)
}

// The same for a seat that does not wait. It counts where another seat held the half.
pub fn try_back<E, X, F: Keeps<Entry = E, Shared = X>, B: Keeps<Entry = E, Shared = X>>(
    table: &PairShared<E, X, F, B>,
    seat: &mut TableSeat<E, X, F, B>,
) -> Option<B>
    requires table { (seat.old.table_id ≡ table.now.table_id) × IsPairTable seat.old.table_id }
    requires seat { (0 < seat.old.me.0.parts) × (seat.old.me.1 ≡ (0, None) ∷ []) × HoldsForward seat.old.me.0 }
    ensures same { (seat.new.table_id ≡ seat.old.table_id) × (seat.new.id ≡ seat.old.id) }
    ensures step { MatchOption result (seat.new.me ≡ (kept_out seat.old.me.0, seat.old.me.1)) (λ b. seat.new.me ≡ (took_back_too seat.old.me.0 (B.entries b), (1, None) ∷ (0, None) ∷ [])) }
    ensures found { IfSome result (λ b. IsBeside seat.old.me.0 (B.entries b) (B.shared b)) }
{
    if table.compare_exchange::<TriesBack>(seat, BACK, 0, 1) != 0 {
        return None;
    }
    let slot = table.exchange(seat, BACK, None);
    let Some(Half::Back(half)) = slot else {
        unreachable!()
    };
    Some(half)
}

// Draws the next number.
pub fn draw<E, X, F: Keeps<Entry = E, Shared = X>, B: Keeps<Entry = E, Shared = X>>(
    table: &PairShared<E, X, F, B>,
    seat: &mut TableSeat<E, X, F, B>,
) -> u64
    requires table { (seat.old.table_id ≡ table.now.table_id) × IsPairTable seat.old.table_id }
    requires seat { (0 < seat.old.me.0.parts) × MayDraw seat.old.me.0 }
    ensures same { (seat.new.table_id ≡ seat.old.table_id) × (seat.new.id ≡ seat.old.id) }
    ensures step { seat.new.me ≡ (drew seat.old.me.0 result, seat.old.me.1) }
    ensures next { IsNext seat.old.me.0 result }
{
    table.fetch_add::<Draws>(seat, COUNTER, 1)
}

// Puts the back half back.
pub fn leave_back<E, X, F: Keeps<Entry = E, Shared = X>, B: Keeps<Entry = E, Shared = X>>(
    table: &PairShared<E, X, F, B>,
    seat: &mut TableSeat<E, X, F, B>,
    half: B,
)
    requires table { (seat.old.table_id ≡ table.now.table_id) × IsPairTable seat.old.table_id }
    requires seat { (0 < seat.old.me.0.parts) × (seat.old.me.1 ≡ (1, None) ∷ rest seat.old.me.1) × (seat.old.me.0.back.holds ≡ true) }
    requires half { MayLeaveBack seat.old.me.0 (B.entries half) (B.shared half) }
    ensures same { (seat.new.table_id ≡ seat.old.table_id) × (seat.new.id ≡ seat.old.id) }
    ensures step { seat.new.me ≡ (left_back seat.old.me.0 (B.entries half) (Some (B.shared half)), rest seat.old.me.1) }
{
    let slot = table.exchange(seat, BACK, Some(Half::Back(half)));
    let None = slot else { unreachable!() };
    table.swap::<LeavesBack>(seat, BACK, 0);
}

// Puts the forward half back.
pub fn leave_forward<E, X, F: Keeps<Entry = E, Shared = X>, B: Keeps<Entry = E, Shared = X>>(
    table: &PairShared<E, X, F, B>,
    seat: &mut TableSeat<E, X, F, B>,
    half: F,
)
    requires table { (seat.old.table_id ≡ table.now.table_id) × IsPairTable seat.old.table_id }
    requires seat { (0 < seat.old.me.0.parts) × (seat.old.me.1 ≡ (0, None) ∷ []) × HoldsForward seat.old.me.0 }
    requires half { MayLeaveForward seat.old.me.0 (F.entries half) (F.shared half) }
    ensures same { (seat.new.table_id ≡ seat.old.table_id) × (seat.new.id ≡ seat.old.id) }
    ensures step { seat.new.me ≡ (left_forward seat.old.me.0 (F.entries half), []) }
{
    let slot = table.exchange(seat, FORWARD, Some(Half::Forward(half)));
    let None = slot else { unreachable!() };
    table.swap::<LeavesForward>(seat, FORWARD, 0);
}

// Gives one part to a new seat.
pub fn part<E, X, F: Keeps<Entry = E, Shared = X>, B: Keeps<Entry = E, Shared = X>>(
    table: &PairShared<E, X, F, B>,
    seat: &mut TableSeat<E, X, F, B>,
) -> TableSeat<E, X, F, B>
    requires table { (seat.old.table_id ≡ table.now.table_id) × IsPairTable seat.old.table_id }
    requires seat { (2 ≤ seat.old.me.0.parts) × (seat.old.me.1 ≡ []) × HoldsNone seat.old.me.0 }
    ensures stays { (seat.new.table_id ≡ seat.old.table_id) × (seat.new.me ≡ (parted seat.old.me.0, [])) }
    ensures new { (result.table_id ≡ seat.old.table_id) × (result.me ≡ (branch seat.old.me.0, [])) }
{
    table.split_seat::<Parts>(seat)
}

// Takes another seat in, and looks at what the two know of each other.
pub fn join<E, X, F: Keeps<Entry = E, Shared = X>, B: Keeps<Entry = E, Shared = X>>(
    table: &PairShared<E, X, F, B>,
    seat: &mut TableSeat<E, X, F, B>,
    other: TableSeat<E, X, F, B>,
)
    requires table { (seat.old.table_id ≡ table.now.table_id) × IsPairTable seat.old.table_id }
    requires other_table { other.table_id ≡ table.now.table_id }
    requires seat { (0 < seat.old.me.0.parts) × (seat.old.me.1 ≡ []) × HoldsNone seat.old.me.0 }
    requires other { (other.me.1 ≡ []) × HoldsNone other.me.0 }
    ensures same { seat.new.table_id ≡ seat.old.table_id }
    ensures step { seat.new.me ≡ (met (joined seat.old.me.0 other.me.0), []) }
    ensures met { IsMet (joined seat.old.me.0 other.me.0) }
{
    table.join_seat::<Parts>(seat, other);
    table.load::<Meets>(seat, FORWARD);
}
