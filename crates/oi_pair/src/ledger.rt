//! Halves that are plain lists of entries. The crate tries its locks with them.
ghost use Rattle.std.specs.Prelude.{◌≡◌, ◌<◌, true, false, [], ◌∷◌, ◌++◌, IsTrue, IfSome, IfNone, vec_len, vec_capacity};
ghost use Rattle.oi_pair.specs.Lists.{Has};
ghost use Rattle.oi_pair.specs.Views.{HoldsNone, HoldsForward, left_back, left_forward};
ghost use Rattle.oi_pair.specs.Seats.{seated};
ghost use Rattle.oi_pair.specs.Ledgers.{joint_of, IsSameSeat, Carries, IsJoint, IsOwn, left_both};

use crate::{Pair, PairSeat};
use oi_base::Keeps;
use std::collections::LinkedList;
use std::sync::Wait;

/// The entries that a half may keep.
const MOST: usize = 1_000_000;

/// An entry of one half, or a joint one of both.
#[derive(Clone, Copy, Debug, PartialEq, Eq)]
pub struct Mark {
    pub joint: bool,
    pub value: u32,
}

/// A list of entries, each with its number.
#[derive(Drop)]
pub struct Ledger {
    pub entries: Vec<(u64, Mark)>,
}

impl Keeps for Ledger {
    type Entry = Mark;

    type Shared = LinkedList<(u64, Mark)>;

    ghost use Rattle.oi_pair.specs.Ledgers.{joint_of};

    ghost entries = { λ l. l.entries.items };

    ghost shared = { λ l. joint_of l.entries.items };
}

impl Ledger {
    // Makes room for one entry more, and says whether there is some.
    fn make_room(&mut self) -> bool
        ensures same { self.new.entries.items ≡ self.old.entries.items }
        ensures room { result ≡ true → (vec_len self.new.entries < vec_capacity self.new.entries) × (vec_len self.new.entries < 1000000) }
    {
        self.entries.len() < MOST && self.entries.reserve(1).is_ok()
    }

    // Adds an entry.
    fn enter(&mut self, number: u64, mark: Mark)
        requires { vec_len self.old.entries < vec_capacity self.old.entries }
        ensures { self.new.entries.items ≡ self.old.entries.items ++ (number, mark) ∷ [] }
    {
        let Ok(()) = self.entries.push((number, mark)) else {
            unreachable!()
        };
    }
}

// Leaves both halves, to which the same entries were added.
fn leave_both(
    pair: &Pair<Ledger, Ledger>,
    seat: &mut PairSeat<Ledger, Ledger>,
    forward: Ledger,
    back: Ledger,
)
    requires pair { seat.old.pair ≡ pair.now }
    requires holds { (seat.old.knows.forward.holds ≡ true) × (seat.old.knows.back.holds ≡ true) }
    requires joint { IsJoint seat.old.knows forward.entries.items back.entries.items }
    ensures { seat.new ≡ seated seat.old.pair (left_both seat.old.knows forward.entries.items back.entries.items) }
{
    pair.leave_back(seat, back);
    pair.leave_forward(seat, forward);
}

/// Makes a joint entry, and answers its number, or None where there is no room.
#[tactic(auto, using(crate::proofs::Ledgers::has_last, crate::proofs::Ledgers::drop_last))]
pub fn enter_both<R: Wait>(
    rt: &R,
    pair: &Pair<Ledger, Ledger>,
    seat: &mut PairSeat<Ledger, Ledger>,
    value: u32,
) -> Option<u64>
    requires pair { seat.old.pair ≡ pair.now }
    requires rests { HoldsNone seat.old.knows }
    ensures same { IsSameSeat seat.old seat.new }
    ensures entered { IfSome result (λ n. Carries seat.old seat.new n × Has seat.new.knows.forward.seen (n, record { joint = true; value = value }) × Has seat.new.knows.back.seen (n, record { joint = true; value = value })) }
    ensures none { IfNone result (seat.new.knows.numbers ≡ seat.old.knows.numbers) }
{
    let mut forward = pair.take_forward(rt, seat);
    let mut back = pair.take_back_too(rt, seat);
    if !forward.make_room() || !back.make_room() {
        pair.leave_back(seat, back);
        pair.leave_forward(seat, forward);
        return None;
    }
    let number = pair.number(seat);
    let mark = Mark { joint: true, value };
    forward.enter(number, mark);
    back.enter(number, mark);
    leave_both(pair, seat, forward, back);
    Some(number)
}

// Leaves the forward half, which the seat held alone.
fn leave_forward_alone(
    pair: &Pair<Ledger, Ledger>,
    seat: &mut PairSeat<Ledger, Ledger>,
    forward: Ledger,
)
    requires pair { seat.old.pair ≡ pair.now }
    requires holds { HoldsForward seat.old.knows }
    requires own { IsOwn seat.old.knows.told seat.old.knows.forward forward.entries.items × (seat.old.knows.left ≡ []) }
    ensures { seat.new ≡ seated seat.old.pair (left_forward seat.old.knows forward.entries.items) }
{
    pair.leave_forward(seat, forward);
}

/// Makes an entry of the forward half, and answers its number, or None where there is no room.
#[tactic(auto, using(crate::proofs::Ledgers::has_last, crate::proofs::Ledgers::drop_last))]
pub fn enter_forward<R: Wait>(
    rt: &R,
    pair: &Pair<Ledger, Ledger>,
    seat: &mut PairSeat<Ledger, Ledger>,
    value: u32,
) -> Option<u64>
    requires pair { seat.old.pair ≡ pair.now }
    requires rests { HoldsNone seat.old.knows }
    ensures same { IsSameSeat seat.old seat.new }
    ensures entered { IfSome result (λ n. Carries seat.old seat.new n × Has seat.new.knows.forward.seen (n, record { joint = false; value = value })) }
    ensures none { IfNone result (seat.new.knows.numbers ≡ seat.old.knows.numbers) }
{
    let mut forward = pair.take_forward(rt, seat);
    if !forward.make_room() {
        pair.leave_forward(seat, forward);
        return None;
    }
    let number = pair.number(seat);
    forward.enter(
        number,
        Mark {
            joint: false,
            value,
        },
    );
    leave_forward_alone(pair, seat, forward);
    Some(number)
}

// Leaves the back half, which the seat holds alone.
fn leave_back_alone(pair: &Pair<Ledger, Ledger>, seat: &mut PairSeat<Ledger, Ledger>, back: Ledger)
    requires pair { seat.old.pair ≡ pair.now }
    requires holds { (seat.old.knows.forward.holds ≡ false) × (seat.old.knows.back.holds ≡ true) }
    requires own { IsOwn seat.old.knows.told seat.old.knows.back back.entries.items }
    ensures { seat.new ≡ seated seat.old.pair (left_back seat.old.knows back.entries.items (Some (joint_of back.entries.items))) }
{
    pair.leave_back(seat, back);
}

/// Makes an entry of the back half, and answers its number, or None where there is no room.
#[tactic(auto, using(crate::proofs::Ledgers::has_last, crate::proofs::Ledgers::drop_last))]
pub fn enter_back<R: Wait>(
    rt: &R,
    pair: &Pair<Ledger, Ledger>,
    seat: &mut PairSeat<Ledger, Ledger>,
    value: u32,
) -> Option<u64>
    requires pair { seat.old.pair ≡ pair.now }
    requires rests { HoldsNone seat.old.knows }
    ensures same { IsSameSeat seat.old seat.new }
    ensures entered { IfSome result (λ n. Carries seat.old seat.new n × Has seat.new.knows.back.seen (n, record { joint = false; value = value })) }
    ensures none { IfNone result (seat.new.knows.numbers ≡ seat.old.knows.numbers) }
{
    let mut back = pair.take_back(rt, seat);
    if !back.make_room() {
        pair.leave_back(seat, back);
        return None;
    }
    let number = pair.number(seat);
    back.enter(
        number,
        Mark {
            joint: false,
            value,
        },
    );
    leave_back_alone(pair, seat, back);
    Some(number)
}
