//! The table of a pair: its rule, and what each kind of step tells.
use crate::half::Half;
use crate::view::View;
use atomic_table::{Join, Play, Seat, Shared, Split, Table, TableRule};
use oi_base::Keeps;
use std::alloc::Global;

pub type TableSeat<E, X, F, B> = Seat<Option<Half<F, B>>, View<E, X>>;

pub type PairTable<E, X, F, B> = Table<Option<Half<F, B>>, View<E, X>, (), PairRule, Global>;

pub type PairShared<E, X, F, B> = Shared<Option<Half<F, B>>, View<E, X>, (), PairRule>;

/// Words 0 and 1 are 1 while a seat holds the forward half and the back half, and word 2 is the counter. Slots 0 and 1
/// have the halves.
pub struct PairRule;

impl<E, X, F: Keeps<Entry = E, Shared = X>, B: Keeps<Entry = E, Shared = X>> TableRule<
    Option<Half<F, B>>,
    View<E, X>,
    (),
> for PairRule {
    ghost use Rattle.oi_pair.specs.Views.{opened};
    ghost use Rattle.oi_pair.specs.Kept.{Kept};

    ghost holds = { λ _. Kept F.entries F.shared B.entries B.shared };

    ghost first = { λ _. opened };
}

pub struct TakesForward;

impl<E, X, F: Keeps<Entry = E, Shared = X>, B> Play<Option<Half<F, B>>, View<E, X>>
    for TakesForward {
    ghost use Rattle.oi_pair.specs.Kept.{TakesForward};

    ghost then = { TakesForward F.entries F.shared };
}

pub struct TakesBack;

impl<E, X, F, B: Keeps<Entry = E, Shared = X>> Play<Option<Half<F, B>>, View<E, X>> for TakesBack {
    ghost use Rattle.oi_pair.specs.Kept.{TakesBack};

    ghost then = { TakesBack B.entries B.shared };
}

pub struct TakesBackToo;

impl<E, X, F, B: Keeps<Entry = E, Shared = X>> Play<Option<Half<F, B>>, View<E, X>>
    for TakesBackToo {
    ghost use Rattle.oi_pair.specs.Kept.{TakesBackToo};

    ghost then = { TakesBackToo B.entries B.shared };
}

pub struct TriesBack;

impl<E, X, F, B: Keeps<Entry = E, Shared = X>> Play<Option<Half<F, B>>, View<E, X>> for TriesBack {
    ghost use Rattle.oi_pair.specs.Kept.{TriesBack};

    ghost then = { TriesBack B.entries B.shared };
}

pub struct Draws;

impl<E, X, F, B> Play<Option<Half<F, B>>, View<E, X>> for Draws {
    ghost use Rattle.oi_pair.specs.Kept.{Draws};

    ghost then = { Draws };
}

pub struct LeavesBack;

impl<E, X, F: Keeps<Entry = E, Shared = X>, B: Keeps<Entry = E, Shared = X>> Play<
    Option<Half<F, B>>,
    View<E, X>,
> for LeavesBack {
    ghost use Rattle.oi_pair.specs.Kept.{LeavesBack};

    ghost then = { LeavesBack F.entries B.entries B.shared };
}

pub struct LeavesForward;

impl<E, X, F: Keeps<Entry = E, Shared = X>, B: Keeps<Entry = E, Shared = X>> Play<
    Option<Half<F, B>>,
    View<E, X>,
> for LeavesForward {
    ghost use Rattle.oi_pair.specs.Kept.{LeavesForward};

    ghost then = { LeavesForward F.entries B.entries };
}

pub struct Meets;

impl<E, X, F, B> Play<Option<Half<F, B>>, View<E, X>> for Meets {
    ghost use Rattle.oi_pair.specs.Kept.{Meets};

    ghost then = { Meets };
}

/// How a seat is cut in two, and how two are joined.
pub struct Parts;

impl<E, X> Split<View<E, X>> for Parts {
    ghost use Rattle.oi_pair.specs.Views.{parted, branch};

    ghost left = { parted };

    ghost right = { branch };
}

impl<E, X> Join<View<E, X>> for Parts {
    ghost use Rattle.oi_pair.specs.Views.{joined, nobody};

    ghost both = { joined };

    ghost spent = { nobody };
}
