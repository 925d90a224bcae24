//! Two locks with one numbering. A pair holds two values, each behind a lock of its own, and one counter, from which
//! whoever holds a value draws the numbers of its entries. An entry stands in the value that was held, or in both. So
//! two threads make entries at one time, and all entries together have one order.
#![tactic(auto)]

mod half;
mod ledger;
mod pair;
mod rule;
mod seat;
mod steps;
#[cfg(test)]
mod tests;
mod view;

pub use pair::Pair;
pub use seat::PairSeat;
