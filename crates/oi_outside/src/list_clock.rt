use crate::clock::Clock;
use crate::history::History;
use std::marker::Model;

/// The greatest reading of any clock, in milliseconds.
pub const GREATEST_READING: u64 = 9_007_199_254_740_991;

/// A clock that is greater by a fixed step at each reading.
#[derive(Drop)]
pub struct ListClock {
    readings: History<u64>,
    last: u64,
    next: u64,
    each: u64,
}

impl Model for ListClock {
    ghost use Rattle.std.specs.Prelude.{◌≤◌, min};
    ghost use Rattle.oi_outside.specs.Clocks.{Steps, greatest_reading};

    ghost Value = { Steps };

    ghost view = { λ c. record { readings = c.readings; last = c.last; next = c.next; each = c.each } };

    ghost invariant = { λ c. c.last ≤ min c.next greatest_reading };
}

impl ListClock {
    ghost use Rattle.std.specs.Prelude.{◌≡◌, []};

    /// A clock whose first reading is `first`, and which adds `each` milliseconds at each reading.
    pub fn new(first: u64, each: u64) -> ListClock
        ensures { result ≡ record { readings = []; last = 0; next = first; each = each } }
    {
        ListClock {
            readings: History::new(),
            last: 0,
            next: first,
            each,
        }
    }
}

impl Clock for ListClock {
    ghost use Rattle.std.specs.Prelude.{◌≡◌, ◌<◌, ◌≤◌, ◌^◌, Some};
    ghost use Rattle.oi_outside.specs.Clocks.{with_reading, reading_of, after_reading};

    ghost readings = { λ c. Some c.readings };

    ghost last = { λ c. c.last };

    fn now(&mut self) -> u64
        ensures rises { self.old.last ≤ result }
        ensures small { result < 2 ^ 53 }
        ensures last { self.new.last ≡ result }
        ensures told { Some self.new.readings ≡ with_reading (Some self.old.readings) result }
        ensures reading { result ≡ reading_of self.old }
        ensures after { self.new ≡ after_reading self.old }
    {
        let reading = self.next.min(GREATEST_READING);
        self.next = self.next.saturating_add(self.each);
        self.last = reading;
        self.readings.record(&reading);
        reading
    }
}
