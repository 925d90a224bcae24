ghost use Rattle.std.specs.Prelude.{◌<◌, ◌^◌};

use oi_outside::{Clock, GREATEST_READING};
use std::rt::Clock as RuntimeClock;
use std::time::{Duration, Instant};

/// The system's monotonic clock, in milliseconds since its first reading. It does not tell its readings.
#[derive(Drop)]
pub struct SystemClock<R: RuntimeClock + Drop> {
    rt: R,
    start: Option<Instant>,
    last: u64,
    ghost small: { last < 2 ^ 53 },
}

impl<R: RuntimeClock + Drop> SystemClock<R> {
    ghost use Rattle.std.specs.Prelude.{◌≡◌};

    /// Counts from its first reading on.
    pub fn new(rt: R) -> SystemClock<R>
        ensures { result.last ≡ 0 }
    {
        SystemClock {
            rt,
            start: None,
            last: 0,
        }
    }
}

impl<R: RuntimeClock + Drop> Clock for SystemClock<R> {
    ghost use Rattle.std.specs.Prelude.{◌≡◌, ◌<◌, ◌≤◌, ◌^◌, ℕ, List, None, Option};

    ghost readings = { λ _. None };

    ghost last = { λ c. c.last };

    fn now(&mut self) -> u64
        ensures rises { self.old.last ≤ result }
        ensures small { result < 2 ^ 53 }
        ensures last { self.new.last ≡ result }
        ensures told { ◌≡◌ {A = Option (List ℕ)} None None }
    {
        // A clock that cannot be read stands still.
        if let Ok(now) = Instant::now(&self.rt) {
            let start = *self.start.get_or_insert(now);
            let passed = milliseconds(now.duration_since(start));
            self.last = self.last.max(passed.min(GREATEST_READING));
        }
        self.last
    }
}

fn milliseconds(passed: Duration) -> u64 {
    passed
        .as_secs()
        .saturating_mul(1000)
        .saturating_add(u64::from(passed.subsec_millis()))
}
