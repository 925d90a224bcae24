/// A clock that counts milliseconds from some time on.
pub trait Clock {
    ghost use Rattle.std.specs.Prelude.{◌≡◌, ◌<◌, ◌≤◌, ◌^◌, ℕ, List, Option};
    ghost use Rattle.oi_outside.specs.Clocks.{with_reading};

    /// All its answers, where the object tells them.
    ghost readings: { Self → Option (List ℕ) };

    /// The last answer; 0 before the first one.
    ghost last: { Self → ℕ };

    /// Reads the clock, in milliseconds. No reading is below the one before, and none is 2^53 or more.
    fn now(&mut self) -> u64
        ensures rises { last self.old ≤ result }
        ensures small { result < 2 ^ 53 }
        ensures last { last self.new ≡ result }
        ensures told { readings self.new ≡ with_reading (readings self.old) result };
}
