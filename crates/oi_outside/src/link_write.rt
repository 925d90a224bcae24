/// What a write to a link answers.
#[derive(Clone, Copy, Debug, PartialEq, Eq)]
pub enum WriteTurn {
    /// So many bytes of the piece's front were taken, at least one.
    Took(usize),
    /// There is no room yet.
    NotYet,
    /// The call failed. The half's count of faults rose in that call.
    Failed,
}

/// The half of a link that gives bytes to the other end. No call waits.
pub trait LinkWrite {
    ghost use Rattle.std.specs.Prelude.{◌≡◌, ◌<◌, ℕ, Option, length};
    ghost use Rattle.std.specs.Option.{option_map};
    ghost use Rattle.oi_outside.specs.WriteLinks.{WriteHalf, after_write, IsTookSize, IsWriteCounted};

    /// Its link, the bytes that it gave, how many calls it had and the last answer, where the object tells them.
    ghost half: { Self → Option WriteHalf };

    /// How many calls failed; the last value of its type stands for all that are greater.
    ghost faults: { Self → ℕ };

    /// Gives a front of the piece to the other end.
    fn write(&mut self, piece: &[u8]) -> WriteTurn
        requires { 0 < length piece.now }
        ensures size { IsTookSize result piece.now }
        ensures half { half self.new ≡ option_map (after_write result piece.now) (half self.old) }
        ensures count { IsWriteCounted result (faults self.old) (faults self.new) };
}
