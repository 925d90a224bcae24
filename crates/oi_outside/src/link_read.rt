/// What a read of a link answers.
#[derive(Clone, Copy, Debug, PartialEq, Eq)]
pub enum ReadTurn {
    /// So many bytes were taken, at least one; they stand at the front of the buffer.
    Got(usize),
    /// Nothing is there yet.
    NotYet,
    /// The other end gives no more.
    End,
    /// The call failed. The half's count of faults rose in that call.
    Failed,
}

/// The half of a link that takes bytes from the other end. No call waits.
pub trait LinkRead {
    ghost use Rattle.std.specs.Prelude.{◌≡◌, ◌<◌, ℕ, Option, length};
    ghost use Rattle.std.specs.Option.{option_map};
    ghost use Rattle.oi_outside.specs.ReadLinks.{ReadHalf, after_read, IsGotSize, IsReadCounted};

    /// Its link, the bytes that it took, how many calls it had and the last answer, where the object tells them.
    ghost half: { Self → Option ReadHalf };

    /// How many calls failed; the last value of its type stands for all that are greater.
    ghost faults: { Self → ℕ };

    /// Takes the next bytes of the link into the front of the buffer.
    fn read(&mut self, buf: &mut [u8]) -> ReadTurn
        requires { 0 < length buf.old }
        ensures size { IsGotSize result buf.new }
        ensures half { half self.new ≡ option_map (after_read result buf.new) (half self.old) }
        ensures count { IsReadCounted result (faults self.old) (faults self.new) };
}
