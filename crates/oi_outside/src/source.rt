use crate::failed::Failed;

/// Where input comes from.
pub trait Source {
    ghost use Rattle.std.specs.Prelude.{◌<◌, ℕ, List, Option, length};
    ghost use Rattle.oi_outside.specs.Streams.{IsCounted, Reads};

    /// What is still to be read, where the object tells it.
    ghost left: { Self → Option (List ℕ) };

    /// How many calls failed; the last value of its type stands for all that are greater.
    ghost faults: { Self → ℕ };

    /// Fills the front of the buffer and answers how much of it; 0 comes only at the end.
    fn read(&mut self, buf: &mut [u8]) -> Result<usize, Failed>
        requires { 0 < length buf.old }
        ensures reads { Reads result buf.new (left self.old) (left self.new) }
        ensures count { IsCounted result (faults self.old) (faults self.new) };
}
