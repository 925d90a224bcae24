use crate::failed::Failed;

/// Where output goes to.
pub trait Sink {
    ghost use Rattle.std.specs.Prelude.{◌<◌, ◌≡◌, ℕ, List, Option, length};
    ghost use Rattle.oi_outside.specs.Streams.{IsCounted, Writes};

    /// What was taken so far, where the object tells it.
    ghost held: { Self → Option (List ℕ) };

    /// How many calls failed; the last value of its type stands for all that are greater.
    ghost faults: { Self → ℕ };

    /// Takes a front of the piece and answers how much of it, at least one byte. A sink that takes nothing has failed.
    fn write(&mut self, piece: &[u8]) -> Result<usize, Failed>
        requires { 0 < length piece.now }
        ensures writes { Writes result piece.now (held self.old) (held self.new) }
        ensures count { IsCounted result (faults self.old) (faults self.new) };

    /// Passes on what was taken and is still kept back. No contract tells how often it was called.
    fn flush(&mut self) -> Result<(), Failed>
        ensures held { held self.new ≡ held self.old }
        ensures count { IsCounted result (faults self.old) (faults self.new) };
}
