use oi_outside::{Failed, Sink};
use std::io::Write;

/// A writer of the system. It does not tell what it took.
#[derive(Drop)]
pub struct StdSink<W: Write + Drop> {
    writer: W,
    faults: u64,
}

impl<W: Write + Drop> StdSink<W> {
    ghost use Rattle.std.specs.Prelude.{◌≡◌};

    /// Writes to this writer; nothing has failed yet.
    pub fn new(writer: W) -> StdSink<W>
        ensures writer { result.writer ≡ writer }
        ensures count { result.faults ≡ 0 }
    {
        StdSink { writer, faults: 0 }
    }
}

impl<W: Write + Drop> Sink for StdSink<W> {
    ghost use Rattle.std.specs.Prelude.{◌<◌, ◌≡◌, ℕ, List, None, Option, length};
    ghost use Rattle.oi_outside.specs.Streams.{IsCounted, Writes};

    ghost held = { λ _. None };

    ghost faults = { λ s. s.faults };

    fn write(&mut self, piece: &[u8]) -> Result<usize, Failed>
        requires { 0 < length piece.now }
        ensures writes { Writes result piece.now None None }
        ensures count { IsCounted result self.old.faults self.new.faults }
    {
        match self.writer.write(piece) {
            Ok(n) if n > 0 => Ok(n),
            _ => {
                self.faults = self.faults.saturating_add(1);
                Err(Failed)
            }
        }
    }

    fn flush(&mut self) -> Result<(), Failed>
        ensures held { ◌≡◌ {A = Option (List ℕ)} None None }
        ensures count { IsCounted result self.old.faults self.new.faults }
    {
        match self.writer.flush() {
            Ok(()) => Ok(()),
            Err(_) => {
                self.faults = self.faults.saturating_add(1);
                Err(Failed)
            }
        }
    }
}
