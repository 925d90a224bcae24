ghost use Rattle.oi_drive.specs.Writes.{Prints};

use crate::runner::Broken;
use oi_outside::{Sink, write_all};

/// Prints a text.
pub fn print<K: Sink>(sink: &mut K, text: &[u8]) -> Result<(), Broken>
    ensures { Prints result text.now (K.held sink.old) (K.held sink.new) (K.faults sink.old) (K.faults sink.new) }
{
    match write_all(sink, text) {
        Ok(()) => Ok(()),
        Err(_) => Err(Broken::Write),
    }
}
