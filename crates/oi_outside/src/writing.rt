ghost use Rattle.std.specs.Prelude.{◌≡◌, ◌≤◌, ◌<◌, ◌-◌, IfOk, OnErr, OnOk, drop, length, take};
ghost use Rattle.oi_outside.specs.Streams.{IsCounted, IsCutShort, IsFront, behind};

use crate::failed::Failed;
use crate::sink::Sink;

// Writes one front of what is left, and answers where the next one begins.
fn write_from<K: Sink>(sink: &mut K, bytes: &[u8], at: usize) -> Result<usize, Failed>
    requires { at < length bytes.now }
    ensures moved { IfOk result (λ next. (at < next) × (next ≤ length bytes.now) × (K.held sink.new ≡ behind (K.held sink.old) (take (next - at) (drop at bytes.now)))) }
    ensures kept { OnErr result (K.held sink.new ≡ K.held sink.old) }
    ensures count { IsCounted result (K.faults sink.old) (K.faults sink.new) }
{
    let n = sink.write(&bytes[at..])?;
    Ok(at + n)
}

/// Writes all the bytes.
pub fn write_all<K: Sink>(sink: &mut K, bytes: &[u8]) -> Result<(), Failed>
    ensures held { OnOk result (K.held sink.new ≡ behind (K.held sink.old) bytes.now) }
    ensures front { IsFront bytes.now (K.held sink.old) (K.held sink.new) }
    ensures short { OnErr result (IsCutShort bytes.now (K.held sink.old) (K.held sink.new)) }
    ensures count { IsCounted result (K.faults sink.old) (K.faults sink.new) }
{
    let mut at = 0;
    while at < bytes.len() {
        at = write_from(sink, bytes, at)?;
    }
    Ok(())
}
