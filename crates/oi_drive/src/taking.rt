ghost use Rattle.std.specs.Prelude.{◌≡◌, ◌<◌, ◌++◌, ◌∷◌, [], IfErr, OnErr, OnOk, false, is_some, length};
ghost use Rattle.oi_drive.specs.Parts.{BrokeIn, IsPartly};
ghost use Rattle.oi_drive.specs.Runs.{seen};
ghost use Rattle.oi_drive.specs.Worlds.{byte_text, feed, feed_byte, feed_text, input_end, input_end_text, line_step, line_text, stopped_at_end};
ghost use Rattle.oi_drive.specs.Writes.{Counts, Prints};

use crate::lines::{bad, line_step};
use crate::runner::{Broken, Runner, Stop};
use crate::writing::print;
use oi_base::NoMemory;
use oi_outside::Sink;

const LINE_LIMIT: usize = 1_048_576;

// One byte more of a line.
fn grow(part: &mut Vec<u8>, b: u8) -> Result<(), NoMemory>
    ensures { OnOk result (part.new.items ≡ part.old.items ++ b ∷ []) }
{
    part.push(b)?;
    Ok(())
}

// The line has ended: its text goes out before anything else is read.
fn end_line<K: Sink>(run: &mut Runner, sink: &mut K) -> Result<(), Broken>
    ensures world { OnOk result (seen run.new ≡ line_step (seen run.old)) }
    ensures prints { Prints result (line_text (seen run.old)) (K.held sink.old) (K.held sink.new) (K.faults sink.old) (K.faults sink.new) }
    ensures partly { IfErr result (λ broken. IsPartly broken (Unit {0}) (seen run.old) (seen run.new) (K.held sink.old) (K.held sink.new)) }
{
    let mut out = Vec::new(run.alloc);
    line_step(run, &mut out)?;
    print(sink, &out)
}

/// One byte of the input.
pub fn take_byte<K: Sink>(run: &mut Runner, sink: &mut K, b: u8) -> Result<(), Broken>
    ensures going { OnErr result (is_some (seen run.old).stop ≡ false) }
    ensures world { OnOk result (seen run.new ≡ feed_byte (seen run.old) b) }
    ensures prints { Counts result (byte_text (seen run.old) b) (K.held sink.old) (K.held sink.new) (K.faults sink.old) (K.faults sink.new) }
    ensures partly { IfErr result (λ broken. IsPartly broken (b ≡ 10) (seen run.old) (seen run.new) (K.held sink.old) (K.held sink.new)) }
{
    if run.stop.is_some() {
        return Ok(());
    }
    if b == b'\n' {
        return end_line(run, sink);
    }
    if run.part.len() < LINE_LIMIT {
        grow(&mut run.part, b)?;
    } else {
        bad(run);
    }
    Ok(())
}

/// A piece of the input.
pub fn take_piece<K: Sink>(run: &mut Runner, sink: &mut K, piece: &[u8]) -> Result<(), Broken>
    ensures world { OnOk result (seen run.new ≡ feed (seen run.old) piece.now) }
    ensures prints { Counts result (feed_text (seen run.old) piece.now) (K.held sink.old) (K.held sink.new) (K.faults sink.old) (K.faults sink.new) }
    ensures partly { IfErr result (λ broken. BrokeIn broken piece.now (seen run.old) (seen run.new) (K.held sink.old) (K.held sink.new)) }
{
    for b in piece {
        match take_byte(run, sink, *b) {
            Ok(()) => {}
            Err(broken) => return Err(broken),
        }
    }
    Ok(())
}

fn stop_at_end(run: &mut Runner)
    ensures { seen run.new ≡ stopped_at_end (seen run.old) }
{
    if run.stop.is_none() {
        run.stop = Some(Stop::InputEnd);
    }
}

/// The end of the input: a last line may lack its line feed.
#[tactic(auto, using(crate::proofs::Outputs::behind_none))]
pub fn end_of_input<K: Sink>(run: &mut Runner, sink: &mut K) -> Result<(), Broken>
    ensures going { OnErr result (is_some (seen run.old).stop ≡ false) }
    ensures world { OnOk result (seen run.new ≡ input_end (seen run.old)) }
    ensures prints { Counts result (input_end_text (seen run.old)) (K.held sink.old) (K.held sink.new) (K.faults sink.old) (K.faults sink.new) }
    ensures partly { IfErr result (λ broken. IsPartly broken (0 < length (seen run.old).part) (seen run.old) (seen run.new) (K.held sink.old) (K.held sink.new)) }
{
    if run.stop.is_some() {
        return Ok(());
    }
    if run.part.is_empty() {
        stop_at_end(run);
        return Ok(());
    }
    match end_line(run, sink) {
        Ok(()) => {
            stop_at_end(run);
            Ok(())
        }
        Err(broken) => Err(broken),
    }
}
