ghost use Rattle.std.specs.Prelude.{◌≡◌};
ghost use Rattle.oi_tool.specs.Answers.{IsDone, IsLast, IsStopped};
ghost use Rattle.oi_tool.specs.declared.stop.Stop.TheVariants.{Sink as SinkFailed};

use crate::stop::{Stop, failed_status, status_of, stop_text};
use oi_outside::{Failed, Sink, write_all};
use std::alloc::Global;

/// Ends a run that did what was asked. A flush that fails shows in the status.
pub fn end_done<K: Sink>(sink: &mut K) -> u8
    ensures { IsDone result (K.held sink.old) (K.held sink.new) (K.faults sink.old) (K.faults sink.new) }
{
    match sink.flush() {
        Ok(()) => 0,
        Err(_) => 31,
    }
}

/// Ends a run that stopped.
pub fn end_stopped<K: Sink>(alloc: Global, stop: &Stop, sink: &mut K) -> u8
    ensures { IsStopped stop.now result (K.held sink.old) (K.held sink.new) (K.faults sink.old) (K.faults sink.new) }
{
    match stop {
        Stop::Sink => end_unwritten(sink),
        other => end_told(alloc, other, sink),
    }
}

// To a sink that failed nothing more is written.
fn end_unwritten<K: Sink>(sink: &mut K) -> u8
    ensures { IsStopped SinkFailed result (K.held sink.old) (K.held sink.new) (K.faults sink.old) (K.faults sink.new) }
{
    let _ = write_last(sink, b"");
    31
}

// Tells why the run stopped, where there is memory for that.
fn end_told<K: Sink>(alloc: Global, stop: &Stop, sink: &mut K) -> u8
    requires { stop.now ≡ SinkFailed → ⊥ }
    ensures { IsStopped stop.now result (K.held sink.old) (K.held sink.new) (K.faults sink.old) (K.faults sink.new) }
{
    match stop_text(alloc, stop) {
        Ok(text) => match write_last(sink, &text) {
            Ok(()) => status_of(stop),
            Err(_) => failed_status(stop),
        },
        Err(_) => {
            let _ = write_last(sink, b"");
            3
        }
    }
}

// The sink is flushed, whether it took the text or not.
fn write_last<K: Sink>(sink: &mut K, text: &[u8]) -> Result<(), Failed>
    ensures { IsLast result text.now (K.held sink.old) (K.held sink.new) (K.faults sink.old) (K.faults sink.new) }
{
    let written = write_all(sink, text);
    sink.flush()?;
    written
}
