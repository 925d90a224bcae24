ghost use Rattle.std.specs.Prelude.{◌≡◌, ◌≤◌, ◌<◌, IfOk, length, take, vec_len};
ghost use Rattle.oi_base.specs.Limits.{input_limit};
ghost use Rattle.oi_drive.specs.Inputs.{ReadsAll, ReadsOnce};
ghost use Rattle.oi_drive.specs.Runs.{seen};
ghost use Rattle.oi_drive.specs.Worlds.{input_over};

use crate::lines::bad;
use crate::runner::{Broken, Runner};
use crate::taking::{end_of_input, take_piece};
use oi_base::NoMemory;
use oi_outside::{Sink, Source};
use std::alloc::Global;

const INPUT_LIMIT: usize = 1_073_741_824;

const BUFFER: usize = 65_536;

// A byte came past the greatest input.
fn over(run: &mut Runner)
    ensures { seen run.new ≡ input_over (seen run.old) }
{
    if run.stop.is_none() {
        bad(run);
    }
}

fn front(buf: &[u8], n: usize) -> &[u8]
    requires { n ≤ length buf.now }
    ensures { result.now ≡ take n buf.now }
{
    &buf[..n]
}

// Reads once. Answers how many bytes may still come, or None at the end or the stop.
fn read_once<S: Source, K: Sink>(
    run: &mut Runner,
    source: &mut S,
    sink: &mut K,
    buf: &mut [u8],
    room: usize,
) -> Result<Option<usize>, Broken>
    requires { 0 < length buf.old }
    ensures { ReadsOnce result room (S.left source.old) (S.left source.new) (seen run.old) (seen run.new) (K.held sink.old) (K.held sink.new)
        (S.faults source.old) (S.faults source.new) (K.faults sink.old) (K.faults sink.new) }
{
    let n = match source.read(buf) {
        Ok(n) => n,
        Err(_) => return Err(Broken::Read),
    };
    if n == 0 {
        return match end_of_input(run, sink) {
            Ok(()) => Ok(None),
            Err(broken) => Err(broken),
        };
    }
    if n > room {
        return match take_piece(run, sink, front(buf, room)) {
            Ok(()) => {
                over(run);
                Ok(None)
            }
            Err(broken) => Err(broken),
        };
    }
    match take_piece(run, sink, front(buf, n)) {
        Ok(()) => {}
        Err(broken) => return Err(broken),
    }
    if run.stop.is_some() {
        Ok(None)
    } else {
        Ok(Some(room - n))
    }
}

/// Reads the input to its end or its stop.
pub fn read_input<S: Source, K: Sink>(
    run: &mut Runner,
    source: &mut S,
    sink: &mut K,
) -> Result<(), Broken>
    ensures { ReadsAll result input_limit (S.left source.old) (S.left source.new) (seen run.old) (seen run.new) (K.held sink.old) (K.held sink.new)
        (S.faults source.old) (S.faults source.new) (K.faults sink.old) (K.faults sink.new) }
{
    let Ok(mut buf) = buffer(run.alloc) else {
        return Err(Broken::Memory);
    };
    let mut room = INPUT_LIMIT;
    loop {
        match read_once(run, source, sink, &mut buf, room) {
            Ok(Some(less)) => room = less,
            Ok(None) => return Ok(()),
            Err(broken) => return Err(broken),
        }
    }
}

fn buffer(alloc: Global) -> Result<Vec<u8>, NoMemory>
    ensures { IfOk result (λ v. 0 < vec_len v) }
{
    Ok(vec![in alloc; 0u8; BUFFER]?)
}
