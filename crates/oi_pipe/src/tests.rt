ghost use Rattle.std.specs.Prelude.{◌≡◌, true, false, [], IfOk};

use crate::{PipeReader, PipeTurn, PipeWriter, meet, new_pipe};
use oi_base::NoMemory;
use std::alloc::Global;
use std::sync::Wait;
use std::test::Fail;
use std::thread;
use std::thread::{Threads, join};

#[test]
fn pipe_moves_bytes(rt: HostRuntime) -> Result<(), Fail> {
    let (mut reader, mut writer) = new_pipe(rt.alloc(), 4)?;
    let mut buf = [0; 3];
    assert_eq!(rt; writer.write(b"abcdef"), PipeTurn::Moved(4));
    assert_eq!(rt; writer.write(b"ef"), PipeTurn::NotYet);
    assert_eq!(rt; reader.read(&mut buf), PipeTurn::Moved(3));
    assert_eq!(rt; buf, *b"abc");
    assert_eq!(rt; reader.read(&mut buf), PipeTurn::Moved(1));
    assert_eq!(rt; buf, *b"dbc");
    assert_eq!(rt; reader.read(&mut buf), PipeTurn::NotYet);
    assert_eq!(rt; writer.write(b"ef"), PipeTurn::Moved(2));
    writer.close();
    writer.close();
    assert_eq!(rt; reader.read(&mut buf), PipeTurn::Moved(2));
    assert_eq!(rt; buf, *b"efc");
    assert_eq!(rt; reader.read(&mut buf), PipeTurn::End);
    assert_eq!(rt; reader.read(&mut buf), PipeTurn::End);
    let _ends = meet(reader, writer);
    Ok(())
}

// Gives all bytes, and closes the pipe.
fn give_all<R: Wait>(rt: &R, mut writer: PipeWriter, all: &[u8]) -> PipeWriter
    requires { (writer.given ≡ []) × (writer.closed ≡ false) }
    ensures { (result.pipe ≡ writer.pipe) × (result.given ≡ all.now) }
{
    let mut at = 0;
    for _ in rt.forever() {
        if at >= all.len() {
            break;
        }
        match writer.write(&all[at..]) {
            PipeTurn::Moved(count) => at += count,
            PipeTurn::NotYet | PipeTurn::End => thread::yield_now(),
        }
    }
    writer.close();
    writer
}

// Takes bytes up to the end.
fn take_all<R: Wait>(
    rt: &R,
    alloc: Global,
    mut reader: PipeReader,
) -> Result<(PipeReader, Vec<u8>), NoMemory>
    requires { reader.taken ≡ [] }
    ensures { IfOk result (λ r. (r.0.pipe ≡ reader.pipe) × (r.0.taken ≡ r.1.items) × (r.0.ended ≡ true)) }
{
    let mut all = Vec::new(alloc);
    let mut buf = [0; 1000];
    for _ in rt.forever() {
        match reader.read(&mut buf) {
            PipeTurn::Moved(count) => all.extend_from_slice(&buf[..count])?,
            PipeTurn::NotYet => thread::yield_now(),
            PipeTurn::End => break,
        }
    }
    Ok((reader, all))
}

// What comes out of a pipe between two threads.
fn relay<R: Threads + Wait + Sync>(rt: &R, alloc: Global, all: &[u8]) -> Result<Vec<u8>, NoMemory>
    ensures { IfOk result (λ v. v.items ≡ all.now) }
{
    let (reader, writer) = new_pipe(alloc, 4096)?;
    let (writer, taken) = join(
        rt,
        || -> PipeWriter
            requires { (writer.given ≡ []) × (writer.closed ≡ false) }
            ensures { (result.pipe ≡ writer.pipe) × (result.given ≡ all.entry.now) }
        { give_all(rt, writer, all) },
        || -> Result<(PipeReader, Vec<u8>), NoMemory>
            requires { reader.taken ≡ [] }
            ensures { IfOk result (λ r. (r.0.pipe ≡ reader.pipe) × (r.0.taken ≡ r.1.items) × (r.0.ended ≡ true)) }
        { take_all(rt, alloc, reader) },
    );
    let (reader, taken) = taken?;
    let _ends = meet(reader, writer);
    Ok(taken)
}

#[test]
fn pipe_moves_bytes_between_threads(rt: HostRuntime) -> Result<(), Fail> {
    let mut all = Vec::new(rt.alloc());
    for i in 0..100_000u32 {
        all.push((i % 251) as u8)?;
    }
    let taken = relay(&rt, rt.alloc(), all.as_slice())?;
    assert!(rt; taken == all);
    Ok(())
}
