use crate::cases::{Case, FIRST, FOURTH, LONG, SECOND, THIRD};
use md5::{Digest, Md5};
use oi_base::{Blob, Series};
use oi_drive::*;
use oi_outside::{MemSink, MemSource};
use std::alloc::Global;
use std::process::Abort;
use std::test::Fail;

// No worked case prints more.
const ROOM: u32 = 1_048_576;

fn numbers(alloc: Global, all: &[u64]) -> Result<Series<u64>, Fail> {
    let mut list = Vec::new(alloc);
    list.extend_from_slice(all)?;
    Ok(Series::from_vec(list))
}

// The status and the text of an input, where these calls of the source and the sink fail.
fn replay(
    alloc: Global,
    input: &[u8],
    source_fails: &[u64],
    sink_fails: &[u64],
) -> Result<(u8, Blob), Fail> {
    let bytes = Blob::from_slice(alloc, input)?;
    let mut source = MemSource::new(bytes, numbers(alloc, source_fails)?);
    let mut sink = MemSink::new(alloc, ROOM, numbers(alloc, sink_fails)?)?;
    let ended = drive_main(alloc, &mut source, &mut sink);
    Ok((ended.status, Blob::from_slice(alloc, sink.held())?))
}

// An input, the numbers of the calls that fail, the status and the text that are wanted.
static FAILING: [(&[u8], &[u64], &[u64], u8, &[u8]); 9] = [
    (b"", &[], &[], 0, b""),
    (b"end", &[], &[], 0, b""),
    (b"end\nread 0\n", &[], &[], 0, b""),
    (b"end \n", &[], &[], 7, b"fault 7 1\n"),
    (b"", &[0], &[], 30, b"fault 30 1\n"),
    (b"login 1 32 5\n", &[1], &[], 30, b"login 1\nfault 30 2\n"),
    (b"login 1 32 5\n", &[], &[0], 31, b""),
    // a line that is refused, and a flush that fails behind it
    (b"abort 0\n", &[], &[], 35, b"refused 1 unknown\n"),
    (b"abort 0\n", &[], &[1], 31, b"refused 1 unknown\n"),
];

#[test]
fn failing_calls(rt: HostRuntime) -> Result<(), Fail> {
    for (input, source_fails, sink_fails, status, text) in &FAILING {
        let (found, printed) = replay(rt.alloc(), *input, *source_fails, *sink_fails)?;
        assert_eq!(rt; found, *status);
        assert_eq!(rt; printed.as_slice(), *text);
    }
    Ok(())
}

// The input gives this status, and a text with this MD5.
fn gives(
    rt: &impl Abort,
    alloc: Global,
    input: &[u8],
    status: u8,
    wanted: &str,
) -> Result<(), Fail> {
    let (found, text) = replay(alloc, input, &[], &[])?;
    assert_eq!(rt; found, status);
    let digest = hex::encode(alloc, Md5::digest(text.as_slice()).as_slice())?;
    assert_eq!(rt; digest.as_bytes(), wanted.as_bytes());
    Ok(())
}

fn give(rt: &impl Abort, alloc: Global, cases: &[Case]) -> Result<(), Fail> {
    for case in cases {
        gives(rt, alloc, case.input, case.status, case.text)?;
    }
    Ok(())
}

#[test]
fn worked_cases_1(rt: HostRuntime) -> Result<(), Fail> {
    give(&rt, rt.alloc(), &FIRST)
}

#[test]
fn worked_cases_2(rt: HostRuntime) -> Result<(), Fail> {
    give(&rt, rt.alloc(), &SECOND)
}

#[test]
fn worked_cases_3(rt: HostRuntime) -> Result<(), Fail> {
    give(&rt, rt.alloc(), &THIRD)
}

#[test]
fn worked_cases_4(rt: HostRuntime) -> Result<(), Fail> {
    give(&rt, rt.alloc(), &FOURTH)
}

#[test]
fn long_cases(rt: HostRuntime) -> Result<(), Fail> {
    for case in &LONG {
        let mut input = Vec::new(rt.alloc());
        input.extend_from_slice(case.front)?;
        for _i in 0..case.count {
            input.extend_from_slice(case.part)?;
        }
        input.extend_from_slice(case.back)?;
        gives(&rt, rt.alloc(), &input, case.status, case.text)?;
    }
    Ok(())
}

// The next of a row of numbers without an order.
fn next(seed: &mut u32) -> u32 {
    *seed = seed.wrapping_mul(1_664_525).wrapping_add(1_013_904_223);
    *seed / 65_536
}

const DIGITS: &[u8; 16] = b"0123456789abcdef";

fn put_hex(out: &mut Vec<u8>, n: u32) -> Result<(), Fail> {
    for b in n.to_be_bytes() {
        out.push(DIGITS[usize::from(b / 16)])?;
        out.push(DIGITS[usize::from(b % 16)])?;
    }
    Ok(())
}

// Kinds of replies: the first eight bytes, the target transfer tag or SNACK tag, the data.
static REPLIES: [(&[u8], &[u8], &[u8]); 4] = [
    (b"2581000000000008", b"ffffffff", b"000003ff00000200"),
    (b"2180000000000000", b"00000000", b""),
    (b"2180000200000000", b"00000000", b""),
    (b"2180010000000000", b"00000000", b""),
];

// A reply to the command with this number, as hexadecimal digits.
fn put_reply(out: &mut Vec<u8>, kind: usize, k: u32) -> Result<(), Fail> {
    let (front, tag, data) = REPLIES[kind % 4];
    out.extend_from_slice(front)?;
    out.extend_from_slice(b"0000000000000000")?;
    put_hex(out, k % 3)?;
    out.extend_from_slice(tag)?;
    put_hex(out, 5 + k % 3)?;
    out.extend_from_slice(b"0000000400000023000000000000000000000000")?;
    out.extend_from_slice(data)?;
    Ok(())
}

fn put_lines(script: &mut Vec<u8>, stream: &[u8], most: usize) -> Result<(), Fail> {
    for piece in stream.chunks(most.max(1)) {
        script.extend_from_slice(b"recv 1 ")?;
        script.extend_from_slice(piece)?;
        script.push(b'\n')?;
    }
    Ok(())
}

const FRONT: &[u8] = b"login 1 32 5\ncapacity 0\ncapacity 0\ncapacity 0\nsend 4\n";

// Three commands and their replies, at times with bytes behind them that are no PDU: with each PDU in a line of its own, and
// in pieces of another length.
fn scripts(alloc: Global, seed: &mut u32) -> Result<(Vec<u8>, Vec<u8>), Fail> {
    let mut stream = Vec::new(alloc);
    let mut whole = Vec::new(alloc);
    let mut cut = Vec::new(alloc);
    whole.extend_from_slice(FRONT)?;
    cut.extend_from_slice(FRONT)?;
    for k in 0..4u32 {
        let mut pdu = Vec::new(alloc);
        if k < 3 {
            put_reply(&mut pdu, next(seed) as usize, k)?;
        } else if next(seed) % 4 == 0 {
            pdu.extend_from_slice(&[b'f'; 96])?;
        }
        put_lines(&mut whole, &pdu, 112)?;
        stream.extend_from_slice(&pdu)?;
    }
    put_lines(&mut cut, &stream, 2 + 2 * (next(seed) % 40) as usize)?;
    Ok((whole, cut))
}

#[test]
fn the_same_bytes_in_other_pieces(rt: HostRuntime) -> Result<(), Fail> {
    let mut seed = 1;
    for _i in 0..200 {
        let (whole, cut) = scripts(rt.alloc(), &mut seed)?;
        let (status, text) = replay(rt.alloc(), &whole, &[], &[])?;
        let (same, again) = replay(rt.alloc(), &cut, &[], &[])?;
        assert_eq!(rt; status, same);
        assert_eq!(rt; text.as_slice(), again.as_slice());
    }
    Ok(())
}
