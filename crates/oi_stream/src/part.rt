ghost use Rattle.std.specs.Prelude.{◌≡◌, ◌++◌, ◌+◌, ◌-◌, ◌^◌, ◌<◌, ◌≤◌, OnOk, IfOk, [], length, min, take, drop, vec_len};
ghost use Rattle.oi_pdu.specs.Segments.{additional, basic_at, data_len};
ghost use Rattle.oi_pdu.specs.Table.{header_of};
ghost use Rattle.oi_pdu.specs.Wire.{Encodable, whole_len};
ghost use Rattle.oi_stream.specs.Steps.{IsBegun, IsChecked, IsGoing, IsSound, IsStep, Takes};

use crate::fault::StreamFault;
use oi_base::{Blob, NoMemory};
use oi_pdu::{Pdu, lengths, read_pdu, received};
use std::alloc::Global;
use std::mem;

/// What is kept of the PDU under way: its header, its data, and how many of its bytes came.
#[derive(Debug, Drop)]
pub struct Part {
    pub alloc: Global,
    pub head: [u8; 48],
    pub payload: Vec<u8>,
    pub count: usize,
}

/// A whole PDU: the bytes that it takes in the stream, and those of them that the last chunk had.
#[derive(Debug, Drop)]
pub struct Whole {
    pub pdu: Pdu,
    pub size: usize,
    pub taken: usize,
}

// Copies bytes behind those of a header that are there.
fn fill(head: &mut [u8; 48], count: usize, chunk: &[u8]) -> usize
    requires { count ≤ 48 }
    ensures taken { result ≡ min (48 - count) (length chunk.now) }
    ensures bytes { take (count + result) head.new ≡ take count head.old ++ take result chunk.now }
    ensures long { length head.new ≡ 48 }
{
    let taken = (48 - count).min(chunk.len());
    head[count..count + taken].copy_from_slice(&chunk[..taken]);
    taken
}

// The size of the data segment of a good header.
#[tactic(auto, unfolding(oi_pdu::specs::Segments::data_len))]
fn check(head: &[u8; 48], limit: u32, place: u64) -> Result<usize, StreamFault>
    ensures checked { IsChecked limit place head.now result }
    ensures small { data_len head.now < 2 ^ 24 }
{
    if let Err(bad) = read_pdu(head) {
        return Err(StreamFault::BadHeader {
            place,
            byte: bad.place,
        });
    }
    let (_, length) = lengths(head);
    if length > limit {
        return Err(StreamFault::TooLong { place, length });
    }
    Ok(length as usize)
}

// Where the data of a PDU begins, the size of the data, and that of the whole PDU.
#[tactic(auto, unfolding(oi_pdu::specs::Segments::data_len))]
fn sizes(head: &[u8; 48]) -> (usize, usize, usize)
    ensures begin { result.0 ≡ 48 + additional head.now }
    ensures data { result.1 ≡ data_len head.now }
    ensures whole { result.2 ≡ whole_len head.now }
    ensures small { result.1 < 2 ^ 24 }
    ensures most { result.2 < 2 ^ 40 }
{
    let (additional, data) = lengths(head);
    let begin = 48 + additional as usize;
    let size = data as usize;
    (begin, size, begin + size + (4 - size % 4) % 4)
}

// Appends what a chunk has of a data segment of this size, which begins behind so many bytes of the chunk.
fn grow(payload: &mut Vec<u8>, size: usize, begin: usize, chunk: &[u8]) -> Result<(), NoMemory>
    ensures { OnOk result (payload.new.items ≡ payload.old.items ++ take (size - vec_len payload.old) (drop begin chunk.now)) }
{
    if begin < chunk.len() {
        let data = &chunk[begin..];
        let count = size.saturating_sub(payload.len()).min(data.len());
        payload.extend_from_slice(&data[..count])?;
    }
    Ok(())
}

// Takes bytes up to the end of the header, and looks at it once it is there.
fn begin(part: &mut Part, limit: u32, place: u64, chunk: &[u8]) -> Result<usize, StreamFault>
    requires { IsGoing part.old }
    ensures { IsBegun limit place part.old part.new chunk.now result }
{
    if part.count >= 48 {
        return Ok(0);
    }
    let taken = fill(&mut part.head, part.count, chunk);
    if part.count + taken < 48 {
        part.count += taken;
        return Ok(taken);
    }
    let size = check(&part.head, limit, place)?;
    part.payload = Vec::with_capacity(part.alloc, size)?;
    part.count = 48;
    Ok(taken)
}

// Takes bytes up to the end of a PDU whose header is there.
fn proceed(part: &mut Part, limit: u32, chunk: &[u8]) -> Result<usize, NoMemory>
    requires sound { IsSound part.old }
    requires begun { 48 ≤ part.old.count }
    ensures takes { IfOk result (λ taken. Takes limit part.old part.new chunk.now taken) }
    ensures taken { IfOk result (λ taken. taken ≡ min (whole_len part.old.head - part.old.count) (length chunk.now)) }
    ensures head { part.new.head ≡ part.old.head }
{
    let (begin, size, whole) = sizes(&part.head);
    let taken = (whole - part.count).min(chunk.len());
    grow(
        &mut part.payload,
        size,
        begin.saturating_sub(part.count),
        &chunk[..taken],
    )?;
    part.count += taken;
    Ok(taken)
}

// Takes a whole PDU out.
fn finish(part: &mut Part) -> Pdu
    requires sound { IsSound part.old }
    requires begun { 48 ≤ part.old.count }
    ensures head { result.head ≡ header_of (basic_at part.old.head) }
    ensures payload { result.payload ≡ part.old.payload.items }
    ensures encodable { Encodable result }
    ensures count { part.new.count ≡ 0 }
    ensures fresh { part.new.payload.items ≡ [] }
    ensures sound { IsSound part.new }
{
    let payload = mem::replace(&mut part.payload, Vec::new(part.alloc));
    part.count = 0;
    match received(&part.head, Blob::from_vec(payload)) {
        Ok(pdu) => pdu,
        Err(_) => unreachable!(),
    }
}

/// Takes bytes up to the end of the PDU under way, and that PDU out once it is whole.
pub fn step(
    part: &mut Part,
    limit: u32,
    place: u64,
    chunk: &[u8],
) -> Result<Option<Whole>, StreamFault>
    requires { IsGoing part.old }
    ensures { IsStep limit place part.old part.new chunk.now result }
{
    let header = begin(part, limit, place, chunk)?;
    if part.count < 48 {
        return Ok(None);
    }
    let body = proceed(part, limit, &chunk[header..])?;
    let (_, _, size) = sizes(&part.head);
    if part.count < size {
        return Ok(None);
    }
    let taken = header + body;
    let pdu = finish(part);
    Ok(Some(Whole { pdu, size, taken }))
}
