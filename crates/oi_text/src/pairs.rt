ghost use Rattle.std.specs.Prelude.{◌≡◌, ◌+◌, ℕ, List, [], ◌++◌, ◌≤◌, ◌<◌, length, take, drop, IfOk, IfErr, OnOk, OnErr, IfSome, IfNone, MatchBool};
ghost use Rattle.std.specs.List.{prefix_len};
ghost use Rattle.oi_base.specs.Counts.{told};
ghost use Rattle.oi_text.specs.Pairs.{is_key_byte, is_value_byte, IsPair, spelled, pair_text, text_of, ArePairs, NoPair, IsText, IsFault};

use oi_base::{Label, NoMemory, Series};
use std::alloc::Global;
use thiserror::Error;

/// One key with its value.
#[derive(Debug, PartialEq, Eq, Drop)]
pub struct Pair {
    pub key: Label,
    pub value: Label,
}

/// Why a text was not read as a list of pairs.
#[derive(Clone, Copy, Debug, PartialEq, Eq, Drop, Error)]
pub enum TextFault {
    /// The first piece that is no pair begins at this byte.
    #[error("no pair at byte {place}")]
    Malformed { place: u32 },
    #[error("out of memory")]
    Memory,
}

/// The pairs of a text, in order. A text of no bytes has none.
pub fn read_pairs(alloc: Global, bytes: &[u8]) -> Result<Series<Pair>, TextFault>
    ensures ok { IfOk result (λ ps. IsText bytes.now ps) }
    ensures fault { IfErr result (λ e. IsFault bytes.now e) }
{
    let mut pairs = Vec::new(alloc);
    let mut rest = bytes;
    while !rest.is_empty() {
        let Some(piece) = first_pair(rest) else {
            return Err(TextFault::Malformed {
                place: told_place(bytes.len() - rest.len()),
            });
        };
        let Ok(pair) = copied(alloc, piece) else {
            return Err(TextFault::Memory);
        };
        let Ok(()) = pairs.push(pair) else {
            return Err(TextFault::Memory);
        };
        rest = piece.more;
    }
    Ok(Series::from_vec(pairs))
}

// The first pair of a text, and what follows it.
#[derive(Clone, Copy)]
struct Piece<'a> {
    key: &'a [u8],
    value: &'a [u8],
    more: &'a [u8],
}

fn first_pair(bytes: &[u8]) -> Option<Piece<'_>>
    ensures found { IfSome result (λ p. IsPair p.key.now p.value.now × (bytes.now ≡ spelled p.key.now p.value.now ++ p.more.now)) }
    ensures none { IfNone result (NoPair bytes.now) }
{
    let key = key_length(bytes);
    if key == 0 {
        return None;
    }
    if is_long_key(key) {
        return None;
    }
    if bytes.len() <= key {
        return None;
    }
    if bytes[key] != b'=' {
        return None;
    }
    let rest = after(bytes, key + 1);
    let value = value_length(rest);
    if is_long_value(value) {
        return None;
    }
    if rest.len() <= value {
        return None;
    }
    Some(Piece {
        key: before(bytes, key),
        value: before(rest, value),
        more: after(rest, value + 1),
    })
}

fn is_long_key(length: usize) -> bool
    ensures { MatchBool result (63 < length) (length ≤ 63) }
{
    63 < length
}

fn is_long_value(length: usize) -> bool
    ensures { MatchBool result (8192 < length) (length ≤ 8192) }
{
    8192 < length
}

fn key_length(bytes: &[u8]) -> usize
    ensures { result ≡ prefix_len is_key_byte bytes.now }
{
    bytes.iter().take_while(|b| is_key(**b)).count()
}

fn is_key(byte: u8) -> bool
    ensures { result ≡ is_key_byte byte }
{
    byte.is_ascii_alphanumeric() || matches!(byte, b'.' | b'-' | b'+' | b'@' | b'_')
}

fn value_length(bytes: &[u8]) -> usize
    ensures { result ≡ prefix_len is_value_byte bytes.now }
{
    bytes.iter().take_while(|b| **b != 0).count()
}

fn before(bytes: &[u8], at: usize) -> &[u8]
    requires { at ≤ length bytes.now }
    ensures { result.now ≡ take at bytes.now }
{
    &bytes[..at]
}

fn after(bytes: &[u8], at: usize) -> &[u8]
    requires { at ≤ length bytes.now }
    ensures { result.now ≡ drop at bytes.now }
{
    &bytes[at..]
}

fn copied(alloc: Global, piece: Piece<'_>) -> Result<Pair, NoMemory>
    ensures { IfOk result (λ p. (p.key ≡ piece.entry.key.now) × (p.value ≡ piece.entry.value.now)) }
{
    Ok(Pair {
        key: Label::from_slice(alloc, piece.key)?,
        value: Label::from_slice(alloc, piece.value)?,
    })
}

fn told_place(at: usize) -> u32
    ensures { result ≡ told at }
{
    at.min(0xffff_ffff) as u32
}

/// Appends the pairs as text.
pub fn write_pairs(pairs: &[Pair], out: &mut Vec<u8>) -> Result<(), NoMemory>
    requires { ArePairs pairs.now }
    ensures ok { OnOk result (out.new.items ≡ out.old.items ++ text_of pairs.now) }
    ensures err { OnErr result (out.new.items ≡ out.old.items) }
{
    let start = out.len();
    for pair in pairs {
        if append(pair, out).is_err() {
            out.truncate(start);
            return Err(NoMemory);
        }
    }
    Ok(())
}

fn append(pair: &Pair, out: &mut Vec<u8>) -> Result<(), NoMemory>
    ensures ok { OnOk result (out.new.items ≡ out.old.items ++ pair_text pair.now) }
    ensures err { OnErr result ((more : List ℕ) × (out.new.items ≡ out.old.items ++ more)) }
{
    out.extend_from_slice(pair.key.as_slice())?;
    out.push(b'=')?;
    out.extend_from_slice(pair.value.as_slice())?;
    out.push(0)?;
    Ok(())
}
