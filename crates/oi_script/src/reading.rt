ghost use Rattle.std.specs.Prelude.{◌≡◌, ◌-◌, ◌^◌, ◌∷◌, IfOk, IfSome, map};
ghost use Rattle.oi_script.specs.Lines.{IsValidLine, abort_of, bare_line, bytes_of, control_line, drive_line, line_by, line_of_words, login_of, recv_of, reset_lun_of, send_of, submit_line, tick_of};
ghost use Rattle.oi_script.specs.Readings.{IsReading};

use crate::blanks::{is_skipped, words};
use crate::keys::read_keys;
use crate::line::{DriveLine, LineFault};
use crate::numbers::{is_text, number};
use crate::requests::{lun, request};
use crate::settings::set;
use hex::FromHexError;
use oi_base::{Blob, NoMemory};
use std::alloc::Global;

const MOST: u64 = u32::MAX as u64;

// `login CMDSN MAX EXPSTAT KEY=VALUE..`
fn login(fields: &[&[u8]]) -> Option<DriveLine>
    ensures line { result ≡ login_of (map (λ w. w.now) fields.now) }
    ensures valid { IfSome result (λ l. IsValidLine l) }
{
    match fields {
        [cmdsn, max, exp_stat, words @ ..] => {
            let cmdsn = number(cmdsn, 0, MOST)?;
            let max = number(max, 0, MOST)?;
            let exp_stat = number(exp_stat, 0, MOST)?;
            let keys = read_keys(words)?;
            Some(DriveLine::Login {
                cmdsn: cmdsn as u32,
                max: max as u32,
                exp_stat: exp_stat as u32,
                params: keys.params(),
            })
        }
        _ => None,
    }
}

// `send N`
fn send(fields: &[&[u8]]) -> Option<DriveLine>
    ensures line { result ≡ send_of (map (λ w. w.now) fields.now) }
    ensures valid { IfSome result (λ l. IsValidLine l) }
{
    match fields {
        [count] => {
            let count = number(count, 1, 65_536)?;
            Some(DriveLine::Send {
                count: count as u32,
            })
        }
        _ => None,
    }
}

// One or more pairs of hex digits.
fn bytes(alloc: Global, text: &[u8]) -> Result<Option<Blob>, NoMemory>
    ensures { IfOk result (λ o. o ≡ bytes_of text.now) }
{
    if text.is_empty() {
        return Ok(None);
    }
    match hex::decode(alloc, text) {
        Ok(bytes) => Ok(Some(Blob::from_vec(bytes))),
        Err(FromHexError::OutOfMemory) => Err(NoMemory),
        Err(_) => Ok(None),
    }
}

// `recv G HEX`
fn recv(alloc: Global, fields: &[&[u8]]) -> Result<Option<DriveLine>, NoMemory>
    ensures line { IfOk result (λ o. o ≡ recv_of (map (λ w. w.now) fields.now)) }
    ensures valid { IfOk result (λ o. IfSome o (λ l. IsValidLine l)) }
{
    match fields {
        [generation, text] => {
            let generation = number(generation, 1, u64::MAX);
            let bytes = bytes(alloc, text)?;
            match (generation, bytes) {
                (Some(generation), Some(bytes)) => Ok(Some(DriveLine::Recv { generation, bytes })),
                _ => Ok(None),
            }
        }
        _ => Ok(None),
    }
}

// `tick T`
fn tick(fields: &[&[u8]]) -> Option<DriveLine>
    ensures line { result ≡ tick_of (map (λ w. w.now) fields.now) }
    ensures valid { IfSome result (λ l. IsValidLine l) }
{
    match fields {
        [now] => {
            let now = number(now, 0, (1 << 53) - 1)?;
            Some(DriveLine::Tick { now })
        }
        _ => None,
    }
}

// `abort ID`
fn abort(fields: &[&[u8]]) -> Option<DriveLine>
    ensures line { result ≡ abort_of (map (λ w. w.now) fields.now) }
    ensures valid { IfSome result (λ l. IsValidLine l) }
{
    match fields {
        [id] => {
            let id = number(id, 0, u64::MAX)?;
            Some(DriveLine::Abort { id })
        }
        _ => None,
    }
}

// `reset-lun LUN`
fn reset_lun(fields: &[&[u8]]) -> Option<DriveLine>
    ensures line { result ≡ reset_lun_of (map (λ w. w.now) fields.now) }
    ensures valid { IfSome result (λ l. IsValidLine l) }
{
    match fields {
        [unit] => {
            let lun = lun(unit)?;
            Some(DriveLine::ResetLun { lun })
        }
        _ => None,
    }
}

// A line of one word.
fn bare(word: &[u8]) -> Option<DriveLine>
    ensures line { result ≡ bare_line word.now }
    ensures valid { IfSome result (λ l. IsValidLine l) }
{
    if is_text(word, b"end") {
        Some(DriveLine::End)
    } else if is_text(word, b"cut") {
        Some(DriveLine::Cut)
    } else if is_text(word, b"reset-target") {
        Some(DriveLine::ResetTarget)
    } else if is_text(word, b"leave") {
        Some(DriveLine::Leave)
    } else if is_text(word, b"window") {
        Some(DriveLine::Window)
    } else {
        None
    }
}

// A request, or a line of one word.
fn submit(alloc: Global, verb: &[u8], fields: &[&[u8]]) -> Result<Option<DriveLine>, NoMemory>
    ensures line { IfOk result (λ o. o ≡ submit_line verb.now (map (λ w. w.now) fields.now)) }
    ensures valid { IfOk result (λ o. IfSome o (λ l. IsValidLine l)) }
{
    match fields {
        [] => Ok(bare(verb)),
        [unit, rest @ ..] => match request(alloc, verb, unit, rest)? {
            Some(request) => Ok(Some(DriveLine::Submit { request })),
            None => Ok(None),
        },
    }
}

fn control(alloc: Global, verb: &[u8], fields: &[&[u8]]) -> Result<Option<DriveLine>, NoMemory>
    ensures line { IfOk result (λ o. o ≡ control_line verb.now (map (λ w. w.now) fields.now)) }
    ensures valid { IfOk result (λ o. IfSome o (λ l. IsValidLine l)) }
{
    if is_text(verb, b"tick") {
        Ok(tick(fields))
    } else if is_text(verb, b"abort") {
        Ok(abort(fields))
    } else if is_text(verb, b"reset-lun") {
        Ok(reset_lun(fields))
    } else {
        submit(alloc, verb, fields)
    }
}

fn by_verb(alloc: Global, verb: &[u8], fields: &[&[u8]]) -> Result<Option<DriveLine>, NoMemory>
    ensures line { IfOk result (λ o. o ≡ line_by verb.now (map (λ w. w.now) fields.now)) }
    ensures valid { IfOk result (λ o. IfSome o (λ l. IsValidLine l)) }
{
    if is_text(verb, b"recv") {
        recv(alloc, fields)
    } else if is_text(verb, b"send") {
        Ok(send(fields))
    } else if is_text(verb, b"login") {
        Ok(login(fields))
    } else if is_text(verb, b"set") {
        set(alloc, fields)
    } else {
        control(alloc, verb, fields)
    }
}

fn by_words(alloc: Global, words: &[&[u8]]) -> Result<Option<DriveLine>, NoMemory>
    ensures line { IfOk result (λ o. o ≡ line_of_words (map (λ w. w.now) words.now)) }
    ensures valid { IfOk result (λ o. IfSome o (λ l. IsValidLine l)) }
{
    match words {
        [verb, fields @ ..] => by_verb(alloc, verb, fields),
        [] => Ok(None),
    }
}

/// Reads one line, without its line feed.
#[tactic(auto, unfolding(crate::specs::Lines::drive_line))]
pub fn read_drive(alloc: Global, line: &[u8]) -> Result<DriveLine, LineFault>
    ensures line { IsReading (drive_line line.now) result }
    ensures valid { IfOk result (λ l. IsValidLine l) }
{
    if is_skipped(line) {
        return Ok(DriveLine::Skip);
    }
    let words = words(alloc, line)?;
    match by_words(alloc, &words)? {
        Some(line) => Ok(line),
        None => Err(LineFault::Bad),
    }
}
