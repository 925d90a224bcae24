ghost use Rattle.std.specs.Prelude.{◌≡◌, ◌++◌, ◌≤◌, ◌<◌, ◌+◌, ◌^◌, IfOk, OnErr, OnOk, drop, length};
ghost use Rattle.oi_target_login.specs.Grown.{IsGrown};
ghost use Rattle.oi_target_session.specs.Answers.{bytes_of};
ghost use Rattle.oi_target_session.specs.Sequences.{AreLimits, data_pdus, piece_head, piece_size, room_for};

use crate::answers::{NO_LUN, NO_TAG, is_over, is_under, residual_count};
use crate::limits::{Limits, Numbers};
use crate::parts::{after, write_parts};
use oi_base::{NoMemory, Serial, Tag};
use oi_pdu::{DataIn, Header};
use oi_recovery::Residual;
use std::alloc::Global;

/// What all pieces of a command's data have in common.
#[derive(Clone, Copy, Debug, PartialEq, Eq)]
pub struct Source {
    pub limits: Limits,
    pub numbers: Numbers,
    pub tag: Tag,
    pub residual: Residual,
}

fn piece_size(limits: Limits, at: usize, left: usize) -> usize
    requires { AreLimits limits }
    ensures size { result ≡ piece_size limits at left }
    ensures most { result < 2 ^ 24 }
    ensures within { result ≤ left }
    ensures some { 1 ≤ left → 1 ≤ result }
{
    let burst = limits.max_burst as usize;
    (limits.max_send as usize).min(burst - at % burst).min(left)
}

// The header of the piece at the front of the data that are left.
fn piece_head(source: Source, number: u32, at: u32, left: usize) -> Header
    requires limits { AreLimits source.limits }
    requires end { at + left < 2 ^ 32 }
    ensures { result ≡ piece_head source.limits source.numbers source.tag source.residual number at left }
{
    let burst = source.limits.max_burst as usize;
    let size = piece_size(source.limits, at as usize, left);
    let ends = size == left;
    let residual = if ends {
        source.residual
    } else {
        Residual::Exact
    };
    Header::DataIn(DataIn {
        last: (at as usize + size) % burst == 0 || ends,
        over: is_over(residual),
        under: is_under(residual),
        ends,
        status: 0,
        lun: NO_LUN,
        tag: source.tag,
        ttt: NO_TAG,
        stat: if ends { source.numbers.stat } else { Serial(0) },
        exp: source.numbers.exp,
        max: source.numbers.max(),
        number,
        offset: at,
        residual: residual_count(residual),
    })
}

// Room for the Data-In PDUs of so many bytes.
fn room_for(limits: Limits, size: usize) -> usize
    requires limits { AreLimits limits }
    requires most { size < 2 ^ 32 }
    ensures { result ≡ room_for limits size }
{
    let segments = size / limits.max_send as usize;
    let sequences = size / limits.max_burst as usize;
    size + (segments + sequences + 1) * 51
}

/// Appends the Data-In PDUs of a command that succeeded. Room is made for all of them first, so that no data are moved
/// once they are written.
pub fn write_data(
    alloc: Global,
    source: Source,
    bytes: &[u8],
    out: &mut Vec<u8>,
) -> Result<(), NoMemory>
    requires limits { AreLimits source.limits }
    requires most { length bytes.now < 2 ^ 32 }
    ensures out { OnOk result (out.new.items ≡ out.old.items ++ bytes_of (data_pdus source.limits source.numbers source.tag source.residual (length bytes.now) 0 0 bytes.now)) }
    ensures kept { OnErr result (IsGrown out.old.items out.new.items) }
{
    out.reserve(room_for(source.limits, bytes.len()))?;
    let mut rest = bytes;
    let mut at = 0u32;
    let mut number = 0u32;
    while !rest.is_empty() {
        let size = piece_size(source.limits, at as usize, rest.len());
        let head = piece_head(source, number, at, rest.len());
        write_parts(alloc, head, &rest[..size], out)?;
        at += size as u32;
        number = number.wrapping_add(1);
        rest = after(rest, size);
    }
    Ok(())
}
