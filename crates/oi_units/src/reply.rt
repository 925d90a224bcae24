ghost use Rattle.std.specs.Prelude.{◌≡◌, ◌<◌, ◌^◌, [], IfNone, IfOk, IfSome, None, Some, length};
ghost use Rattle.oi_base.specs.Counts.{told};
ghost use Rattle.oi_units.specs.Replies.{conflict_answer, reserve_answer, reply_of, residual_of};
ghost use Rattle.oi_units.specs.Units.{lent_reply};

use crate::command::UnitCommand;
use oi_base::{Blob, NoMemory};
use oi_disk::{DiskAnswer, good, illegal_request};
use oi_recovery::Residual;
use oi_reserve::ReserveAnswer;
use std::alloc::Global;

/// What a command is answered: its status and sense data, its residual count, and the data for the initiator.
#[derive(Debug, Drop, PartialEq, Eq)]
pub struct UnitReply {
    pub status: u8,
    pub sense: Blob,
    pub residual: Residual,
    pub sent: Blob,
}

/// RESERVATION CONFLICT, which has no sense data.
pub fn conflict_answer(alloc: Global) -> DiskAnswer
    ensures { result ≡ conflict_answer }
{
    DiskAnswer {
        status: 0x18,
        sense: Blob::new(alloc),
    }
}

/// Status and sense data for what the reservations answer.
pub fn reserve_answer(alloc: Global, answer: ReserveAnswer) -> Result<DiskAnswer, NoMemory>
    ensures { IfOk result (λ a. a ≡ reserve_answer answer) }
{
    match answer {
        ReserveAnswer::Good => Ok(good(alloc)),
        ReserveAnswer::Conflict => Ok(conflict_answer(alloc)),
        ReserveAnswer::Check { asc } => illegal_request(alloc, asc),
    }
}

/// The reply to a command that was answered so, with the data that it gave, which are cut at what may be sent.
pub fn reply_of(command: UnitCommand, answer: DiskAnswer, mut bytes: Vec<u8>) -> UnitReply
    ensures reply { result ≡ reply_of command answer bytes.items }
    ensures size { length result.sent < 2 ^ 32 }
{
    let residual = residual_of(command, answer.status, bytes.len());
    bytes.truncate(command.sendable() as usize);
    UnitReply {
        status: answer.status,
        sense: answer.sense,
        residual,
        sent: Blob::from_vec(bytes),
    }
}

/// The data that a READ is sent, as they lie in its disk, and the residual count. Status GOOD comes with them.
#[derive(Clone, Copy, Debug)]
pub struct Lent<'a> {
    pub bytes: &'a [u8],
    pub residual: Residual,
}

/// So much of these bytes of a disk as may be sent; None where that is nothing.
pub fn lent_part(command: UnitCommand, bytes: &[u8]) -> Option<Lent<'_>>
    ensures some { IfSome result (λ l. lent_reply command (Some bytes.now) ≡ Some (record { status = 0; sense = []; residual = l.residual; sent = l.bytes.now })) }
    ensures none { IfNone result (lent_reply command (Some bytes.now) ≡ None) }
    ensures size { IfSome result (λ l. (0 < length l.bytes.now) × (length l.bytes.now < 2 ^ 32)) }
{
    let count = bytes.len().min(command.sendable() as usize);
    if count == 0 {
        return None;
    }
    Some(Lent {
        bytes: &bytes[..count],
        residual: residual_of(command, 0x00, bytes.len()),
    })
}

/// The residual count for a status and so many bytes of data.
fn residual_of(command: UnitCommand, status: u8, size: usize) -> Residual
    ensures { result ≡ residual_of command status size }
{
    let limit = command.sendable() as usize;
    if status != 0x00 {
        missing(command.expected())
    } else if size > limit {
        Residual::Over(told(size - limit))
    } else {
        missing((limit - size) as u32)
    }
}

fn missing(count: u32) -> Residual
    ensures { result ≡ Rattle.oi_units.specs.Replies.missing count }
{
    if count == 0 {
        Residual::Exact
    } else {
        Residual::Under(count)
    }
}

fn told(count: usize) -> u32
    ensures { result ≡ told count }
{
    count.min(0xffff_ffff) as u32
}
