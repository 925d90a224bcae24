ghost use Rattle.std.specs.Prelude.{◌≡◌, ◌≤◌, ◌<◌, ◌^◌, IfOk, length};
ghost use Rattle.oi_target_session.specs.Answers.{echo_pdu, is_over, is_under, logout_pdu, r2t_pdu, residual_count, response_pdu, sense_segment, task_response_pdu, text_pdu};

use crate::limits::Numbers;
use oi_base::{Blob, NoMemory, Tag};
use oi_pdu::{Header, LogoutResponse, NopIn, Pdu, R2t, ScsiResponse, TaskResponse, TextResponse};
use oi_recovery::Residual;
use oi_target_tasks::Task;
use oi_units::UnitReply;
use std::alloc::Global;

pub const NO_LUN: [u8; 8] = [0; 8];

pub const NO_TAG: u32 = 0xffff_ffff;

pub fn is_over(residual: Residual) -> bool
    ensures { result ≡ is_over residual }
{
    match residual {
        Residual::Over(_) => true,
        Residual::Exact | Residual::Under(_) => false,
    }
}

pub fn is_under(residual: Residual) -> bool
    ensures { result ≡ is_under residual }
{
    match residual {
        Residual::Under(_) => true,
        Residual::Exact | Residual::Over(_) => false,
    }
}

pub fn residual_count(residual: Residual) -> u32
    ensures { result ≡ residual_count residual }
{
    match residual {
        Residual::Exact => 0,
        Residual::Under(count) | Residual::Over(count) => count,
    }
}

fn sense_segment(alloc: Global, sense: &[u8]) -> Result<Blob, NoMemory>
    ensures value { IfOk result (λ b. b ≡ sense_segment sense.now) }
    ensures size { IfOk result (λ b. length b < 2 ^ 24) }
{
    if sense.is_empty() {
        return Ok(Blob::new(alloc));
    }
    let size = sense.len().min(65535);
    let mut segment = Vec::new(alloc);
    segment.extend_from_slice(&(size as u16).to_be_bytes())?;
    segment.extend_from_slice(&sense[..size])?;
    Ok(Blob::from_vec(segment))
}

/// The status of a command, which follows no Data-In.
pub fn response_pdu(
    alloc: Global,
    numbers: Numbers,
    task: &Task,
    reply: &UnitReply,
) -> Result<Pdu, NoMemory>
    ensures value { IfOk result (λ p. p ≡ response_pdu numbers task.now reply.now) }
    ensures size { IfOk result (λ p. length p.payload < 2 ^ 24) }
{
    let payload = sense_segment(alloc, reply.sense.as_slice())?;
    let head = Header::ScsiResponse(ScsiResponse {
        over: is_over(reply.residual),
        under: is_under(reply.residual),
        response: 0,
        status: reply.status,
        tag: task.tag,
        stat: numbers.stat,
        exp: numbers.exp,
        max: numbers.max(),
        exp_number: 0,
        residual: residual_count(reply.residual),
    });
    Ok(Pdu { head, payload })
}

/// The R2T that a task has open.
pub fn r2t_pdu(alloc: Global, numbers: Numbers, task: &Task, end: u32) -> Pdu
    requires end { end ≡ task.now.end }
    requires some { length task.now.payload ≤ end }
    ensures { result ≡ r2t_pdu numbers task.now }
{
    let offset = task.payload.as_slice().len() as u32;
    let head = Header::R2t(R2t {
        lun: task.command.lun,
        tag: task.tag,
        ttt: task.transfer,
        stat: numbers.stat,
        exp: numbers.exp,
        max: numbers.max(),
        number: task.asked.wrapping_sub(1),
        offset,
        length: end - offset,
    });
    Pdu {
        head,
        payload: Blob::new(alloc),
    }
}

/// A NOP-In for a NOP-Out.
pub fn echo_pdu(numbers: Numbers, tag: Tag, payload: Blob) -> Pdu
    ensures { result ≡ echo_pdu numbers tag payload }
{
    let head = Header::NopIn(NopIn {
        lun: NO_LUN,
        tag,
        ttt: NO_TAG,
        stat: numbers.stat,
        exp: numbers.exp,
        max: numbers.max(),
    });
    Pdu { head, payload }
}

/// The answer to task management.
pub fn task_response_pdu(alloc: Global, numbers: Numbers, tag: Tag, response: u8) -> Pdu
    ensures { result ≡ task_response_pdu numbers tag response }
{
    let head = Header::TaskResponse(TaskResponse {
        response,
        tag,
        stat: numbers.stat,
        exp: numbers.exp,
        max: numbers.max(),
    });
    Pdu {
        head,
        payload: Blob::new(alloc),
    }
}

/// The answer to a logout.
pub fn logout_pdu(alloc: Global, numbers: Numbers, tag: Tag) -> Pdu
    ensures { result ≡ logout_pdu numbers tag }
{
    let head = Header::LogoutResponse(LogoutResponse {
        response: 0,
        tag,
        stat: numbers.stat,
        exp: numbers.exp,
        max: numbers.max(),
        time2wait: 0,
        time2retain: 0,
    });
    Pdu {
        head,
        payload: Blob::new(alloc),
    }
}

/// A part of a discovery's text. Where more of it is to come, of either side, the initiator asks again under transfer tag 1.
pub fn text_pdu(numbers: Numbers, tag: Tag, more: bool, unended: bool, payload: Blob) -> Pdu
    ensures { result ≡ text_pdu numbers tag more unended payload }
{
    let head = Header::TextResponse(TextResponse {
        last: !unended,
        more,
        lun: NO_LUN,
        tag,
        ttt: if unended { 1 } else { NO_TAG },
        stat: numbers.stat,
        exp: numbers.exp,
        max: numbers.max(),
    });
    Pdu { head, payload }
}
