ghost use Rattle.std.specs.Prelude.{◌≡◌, ◌<◌, ◌&&◌, not, IfOk, OnOk, OnErr, []};
ghost use Rattle.oi_history.specs.Tasks.{data_reply, is_live_on, is_waiting, is_done, issued, residual_of, scsi_reply, settled, tries_of, with_piece};

use crate::fate::{Fate, Outcome};
use crate::task::{Received, Task};
use oi_base::{Blob, NoMemory, Tag};
use oi_pdu::{DataIn, ScsiResponse};
use oi_recovery::{Aim, Hit, Next, Residual, Stand, after};
use oi_scsi::sense_of;
use std::alloc::Global;
use std::mem;

/// What a reply of the target says (RFC 7143, section 11.4).
#[derive(Debug, Drop, PartialEq, Eq)]
pub struct ReplyData {
    pub response: u8,
    pub status: u8,
    pub residual: Residual,
    pub sense: Blob,
}

pub fn is_live_on(fate: &Fate, tag: Tag) -> bool
    ensures { result ≡ is_live_on tag.0 fate.now }
{
    match fate {
        Fate::Live { tag: mine, .. } => mine.0 == tag.0,
        _ => false,
    }
}

pub fn is_waiting(fate: &Fate) -> bool
    ensures { result ≡ is_waiting fate.now }
{
    match fate {
        Fate::Waiting { .. } => true,
        _ => false,
    }
}

pub fn is_done(fate: &Fate) -> bool
    ensures { result ≡ is_done fate.now }
{
    match fate {
        Fate::Done { .. } => true,
        _ => false,
    }
}

pub fn tries_of(fate: &Fate) -> u8
    ensures { result ≡ tries_of fate.now }
{
    match fate {
        Fate::Waiting { tries } | Fate::Live { tries, .. } => *tries,
        Fate::Done { .. } => 0,
    }
}

fn residual(over: bool, under: bool, count: u32) -> Residual
    ensures { result ≡ residual_of over under count }
{
    if under {
        Residual::Under(count)
    } else if over {
        Residual::Over(count)
    } else {
        Residual::Exact
    }
}

pub fn data_reply(alloc: Global, h: DataIn) -> ReplyData
    ensures { result ≡ data_reply h }
{
    ReplyData {
        response: 0,
        status: h.status,
        residual: residual(h.over, h.under, h.residual),
        sense: Blob::new(alloc),
    }
}

pub fn scsi_reply(alloc: Global, h: ScsiResponse, payload: &[u8]) -> Result<ReplyData, NoMemory>
    ensures { IfOk result (λ r. r ≡ scsi_reply h payload.now) }
{
    let sense = Blob::from_slice(alloc, sense_of(payload))?;
    Ok(ReplyData {
        response: h.response,
        status: h.status,
        residual: residual(h.over, h.under, h.residual),
        sense,
    })
}

/// The command of a submission goes out.
pub fn issue(task: &mut Task, generation: u64, tag: Tag)
    requires { tries_of task.old.fate < 255 }
    ensures { task.new ≡ issued generation tag task.old }
{
    let tries = tries_of(&task.fate) + 1;
    task.fate = Fate::Live {
        generation,
        tag,
        tries,
    };
}

pub fn settle(task: &mut Task, alloc: Global, at: u64, reply: ReplyData, next: Next)
    ensures { task.new ≡ settled at reply task.old next }
{
    match next {
        Next::Stay => {}
        Next::Wait { tries } => start_again(task, alloc, Fate::Waiting { tries }),
        Next::Answer => {
            let got = mem::replace(&mut task.got, Received::new(alloc)).into_blob();
            let outcome = Outcome::Answered {
                status: reply.status,
                residual: reply.residual,
                sense: reply.sense,
                got,
            };
            task.fate = Fate::Done { outcome, at };
            task.pieces = 0;
        }
        Next::Host(code) => {
            let outcome = Outcome::Host(code);
            start_again(task, alloc, Fate::Done { outcome, at });
        }
    }
}

// Another state, without the data of the try that is over.
pub fn start_again(task: &mut Task, alloc: Global, fate: Fate)
    ensures { task.new ≡ record task.old { fate = fate; got = []; pieces = 0 } }
{
    task.fate = fate;
    task.got = Received::new(alloc);
    task.pieces = 0;
}

pub fn take_piece(task: &mut Task, payload: &[u8]) -> Result<(), NoMemory>
    ensures ok { OnOk result (task.new ≡ with_piece payload.now task.old) }
    ensures err { OnErr result (task.new ≡ task.old) }
{
    task.got.append(payload)?;
    task.pieces = task.pieces.wrapping_add(1);
    Ok(())
}
