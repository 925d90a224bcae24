ghost use Rattle.std.specs.Prelude.{◌≡◌, OnErr, OnOk};
ghost use Rattle.oi_history.specs.Blows.{blow_by};
ghost use Rattle.oi_history.specs.Handling.{aim_of};
ghost use Rattle.oi_history.specs.Recovering.{answered_by, got_data, got_response, hit_by, lost_by, moved_by, reset_by, submitted_in};

use crate::command::Command;
use crate::course::is_fail_fast;
use crate::fate::{Fate, Outcome};
use crate::handling::aim_of;
use crate::phase::{Handler, Phase};
use crate::reply::{
    ReplyData, data_reply, is_live_on, scsi_reply, settle, start_again, take_piece, tries_of,
};
use crate::task::Task;
use oi_base::NoMemory;
use oi_pdu::{DataIn, ScsiResponse};
use oi_recovery::{Aim, Hit, HostCode, Next, Stand, after};
use std::alloc::Global;

/// What befalls submissions that is no reply to them.
#[derive(Clone, Copy, Debug)]
pub enum Blow {
    Struck(Hit),
    /// The reset of a logical unit.
    Reset {
        lun: u8,
    },
    /// The loss of the connection, while the error handler does this.
    Loss {
        handler: Handler,
        at_once: bool,
        counted: bool,
    },
}

// What the recovery table says.
fn move_by(task: &mut Task, alloc: Global, at: u64, next: Next)
    ensures { task.new ≡ moved_by at task.old next }
{
    match next {
        Next::Wait { tries } => start_again(task, alloc, Fate::Waiting { tries }),
        Next::Host(code) => start_again(
            task,
            alloc,
            Fate::Done {
                outcome: Outcome::Host(code),
                at,
            },
        ),
        Next::Stay | Next::Answer => {}
    }
}
/// What befalls a submission that is no reply to it.
fn hit(task: &mut Task, alloc: Global, allowed: u8, at: u64, hit: Hit)
    ensures { task.new ≡ hit_by allowed at hit task.old }
{
    let stand = match &task.fate {
        Fate::Waiting { tries } => Stand::Waiting { tries: *tries },
        Fate::Live { tries, .. } => Stand::Live { tries: *tries },
        Fate::Done { .. } => return,
    };
    move_by(task, alloc, at, after(stand, hit, allowed));
}

fn answer(task: &mut Task, alloc: Global, allowed: u8, at: u64, aim: Aim, reply: ReplyData)
    ensures { task.new ≡ answered_by allowed at aim reply task.old }
{
    let hit = Hit::Reply {
        response: reply.response,
        status: reply.status,
        residual: reply.residual,
        length: task.command.length,
        placed: task.got.count(),
        reads: task.command.reads,
        aim,
    };
    let tries = tries_of(&task.fate);
    let next = after(Stand::Live { tries }, hit, allowed);
    settle(task, alloc, at, reply, next);
}

/// A Data-In, while the error handler aims so.
pub fn data_to(
    task: &mut Task,
    alloc: Global,
    allowed: u8,
    at: u64,
    aim: Aim,
    h: DataIn,
    payload: &[u8],
) -> Result<(), NoMemory>
    ensures ok { OnOk result (task.new ≡ got_data allowed at aim h payload.now task.old) }
    ensures err { OnErr result (task.new ≡ task.old) }
{
    if !is_live_on(&task.fate, h.tag) {
        return Ok(());
    }
    take_piece(task, payload)?;
    if h.ends {
        answer(task, alloc, allowed, at, aim, data_reply(alloc, h));
    }
    Ok(())
}

/// A SCSI Response, while the error handler aims so.
pub fn response_to(
    task: &mut Task,
    alloc: Global,
    allowed: u8,
    at: u64,
    aim: Aim,
    h: ScsiResponse,
    payload: &[u8],
) -> Result<(), NoMemory>
    ensures ok { OnOk result (task.new ≡ got_response allowed at aim h payload.now task.old) }
    ensures err { OnErr result (task.new ≡ task.old) }
{
    if !is_live_on(&task.fate, h.tag) {
        return Ok(());
    }
    let reply = scsi_reply(alloc, h, payload)?;
    answer(task, alloc, allowed, at, aim, reply);
    Ok(())
}

// The reset of a logical unit.
fn reset(task: &mut Task, alloc: Global, allowed: u8, at: u64, lun: u8)
    ensures { task.new ≡ reset_by allowed at lun task.old }
{
    if task.command.lun == lun {
        hit(task, alloc, allowed, at, Hit::ResetDone);
    }
}

// The loss of the connection, for the submission with this id.
fn lose(
    task: &mut Task,
    alloc: Global,
    allowed: u8,
    at: u64,
    handler: Handler,
    at_once: bool,
    counted: bool,
    id: u64,
)
    ensures { task.new ≡ lost_by allowed at handler at_once counted id task.old }
{
    let aim = aim_of(handler, id, task);
    hit(
        task,
        alloc,
        allowed,
        at,
        Hit::Lost {
            aim,
            at_once,
            counted,
        },
    );
}

/// What befalls the submission with this id.
pub fn strike(task: &mut Task, alloc: Global, allowed: u8, at: u64, blow: Blow, id: u64)
    ensures { task.new ≡ blow_by allowed at blow id task.old }
{
    match blow {
        Blow::Struck(by) => hit(task, alloc, allowed, at, by),
        Blow::Reset { lun } => reset(task, alloc, allowed, at, lun),
        Blow::Loss {
            handler,
            at_once,
            counted,
        } => lose(task, alloc, allowed, at, handler, at_once, counted, id),
    }
}

/// A submission that comes in.
pub fn submitted(alloc: Global, phase: Phase, at: u64, command: Command) -> Task
    ensures { result ≡ submitted_in phase at command }
{
    let mut task = Task::new(alloc, command);
    if is_fail_fast(phase) {
        start_again(
            &mut task,
            alloc,
            Fate::Done {
                outcome: Outcome::Host(HostCode::FailFast),
                at,
            },
        );
    }
    task
}
