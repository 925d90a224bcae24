ghost use Rattle.std.specs.Prelude.{◌≡◌};
ghost use Rattle.oi_recovery.specs.Recovery.{is_busy, is_free, lost, missing, recovery_table, waits_on};

use crate::{Aim, Hit, HostCode, Next, Residual, Stand};

const GOOD: u8 = 0x00;

const BUSY: u8 = 0x08;

const TASK_SET_FULL: u8 = 0x28;

/// What the event makes of a submission that may be tried so often.
pub fn after(stand: Stand, hit: Hit, allowed: u8) -> Next
    ensures { result ≡ recovery_table stand hit allowed }
{
    match stand {
        Stand::Waiting { tries: _ } => match hit {
            Hit::Lost {
                aim: _,
                at_once,
                counted: _,
            } => wait_on(at_once, Next::Stay),
            Hit::ReplacementPast => Next::Host(HostCode::FailFast),
            Hit::Aborted => Next::Host(HostCode::Abort),
            Hit::Ended => Next::Host(HostCode::NoConnect),
            Hit::Reply { .. } | Hit::AbortDone | Hit::ResetDone => Next::Stay,
        },
        Stand::Live { tries } => after_live(tries, hit, allowed),
    }
}

fn after_live(tries: u8, hit: Hit, allowed: u8) -> Next
    ensures { result ≡ recovery_table (Stand.Live tries) hit allowed }
{
    match hit {
        Hit::Reply {
            response,
            status,
            residual,
            length,
            placed,
            reads,
            aim,
        } => {
            if response != 0 {
                Next::Host(HostCode::Error)
            } else if is_busy(status) && tries < allowed && is_free(aim) {
                Next::Wait { tries }
            } else if length < missing(residual) {
                Next::Host(HostCode::BadTarget)
            } else if status == GOOD && reads && placed != length - missing(residual) {
                Next::Host(HostCode::Error)
            } else {
                Next::Answer
            }
        }
        Hit::AbortDone => Next::Host(HostCode::Abort),
        Hit::ResetDone => Next::Host(HostCode::Reset),
        Hit::Lost {
            aim,
            at_once,
            counted,
        } => after_loss(aim, at_once, counted, tries, allowed),
        Hit::ReplacementPast | Hit::Aborted => Next::Stay,
        Hit::Ended => Next::Host(HostCode::NoConnect),
    }
}

fn after_loss(aim: Aim, at_once: bool, counted: bool, tries: u8, allowed: u8) -> Next
    ensures { result ≡ lost aim at_once counted tries allowed }
{
    match aim {
        Aim::Abort => Next::Host(HostCode::Abort),
        Aim::Reset => Next::Host(HostCode::Reset),
        Aim::Free => {
            if !counted {
                let tries = tries.saturating_sub(1);
                wait_on(at_once, Next::Wait { tries })
            } else if tries < allowed {
                wait_on(at_once, Next::Wait { tries })
            } else {
                Next::Host(HostCode::Disrupted)
            }
        }
    }
}

fn wait_on(at_once: bool, next: Next) -> Next
    ensures { result ≡ waits_on at_once next }
{
    if at_once {
        Next::Host(HostCode::FailFast)
    } else {
        next
    }
}

fn is_busy(status: u8) -> bool
    ensures { result ≡ is_busy status }
{
    status == BUSY || status == TASK_SET_FULL
}

fn is_free(aim: Aim) -> bool
    ensures { result ≡ is_free aim }
{
    matches!(aim, Aim::Free)
}

// The bytes that a reply says are missing.
fn missing(residual: Residual) -> u32
    ensures { result ≡ missing residual }
{
    match residual {
        Residual::Under(n) => n,
        Residual::Exact | Residual::Over(_) => 0,
    }
}
