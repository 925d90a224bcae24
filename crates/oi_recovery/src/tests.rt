use crate::{Aim, Hit, HostCode, Next, Residual, Stand, after};
use std::process::Abort;

const WAITING: Stand = Stand::Waiting { tries: 2 };

const LIVE: Stand = Stand::Live { tries: 2 };

const LAST_TRY: Stand = Stand::Live { tries: 6 };

// A reply to a read of 4096 bytes.
fn reply(response: u8, status: u8, residual: Residual, placed: u32, aim: Aim) -> Hit {
    Hit::Reply {
        response,
        status,
        residual,
        length: 4096,
        placed,
        reads: true,
        aim,
    }
}

fn lost(aim: Aim, at_once: bool, counted: bool) -> Hit {
    Hit::Lost {
        aim,
        at_once,
        counted,
    }
}

fn compare(rt: &impl Abort, rows: &[(Stand, Hit, Next)]) {
    for (stand, hit, next) in rows {
        assert_eq!(rt; after(*stand, *hit, 6), *next, "{stand:?} at {hit:?}");
    }
}

#[test]
fn replies(rt: HostRuntime) {
    let again = Next::Wait { tries: 2 };
    let error = Next::Host(HostCode::Error);
    let bad_target = Next::Host(HostCode::BadTarget);
    let good = reply(0, 0, Residual::Exact, 4096, Aim::Free);
    let write = Hit::Reply {
        response: 0,
        status: 0,
        residual: Residual::Exact,
        length: 4096,
        placed: 0,
        reads: false,
        aim: Aim::Free,
    };
    compare(
        &rt,
        &[
            (WAITING, good, Next::Stay),
            (LIVE, reply(1, 0, Residual::Exact, 4096, Aim::Free), error),
            (
                LIVE,
                reply(1, 0x08, Residual::Under(5000), 0, Aim::Free),
                error,
            ),
            (
                LIVE,
                reply(0, 0x08, Residual::Under(5000), 0, Aim::Free),
                again,
            ),
            (LIVE, reply(0, 0x28, Residual::Exact, 0, Aim::Free), again),
            (
                LAST_TRY,
                reply(0, 0x08, Residual::Exact, 0, Aim::Free),
                Next::Answer,
            ),
            (
                LIVE,
                reply(0, 0x08, Residual::Exact, 0, Aim::Abort),
                Next::Answer,
            ),
            (
                LIVE,
                reply(0, 0x28, Residual::Exact, 0, Aim::Reset),
                Next::Answer,
            ),
            (
                LIVE,
                reply(0, 0, Residual::Under(4097), 0, Aim::Free),
                bad_target,
            ),
            (
                LIVE,
                reply(0, 2, Residual::Under(4097), 0, Aim::Free),
                bad_target,
            ),
            (LIVE, reply(0, 0, Residual::Exact, 0, Aim::Free), error),
            (
                LIVE,
                reply(0, 0, Residual::Under(4000), 95, Aim::Free),
                error,
            ),
            (
                LIVE,
                reply(0, 0, Residual::Under(4000), 96, Aim::Free),
                Next::Answer,
            ),
            (
                LIVE,
                reply(0, 0, Residual::Under(4096), 0, Aim::Free),
                Next::Answer,
            ),
            (
                LIVE,
                reply(0, 0, Residual::Over(512), 4096, Aim::Free),
                Next::Answer,
            ),
            (
                LIVE,
                reply(0, 2, Residual::Exact, 0, Aim::Free),
                Next::Answer,
            ),
            (LIVE, write, Next::Answer),
            (LIVE, good, Next::Answer),
        ],
    );
}

#[test]
fn losses(rt: HostRuntime) {
    let abort = Next::Host(HostCode::Abort);
    let reset = Next::Host(HostCode::Reset);
    let disrupted = Next::Host(HostCode::Disrupted);
    let fail_fast = Next::Host(HostCode::FailFast);
    let none_used = Stand::Live { tries: 0 };
    compare(
        &rt,
        &[
            (WAITING, lost(Aim::Free, false, true), Next::Stay),
            (WAITING, lost(Aim::Free, true, false), fail_fast),
            (LIVE, lost(Aim::Abort, true, true), abort),
            (LIVE, lost(Aim::Reset, true, false), reset),
            (LIVE, lost(Aim::Free, false, false), Next::Wait { tries: 1 }),
            (
                none_used,
                lost(Aim::Free, false, false),
                Next::Wait { tries: 0 },
            ),
            (
                LAST_TRY,
                lost(Aim::Free, false, false),
                Next::Wait { tries: 5 },
            ),
            (LIVE, lost(Aim::Free, false, true), Next::Wait { tries: 2 }),
            (LAST_TRY, lost(Aim::Free, false, true), disrupted),
            (LAST_TRY, lost(Aim::Free, true, true), disrupted),
            (LIVE, lost(Aim::Free, true, true), fail_fast),
            (LAST_TRY, lost(Aim::Free, true, false), fail_fast),
        ],
    );
}

#[test]
fn other_events(rt: HostRuntime) {
    let abort = Next::Host(HostCode::Abort);
    let reset = Next::Host(HostCode::Reset);
    let fail_fast = Next::Host(HostCode::FailFast);
    let no_connect = Next::Host(HostCode::NoConnect);
    compare(
        &rt,
        &[
            (WAITING, Hit::AbortDone, Next::Stay),
            (LIVE, Hit::AbortDone, abort),
            (WAITING, Hit::ResetDone, Next::Stay),
            (LIVE, Hit::ResetDone, reset),
            (WAITING, Hit::ReplacementPast, fail_fast),
            (LIVE, Hit::ReplacementPast, Next::Stay),
            (WAITING, Hit::Aborted, abort),
            (LIVE, Hit::Aborted, Next::Stay),
            (WAITING, Hit::Ended, no_connect),
            (LIVE, Hit::Ended, no_connect),
        ],
    );
}

// The numbers of Linux's include/scsi/scsi_status.h.
#[test]
fn host_numbers(rt: HostRuntime) {
    for (code, number) in [
        (HostCode::NoConnect, 0x01),
        (HostCode::BadTarget, 0x04),
        (HostCode::Abort, 0x05),
        (HostCode::Error, 0x07),
        (HostCode::Reset, 0x08),
        (HostCode::Disrupted, 0x0e),
        (HostCode::FailFast, 0x0f),
    ] {
        assert_eq!(rt; code.number(), number, "{code:?}");
    }
}
