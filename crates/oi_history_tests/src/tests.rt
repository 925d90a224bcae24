ghost use Rattle.std.specs.Prelude.{ℤ, pos, negsuc, ◌≤ℤ◌};
ghost use Rattle.oi_history.specs.Configs.{IsValidConfig};
ghost use Rattle.oi_history.specs.Ledgers.{CanStep};
ghost use Rattle.oi_history.specs.Meanings.{Meanings};

use crate::trace_tests::judge;
use oi_base::{Blob, Params, Serial, Tag};
use oi_history::*;
use oi_pdu::{Header, Pdu, TaskResponse};
use oi_recovery::HostCode;
use oi_scsi::{Kind, Request};
use std::alloc::Global;
use std::process::Abort;
use std::test::Fail;

pub(crate) fn config(replacement: i32) -> SessionConfig
    requires { (negsuc 0 ≤ℤ replacement) × (replacement ≤ℤ pos 86400) }
    ensures { IsValidConfig result }
{
    SessionConfig {
        sid: 1,
        tries: 6,
        replacement,
        noop_interval: 5,
        noop_timeout: 5,
        abort: 15,
        lun_reset: 30,
        target_reset: 30,
        logout: 15,
        cmds_max: 128,
        steps: 1_000_000,
        kept: 134_217_728,
        queue_depth: 1024,
        count_disrupted: true,
    }
}

fn response(alloc: Global, tag: u32, response: u8) -> Event {
    Event::PduIn {
        generation: 1,
        pdu: Pdu {
            head: Header::TaskResponse(TaskResponse {
                response,
                tag: Tag(tag),
                stat: Serial(5),
                exp: Serial(2),
                max: Serial(33),
            }),
            payload: Blob::new(alloc),
        },
    }
}

// A read of unit 3 whose command is out, its abort, and what follows.
fn aborted(alloc: Global, follow: Vec<Event>) -> Result<Vec<Event>, Fail> {
    let request = Request {
        lun: 3,
        kind: Kind::Read { lba: 0, blocks: 1 },
    };
    let issue = Event::Issue {
        id: 0,
        generation: 1,
        tag: Tag(0),
        cmdsn: 1,
    };
    let mut events = vec![in alloc;
        Event::Submit { id: 0, request },
        login(),
        issue,
        Event::Abort { id: 0 },
    ]?;
    for event in follow {
        events.push(event)?;
    }
    Ok(events)
}

fn manage(index: u32, function: u8, subject: Subject) -> Event {
    Event::Manage {
        generation: 1,
        tag: Tag(0x0800_0000 | index),
        function,
        subject,
    }
}

// An abort that is not answered in 15 seconds, a reset of its unit that fails, and one of the target that is not
// answered in 30 seconds.
#[test]
fn error_handler_escalates(rt: HostRuntime) -> Result<(), Fail> {
    let a = rt.alloc();
    let abort = || manage(0, 1, Subject::Task(0));
    let unit = || manage(1, 5, Subject::Lun(3));
    let target = || manage(2, 6, Subject::Whole);
    let tick = |now| Event::Tick { now };
    let spent = || Event::Lost {
        generation: 1,
        cause: LostCause::Handler,
    };
    for (follow, rule) in [
        (vec![in a; tick(14_999), abort()]?, None),
        (vec![in a; abort(), tick(14_999), unit()]?, Some(9)),
        (vec![in a; abort(), tick(15_000), unit()]?, None),
        (
            vec![in a; abort(), tick(15_000), unit(), target()]?,
            Some(9),
        ),
        (
            vec![in a;
                abort(),
                tick(15_000),
                unit(),
                response(a, 0x0800_0001, 255),
                target(),
            ]?,
            None,
        ),
        (
            vec![in a;
                abort(),
                tick(15_000),
                unit(),
                response(a, 0x0800_0001, 255),
                target(),
                tick(44_999),
                spent(),
            ]?,
            Some(11),
        ),
        (
            vec![in a;
                abort(),
                tick(15_000),
                unit(),
                response(a, 0x0800_0001, 255),
                target(),
                tick(45_000),
                spent(),
            ]?,
            None,
        ),
    ] {
        judge(&rt, a, aborted(a, follow)?, rule)?;
    }
    Ok(())
}

fn loses(
    rt: &impl Abort,
    alloc: Global,
    replacement: i32,
    lost: Phase,
    late: Phase,
    over: Phase,
) -> Result<(), Fail>
    requires { (negsuc 0 ≤ℤ replacement) × (replacement ≤ℤ pos 86400) }
{
    let mut ledger = Ledger::new(alloc, config(replacement))?;
    ledger.step(&Numbered {
        number: 0,
        event: login(),
    })?;
    ledger.step(&Numbered {
        number: 1,
        event: Event::Tick { now: 1000 },
    })?;
    ledger.step(&Numbered {
        number: 2,
        event: cut(),
    })?;
    assert_eq!(rt; ledger.phase(), lost);
    ledger.step(&Numbered {
        number: 3,
        event: Event::Tick { now: 120_999 },
    })?;
    assert_eq!(rt; ledger.phase(), late);
    ledger.step(&Numbered {
        number: 4,
        event: Event::Tick { now: 121_000 },
    })?;
    assert_eq!(rt; ledger.phase(), over);
    Ok(())
}

// The time for a new connection: 120 seconds, none, and no end.
#[test]
fn replacement_time(rt: HostRuntime) -> Result<(), Fail> {
    let recovering = Phase::Recovering { since: 1000 };
    let fail_fast = Phase::FailFast { since: 1000 };
    let a = rt.alloc();
    loses(&rt, a, 120, recovering, recovering, fail_fast)?;
    loses(&rt, a, 0, fail_fast, fail_fast, fail_fast)?;
    loses(&rt, a, -1, recovering, recovering, recovering)
}

// A request that waits fails when the time for a new connection is over, and one that comes in then fails at once.
#[test]
fn requests_without_a_connection(rt: HostRuntime) -> Result<(), Fail> {
    let mut ledger = Ledger::new(rt.alloc(), config(120))?;
    ledger.step(&Numbered {
        number: 0,
        event: submit(0),
    })?;
    ledger.step(&Numbered {
        number: 1,
        event: login(),
    })?;
    ledger.step(&Numbered {
        number: 2,
        event: cut(),
    })?;
    assert_eq!(rt; ledger.phase(), Phase::Recovering { since: 0 });
    ledger.step(&Numbered {
        number: 3,
        event: Event::Tick { now: 120_000 },
    })?;
    assert_eq!(rt; ledger.phase(), Phase::FailFast { since: 0 });
    ledger.step(&Numbered {
        number: 4,
        event: submit(1),
    })?;
    assert!(rt; ledger.task(0).is_some_and(|t| t.fate == failed(3)));
    assert!(rt; ledger.task(1).is_some_and(|t| t.fate == failed(4)));
    Ok(())
}

pub(crate) fn submit(id: u64) -> Event
    ensures { (m : Meanings) → CanStep m result }
{
    let request = Request {
        lun: 0,
        kind: Kind::Read { lba: 0, blocks: 1 },
    };
    Event::Submit { id, request }
}

pub(crate) fn login() -> Event
    ensures { (m : Meanings) → CanStep m result }
{
    Event::Login {
        generation: 1,
        params: Params {
            initial_r2t: true,
            immediate: true,
            max_send: 8192,
            max_recv: 262_144,
            max_burst: 262_144,
            first_burst: 65_536,
            outstanding: 1,
            time2wait: 2,
            time2retain: 20,
        },
        cmdsn: 1,
        max: 32,
        exp_stat: 5,
    }
}

pub(crate) fn cut() -> Event
    ensures { (m : Meanings) → CanStep m result }
{
    Event::Lost {
        generation: 1,
        cause: LostCause::Cut,
    }
}

fn failed(at: u64) -> Fate {
    Fate::Done {
        outcome: Outcome::Host(HostCode::FailFast),
        at,
    }
}
