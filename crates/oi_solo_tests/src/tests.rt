ghost use Rattle.std.specs.Prelude.{◌≤◌, IfOk};
ghost use Rattle.oi_history.specs.Configs.{IsValidConfig};
ghost use Rattle.oi_scsi.specs.Requests.{IsValid};

use oi_base::{Blob, LoginDone, Params, Serial, Tag};
use oi_history::{
    Delivered, End, Event, Handler, LostCause, Outcome, Phase, SessionConfig, Subject,
};
use oi_pdu::{Header, Pdu, R2t, received};
use oi_recovery::{HostCode, Residual};
use oi_scsi::{Kind, Request};
use oi_solo::*;
use std::alloc::Global;
use std::process::Abort;
use std::test::Fail;

fn config() -> SessionConfig
    ensures { IsValidConfig result }
{
    SessionConfig {
        sid: 1,
        tries: 6,
        replacement: 120,
        noop_interval: 5,
        noop_timeout: 5,
        abort: 15,
        lun_reset: 30,
        target_reset: 30,
        logout: 15,
        cmds_max: 128,
        steps: 64,
        kept: 65_536,
        queue_depth: 32,
        count_disrupted: true,
    }
}

fn login(max: u32) -> LoginDone
    ensures { 1 ≤ result.params.max_send }
{
    LoginDone {
        params: Params {
            initial_r2t: true,
            immediate: false,
            max_send: 8192,
            max_recv: 262_144,
            max_burst: 262_144,
            first_burst: 65_536,
            outstanding: 1,
            time2wait: 2,
            time2retain: 20,
        },
        tsih: 1,
        cmdsn: 1,
        max,
        exp_stat: 5,
    }
}

fn capacity() -> Request
    ensures { IsValid result.kind }
{
    Request {
        lun: 0,
        kind: Kind::Capacity,
    }
}

// A session with one request, in the full feature phase of its first connection.
fn started(alloc: Global) -> Result<Solo, Fail> {
    let mut session = Solo::new(alloc, config())?;
    session.submit(capacity())?;
    session.logged_in(login(32))?;
    Ok(session)
}

// SCSI Data-In with 8 bytes and the status GOOD for tag 0.
const CAPACITY_REPLY: [u8; 48] = [
    0x25, 0x81, 0, 0, 0, 0, 0, 8, 0, 0, 0, 0, 0, 0, 0, 0, 0, 0, 0, 0, 0xff, 0xff, 0xff, 0xff, 0, 0,
    0, 5, 0, 0, 0, 2, 0, 0, 0, 0x21, 0, 0, 0, 0, 0, 0, 0, 0, 0, 0, 0, 0,
];

const CAPACITY_DATA: [u8; 8] = [0, 0, 3, 0xff, 0, 0, 2, 0];

fn capacity_reply(alloc: Global) -> Result<Pdu, Fail> {
    let payload = Blob::from_slice(alloc, &CAPACITY_DATA)?;
    Ok(received(&CAPACITY_REPLY, payload)?)
}

// READ CAPACITY(10) with tag 0, CmdSN 1 and ExpStatSN 5.
const CAPACITY_COMMAND: [u8; 48] = [
    1, 0xc1, 0, 0, 0, 0, 0, 0, 0, 0, 0, 0, 0, 0, 0, 0, 0, 0, 0, 0, 0, 0, 0, 8, 0, 0, 0, 1, 0, 0, 0,
    5, 0x25, 0, 0, 0, 0, 0, 0, 0, 0, 0, 0, 0, 0, 0, 0, 0,
];

fn issued(id: u64, generation: u64, tag: u32, cmdsn: u32) -> Transmit {
    Transmit::Sent(Event::Issue {
        id,
        generation,
        tag: Tag(tag),
        cmdsn,
    })
}

// The next turn of the connection ends so.
fn turns(
    rt: &impl Abort,
    session: &mut Solo,
    generation: u64,
    out: &mut Vec<u8>,
    wanted: Transmit,
) -> Result<(), Fail> {
    assert_eq!(rt; session.transmit_next(generation, out)?, wanted);
    Ok(())
}

// What becomes of the reply on the first connection.
fn hears(rt: &impl Abort, alloc: Global, session: &mut Solo, wanted: Received) -> Result<(), Fail> {
    let reply = capacity_reply(alloc)?;
    assert_eq!(rt; session.receive(1, reply)?, wanted);
    Ok(())
}

fn loses(
    rt: &impl Abort,
    session: &mut Solo,
    cause: LostCause,
    wanted: LostDone,
) -> Result<(), Fail> {
    assert_eq!(rt; session.lost(1, cause)?, wanted);
    Ok(())
}

// The only outcome is that of the first request.
fn delivers(
    rt: &impl Abort,
    alloc: Global,
    session: &mut Solo,
    outcome: Outcome,
) -> Result<(), Fail> {
    let mut outcomes = Vec::new(alloc);
    assert_eq!(rt; session.deliver(&mut outcomes)?, 1);
    assert!(rt; outcomes.first() == Some(&Delivered { id: 0, outcome }));
    Ok(())
}

fn answered(alloc: Global) -> Result<Outcome, Fail> {
    Ok(Outcome::Answered {
        status: 0,
        residual: Residual::Exact,
        sense: Blob::new(alloc),
        got: Blob::from_slice(alloc, &CAPACITY_DATA)?,
    })
}

#[test]
fn capacity_is_read(rt: HostRuntime) -> Result<(), Fail> {
    let mut session = started(rt.alloc())?;
    let mut out = Vec::new(rt.alloc());
    turns(&rt, &mut session, 1, &mut out, issued(0, 1, 0, 1))?;
    assert!(rt; out.as_slice() == CAPACITY_COMMAND.as_slice());
    turns(&rt, &mut session, 1, &mut out, Transmit::Idle)?;
    hears(&rt, rt.alloc(), &mut session, Received::Applied)?;
    let outcome = answered(rt.alloc())?;
    delivers(&rt, rt.alloc(), &mut session, outcome)
}

// A session whose first connection was cut after it sent the command, and that has a second one.
fn again(rt: &impl Abort, session: &mut Solo, out: &mut Vec<u8>) -> Result<(), Fail> {
    session.transmit_next(1, out)?;
    loses(rt, session, LostCause::Cut, LostDone::Lost)?;
    assert_eq!(rt; session.logged_in(login(32))?, 2);
    Ok(())
}

// The command is sent again on a new connection; a reply on the old one with the same tag counts for nothing.
#[test]
fn old_connection_is_stale(rt: HostRuntime) -> Result<(), Fail> {
    let mut session = started(rt.alloc())?;
    let mut out = Vec::new(rt.alloc());
    again(&rt, &mut session, &mut out)?;
    let current = 2;
    hears(&rt, rt.alloc(), &mut session, Received::Stale { current })?;
    assert_eq!(rt; session.pending(), 1);
    let changed = Transmit::Changed { current };
    turns(&rt, &mut session, 1, &mut out, changed)?;
    turns(&rt, &mut session, 2, &mut out, issued(0, 2, 0x1000_0000, 1))
}

fn write(alloc: Global) -> Result<Request, Fail>
    ensures { IfOk result (λ r. IsValid r.kind) }
{
    let payload = Blob::from_vec(vec![in alloc; 0x5au8; 512]?);
    Ok(Request {
        lun: 0,
        kind: Kind::Write {
            lba: 0,
            blocks: 1,
            payload,
        },
    })
}

fn r2t(alloc: Global) -> Pdu {
    Pdu {
        head: Header::R2t(R2t {
            lun: [0; 8],
            tag: Tag(0),
            ttt: 1,
            stat: Serial(5),
            exp: Serial(2),
            max: Serial(33),
            number: 0,
            offset: 0,
            length: 512,
        }),
        payload: Blob::new(alloc),
    }
}

// An R2T is taken up, and the data that it asks for follow.
#[test]
fn data_are_solicited(rt: HostRuntime) -> Result<(), Fail> {
    let mut session = Solo::new(rt.alloc(), config())?;
    session.submit(write(rt.alloc())?)?;
    session.logged_in(login(32))?;
    let mut out = Vec::new(rt.alloc());
    session.transmit_next(1, &mut out)?;
    session.receive(1, r2t(rt.alloc()))?;
    out.clear();
    let push = Event::Push {
        id: 0,
        generation: 1,
        ttt: 1,
        number: 0,
        offset: 0,
        length: 512,
        last: true,
    };
    turns(&rt, &mut session, 1, &mut out, Transmit::Sent(push))?;
    assert_eq!(rt; out.len(), 560);
    Ok(())
}

// No command is sent past MaxCmdSN.
#[test]
fn window_closes(rt: HostRuntime) -> Result<(), Fail> {
    let mut session = Solo::new(rt.alloc(), config())?;
    session.submit(capacity())?;
    session.submit(capacity())?;
    session.logged_in(login(1))?;
    let mut out = Vec::new(rt.alloc());
    turns(&rt, &mut session, 1, &mut out, issued(0, 1, 0, 1))?;
    turns(&rt, &mut session, 1, &mut out, Transmit::Idle)
}

fn ping_is_late(rt: &impl Abort, session: &mut Solo) -> Result<(), Fail> {
    loses(rt, session, LostCause::Ping, LostDone::NotSo)?;
    let late = Ticked {
        ping: true,
        handler: false,
    };
    assert_eq!(rt; session.tick(10_000)?, late);
    loses(rt, session, LostCause::Ping, LostDone::Lost)
}

#[test]
fn pings_are_timed(rt: HostRuntime) -> Result<(), Fail> {
    let mut session = Solo::new(rt.alloc(), config())?;
    session.logged_in(login(32))?;
    session.tick(5000)?;
    let mut out = Vec::new(rt.alloc());
    let ping = Event::Nop {
        generation: 1,
        tag: 0x0800_0000,
        ttt: u32::MAX,
        lun: [0; 8],
    };
    turns(&rt, &mut session, 1, &mut out, Transmit::Sent(ping))?;
    ping_is_late(&rt, &mut session)
}

fn refuses_controls(rt: &impl Abort, session: &mut Solo, refused: ControlRefused) {
    assert_eq!(rt; session.reset_lun(0), Err(refused));
    assert_eq!(rt; session.leave(), Err(refused));
}

#[test]
fn refusals_without_a_connection(rt: HostRuntime) -> Result<(), Fail> {
    let mut session = Solo::new(rt.alloc(), config())?;
    let mut out = Vec::new(rt.alloc());
    let phase = Phase::First;
    turns(
        &rt,
        &mut session,
        1,
        &mut out,
        Transmit::NotLoggedIn { phase },
    )?;
    let stale = LostDone::Stale { current: 0 };
    loses(&rt, &mut session, LostCause::Cut, stale)?;
    let unknown = AbortRefused::Unknown { submitted: 0 };
    assert_eq!(rt; session.abort(0), Err(unknown));
    refuses_controls(&rt, &mut session, ControlRefused::NotLoggedIn { phase });
    Ok(())
}

fn refuses_while(rt: &impl Abort, session: &mut Solo, running: Handler) {
    let logged_in = LoginRefused::LoggedIn { current: 1 };
    assert_eq!(rt; session.logged_in(login(32)), Err(logged_in));
    assert_eq!(rt; session.abort(0), Err(AbortRefused::Busy { running }));
    let busy = ControlRefused::Busy { running };
    assert_eq!(rt; session.reset_target(), Err(busy));
}

#[test]
fn refusals_on_a_connection(rt: HostRuntime) -> Result<(), Fail> {
    let mut session = started(rt.alloc())?;
    let mut out = Vec::new(rt.alloc());
    session.transmit_next(1, &mut out)?;
    session.abort(0)?;
    let running = Handler::Aborting {
        id: 0,
        tag: None,
        since: 0,
    };
    refuses_while(&rt, &mut session, running);
    let abort = Event::Manage {
        generation: 1,
        tag: Tag(0x0800_0000),
        function: 1,
        subject: Subject::Task(0),
    };
    turns(&rt, &mut session, 1, &mut out, Transmit::Sent(abort))
}

fn refuses_behind_the_end(rt: &impl Abort, session: &mut Solo, cause: End) {
    let again = AlreadyEnded { cause };
    assert_eq!(rt; session.terminate(End::InputEnd), Err(again));
    let submit = SubmitRefused::Ended { cause };
    assert_eq!(rt; session.submit(capacity()), Err(submit));
    let logged_in = LoginRefused::Ended { cause };
    assert_eq!(rt; session.logged_in(login(32)), Err(logged_in));
    assert_eq!(rt; session.abort(0), Err(AbortRefused::TooLate { at: 2 }));
}

// The run of one request that was answered so, with four entries.
fn tells_outcome(rt: &impl Abort, run: &Run) {
    assert_eq!(rt; (run.entries().len(), run.submitted()), (4, 1));
    let outcome = Outcome::Host(HostCode::NoConnect);
    assert!(rt; run.outcome(0) == Some(&outcome));
    assert!(rt; run.outcome(1).is_none());
}

fn copies_entries(rt: &impl Abort, alloc: Global, run: &Run) -> Result<(), Fail> {
    let copies = run.events(alloc)?;
    assert_eq!(rt; copies.as_slice().len(), run.entries().len());
    assert!(rt; copies.as_slice() == run.entries());
    Ok(())
}

#[test]
fn refusals_behind_the_end(rt: HostRuntime) -> Result<(), Fail> {
    let mut session = started(rt.alloc())?;
    assert_eq!(rt; session.terminate(End::Asked), Ok(()));
    refuses_behind_the_end(&rt, &mut session, End::Asked);
    let outcome = Outcome::Host(HostCode::NoConnect);
    delivers(&rt, rt.alloc(), &mut session, outcome)?;
    let run = session.close();
    tells_outcome(&rt, &run);
    copies_entries(&rt, rt.alloc(), &run)
}

// Sixteen entries of each half are kept back for the end.
#[test]
fn history_is_bounded(rt: HostRuntime) -> Result<(), Fail> {
    let mut session = Solo::new(rt.alloc(), config())?;
    for now in 0..48u64 {
        session.tick(now)?;
    }
    let spent = StepRefused::Spent { steps: 48, kept: 0 };
    assert_eq!(rt; session.tick(48), Err(spent));
    assert_eq!(rt; session.terminate(End::Asked), Ok(()));
    Ok(())
}

fn fill(rt: &impl Abort, session: &mut Solo) -> Result<(), Fail> {
    for _i in 0..1024u32 {
        session.submit(capacity())?;
    }
    assert_eq!(rt;
        session.submit(capacity()),
        Err(SubmitRefused::Full { waiting: 1024 })
    );
    Ok(())
}

#[test]
fn submissions_are_bounded(rt: HostRuntime) -> Result<(), Fail> {
    let config = SessionConfig {
        steps: 2048,
        ..config()
    };
    fill(&rt, &mut Solo::new(rt.alloc(), config)?)
}

fn registration() -> Request
    ensures { IsValid result.kind }
{
    Request {
        lun: 0,
        kind: Kind::ReserveOut {
            action: 0,
            form: 1,
            key: 0,
            new_key: 1,
        },
    }
}

// A PERSISTENT RESERVE OUT keeps its 24 bytes: 170 of them fit into 4,096 bytes, one more does not.
#[test]
fn reservations_are_kept(rt: HostRuntime) -> Result<(), Fail> {
    let config = SessionConfig {
        steps: 2048,
        kept: 4096,
        ..config()
    };
    let mut session = Solo::new(rt.alloc(), config)?;
    for _i in 0..170u32 {
        session.submit(registration())?;
    }
    let spent = SubmitRefused::Spent {
        steps: 170,
        kept: 4080,
    };
    assert_eq!(rt; session.submit(registration()), Err(spent));
    Ok(())
}
