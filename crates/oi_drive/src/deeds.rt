ghost use Rattle.std.specs.Prelude.{◌≡◌, ◌≤◌, ◌<◌, ◌^◌, ◌++◌, ℕ, List, IfOk, OnOk};
ghost use Rattle.oi_drive.specs.Acts.{Does, DoesSilently, Turns, aborted, controlled, submitted, turn_line, turned};
ghost use Rattle.oi_drive.specs.Deeds.{aborts, cuts, ends_stream, expires, heeds, leaves, live_on, logs_in, loses, receives, resets, says, sends, shows_window, stops, submits, takes, takes_all, ticks};
ghost use Rattle.oi_history.specs.declared.event.Event.TheVariants.{ResetLun, ResetTarget};
ghost use Rattle.oi_scsi.specs.Requests.{IsValid};
ghost use Rattle.oi_solo.specs.Sessions.{Session, now_of};

use crate::answer::{Answer, Turn};
use oi_base::{Blob, LoginDone, NoMemory};
use oi_history::{LostCause, Phase, Rule};
use oi_pdu::Pdu;
use oi_script::{Refusal, idle_line, login_line, lost_line, stale_line, tx_line, window_line};
use oi_scsi::Request;
use oi_solo::{
    AbortRefused, ControlRefused, LoginRefused, LostDone, Receipt, Received, Solo, StepRefused,
    SubmitRefused, Ticked, Transmit,
};
use std::alloc::Global;

// The generation of the live connection.
fn live(solo: &Solo) -> Option<u64>
    ensures { result ≡ live_on (now_of solo.now).phase }
{
    match solo.phase() {
        Phase::LoggedIn { generation } => Some(generation),
        _ => None,
    }
}

/// Nothing follows a part of a line that ended so.
pub fn stops(answer: Answer) -> bool
    ensures { result ≡ stops answer }
{
    match answer {
        Answer::Done => false,
        _ => true,
    }
}

/// Appends a text.
pub fn put(out: &mut Vec<u8>, text: &[u8]) -> Result<(), NoMemory>
    ensures { OnOk result (out.new.items ≡ out.old.items ++ text.now) }
{
    out.extend_from_slice(text)?;
    Ok(())
}

// Appends a text that was made.
fn put_made(out: &mut Vec<u8>, text: Result<Blob, NoMemory>) -> Result<(), NoMemory>
    ensures { (t : List ℕ) → IfOk text (λ u. u ≡ t) → OnOk result (out.new.items ≡ out.old.items ++ t) }
{
    match text {
        Ok(text) => put(out, text.as_slice()),
        Err(_) => Err(NoMemory),
    }
}

/// A text is all.
pub fn say(out: &mut Vec<u8>, text: Result<Blob, NoMemory>) -> Result<Answer, NoMemory>
    ensures { (s : Session) (t : List ℕ) → IfOk text (λ u. u ≡ t) → Does (says t) s out.old.items result s out.new.items }
{
    match put_made(out, text) {
        Ok(()) => Ok(Answer::Done),
        Err(_) => Err(NoMemory),
    }
}

fn submitted(done: Result<Receipt, SubmitRefused>) -> Result<Answer, NoMemory>
    ensures { result ≡ submitted done }
{
    match done {
        Ok(_) => Ok(Answer::Done),
        Err(SubmitRefused::Ended { .. }) => Ok(Answer::Refused(Refusal::Ended)),
        Err(SubmitRefused::Full { .. }) => Ok(Answer::Refused(Refusal::Full)),
        Err(SubmitRefused::Spent { .. }) => Ok(Answer::Spent),
        Err(SubmitRefused::Memory) => Err(NoMemory),
    }
}

/// A request is submitted.
#[tactic(auto, using(crate::proofs::Calls::submit_does))]
pub fn submit(solo: &mut Solo, request: Request) -> Result<Answer, NoMemory>
    requires { IsValid request.kind }
    ensures { DoesSilently (submits request solo.old) solo.old result solo.new }
{
    submitted(solo.submit(request))
}

/// A connection reached the full feature phase.
#[tactic(auto, using(crate::proofs::Calls::login_done, crate::proofs::Calls::login_part, crate::proofs::Calls::login_ended, crate::proofs::Calls::login_twice, crate::proofs::Calls::login_spent))]
pub fn login(
    solo: &mut Solo,
    alloc: Global,
    done: LoginDone,
    out: &mut Vec<u8>,
) -> Result<Answer, NoMemory>
    requires { 1 ≤ done.params.max_send }
    ensures { Does (logs_in done solo.old) solo.old out.old.items result solo.new out.new.items }
{
    match solo.logged_in(done) {
        Ok(generation) => match put_made(out, login_line(alloc, generation)) {
            Ok(()) => Ok(Answer::Done),
            Err(_) => Err(NoMemory),
        },
        Err(LoginRefused::Ended { .. }) => Ok(Answer::Refused(Refusal::Ended)),
        Err(LoginRefused::LoggedIn { .. }) => Ok(Answer::Refused(Refusal::LoggedIn)),
        Err(LoginRefused::Spent { .. }) => Ok(Answer::Spent),
        Err(LoginRefused::Memory) => Err(NoMemory),
    }
}

// What a transmission did, without its PDU.
fn turned(done: Result<Transmit, StepRefused>) -> Result<Turn, NoMemory>
    ensures { result ≡ turned done }
{
    match done {
        Ok(Transmit::Sent(_)) => Ok(Turn::Sent),
        Ok(Transmit::Idle) => Ok(Turn::Idle),
        Ok(_) => Err(NoMemory),
        Err(StepRefused::Spent { .. }) => Ok(Turn::Spent),
        Err(StepRefused::Memory) => Err(NoMemory),
    }
}

// The line of a transmission.
fn turn_line(alloc: Global, turn: Turn, generation: u64, bytes: &[u8]) -> Result<Blob, NoMemory>
    ensures { IfOk result (λ text. text ≡ turn_line turn generation bytes.now) }
{
    match turn {
        Turn::Sent => tx_line(alloc, generation, bytes),
        Turn::Idle => idle_line(alloc),
        Turn::Spent => Ok(Blob::new(alloc)),
    }
}

// One transmission on a connection.
fn turn(
    solo: &mut Solo,
    alloc: Global,
    generation: u64,
    out: &mut Vec<u8>,
) -> Result<Turn, NoMemory>
    ensures { Turns generation solo.old out.old.items result solo.new out.new.items }
{
    let mut bytes = Vec::new(alloc);
    let turn = match turned(solo.transmit_next(generation, &mut bytes)) {
        Ok(turn) => turn,
        Err(_) => return Err(NoMemory),
    };
    match put_made(out, turn_line(alloc, turn, generation, &bytes)) {
        Ok(()) => Ok(turn),
        Err(_) => Err(NoMemory),
    }
}

/// Up to so many transmissions, until nothing is left to send.
pub fn send(
    solo: &mut Solo,
    alloc: Global,
    count: u32,
    out: &mut Vec<u8>,
) -> Result<Answer, NoMemory>
    ensures { Does (sends count solo.old) solo.old out.old.items result solo.new out.new.items }
{
    for _i in 0..count {
        let generation = match live(solo) {
            Some(generation) => generation,
            None => return Ok(Answer::Done),
        };
        match turn(solo, alloc, generation, out) {
            Ok(Turn::Sent) => {}
            Ok(Turn::Idle) => return Ok(Answer::Done),
            Ok(Turn::Spent) => return Ok(Answer::Spent),
            Err(_) => return Err(NoMemory),
        }
    }
    Ok(Answer::Done)
}

/// The connection with this generation is lost, where it is the live one and the cause holds.
#[tactic(auto, using(crate::proofs::Calls::lost_done, crate::proofs::Calls::lost_part, crate::proofs::Calls::lost_stale, crate::proofs::Calls::lost_not_so, crate::proofs::Calls::lost_spent))]
pub fn lose(
    solo: &mut Solo,
    alloc: Global,
    generation: u64,
    cause: LostCause,
    out: &mut Vec<u8>,
) -> Result<Answer, NoMemory>
    ensures { Does (loses generation cause solo.old) solo.old out.old.items result solo.new out.new.items }
{
    let text = lost_line(alloc, generation, cause);
    match solo.lost(generation, cause) {
        Ok(LostDone::Lost) => match put_made(out, text) {
            Ok(()) => Ok(Answer::Done),
            Err(_) => Err(NoMemory),
        },
        Ok(LostDone::Stale { .. }) => Ok(Answer::Done),
        Ok(LostDone::NotSo) => Ok(Answer::Done),
        Err(StepRefused::Spent { .. }) => Ok(Answer::Spent),
        Err(StepRefused::Memory) => Err(NoMemory),
    }
}

/// The live connection is cut.
pub fn cut(solo: &mut Solo, alloc: Global, out: &mut Vec<u8>) -> Result<Answer, NoMemory>
    ensures { Does (cuts solo.old) solo.old out.old.items result solo.new out.new.items }
{
    match live(solo) {
        Some(generation) => lose(solo, alloc, generation, LostCause::Cut, out),
        None => Ok(Answer::Refused(Refusal::NotLoggedIn)),
    }
}

// What a PDU came to.
fn heed(
    solo: &mut Solo,
    alloc: Global,
    generation: u64,
    received: Received,
    out: &mut Vec<u8>,
) -> Result<Answer, NoMemory>
    ensures { Does (heeds generation received solo.old) solo.old out.old.items result solo.new out.new.items }
{
    match received {
        Received::Stale { current } => say(out, stale_line(alloc, current)),
        Received::Broken { rule } => lose(solo, alloc, generation, LostCause::Broken(rule), out),
        Received::Asked { event } => lose(solo, alloc, generation, LostCause::Asked(event), out),
        Received::Applied => Ok(Answer::Done),
    }
}

fn take(
    solo: &mut Solo,
    alloc: Global,
    generation: u64,
    pdu: Pdu,
    out: &mut Vec<u8>,
) -> Result<Answer, NoMemory>
    ensures { Does (takes generation pdu solo.old) solo.old out.old.items result solo.new out.new.items }
{
    match solo.receive(generation, pdu) {
        Ok(received) => heed(solo, alloc, generation, received, out),
        Err(StepRefused::Spent { .. }) => Ok(Answer::Spent),
        Err(StepRefused::Memory) => Err(NoMemory),
    }
}

fn take_all(
    solo: &mut Solo,
    alloc: Global,
    generation: u64,
    pdus: Vec<Pdu>,
    out: &mut Vec<u8>,
) -> Result<Answer, NoMemory>
    ensures { Does (takes_all generation pdus.items solo.old) solo.old out.old.items result solo.new out.new.items }
{
    for pdu in pdus {
        let answer = match take(solo, alloc, generation, pdu, out) {
            Ok(answer) => answer,
            Err(_) => return Err(NoMemory),
        };
        if stops(answer) {
            return Ok(answer);
        }
    }
    Ok(Answer::Done)
}

fn end_stream(
    solo: &mut Solo,
    alloc: Global,
    generation: u64,
    fault: Option<Rule>,
    out: &mut Vec<u8>,
) -> Result<Answer, NoMemory>
    ensures { Does (ends_stream generation fault solo.old) solo.old out.old.items result solo.new out.new.items }
{
    match fault {
        Some(rule) => lose(solo, alloc, generation, LostCause::Broken(rule), out),
        None => Ok(Answer::Done),
    }
}

/// PDUs of the connection with this generation came in, and its stream can't be followed further by this rule.
pub fn receive(
    solo: &mut Solo,
    alloc: Global,
    generation: u64,
    pdus: Vec<Pdu>,
    fault: Option<Rule>,
    out: &mut Vec<u8>,
) -> Result<Answer, NoMemory>
    ensures { Does (receives generation pdus.items fault solo.old) solo.old out.old.items result solo.new out.new.items }
{
    let answer = match take_all(solo, alloc, generation, pdus, out) {
        Ok(answer) => answer,
        Err(_) => return Err(NoMemory),
    };
    if stops(answer) {
        return Ok(answer);
    }
    end_stream(solo, alloc, generation, fault, out)
}

// A ping, or else an error handler, that is past its time loses the connection.
fn expire(
    solo: &mut Solo,
    alloc: Global,
    ticked: Ticked,
    out: &mut Vec<u8>,
) -> Result<Answer, NoMemory>
    ensures { Does (expires ticked.ping ticked.handler solo.old) solo.old out.old.items result solo.new out.new.items }
{
    let Some(generation) = live(solo) else {
        return Ok(Answer::Done);
    };
    if ticked.ping {
        lose(solo, alloc, generation, LostCause::Ping, out)
    } else if ticked.handler {
        lose(solo, alloc, generation, LostCause::Handler, out)
    } else {
        Ok(Answer::Done)
    }
}

/// The clock reads so many milliseconds.
pub fn tick(solo: &mut Solo, alloc: Global, now: u64, out: &mut Vec<u8>) -> Result<Answer, NoMemory>
    requires { now < 2 ^ 53 }
    ensures { Does (ticks now solo.old) solo.old out.old.items result solo.new out.new.items }
{
    if now < solo.clock() {
        return Ok(Answer::Outside);
    }
    match solo.tick(now) {
        Ok(ticked) => expire(solo, alloc, ticked, out),
        Err(StepRefused::Spent { .. }) => Ok(Answer::Spent),
        Err(StepRefused::Memory) => Err(NoMemory),
    }
}

fn aborted(done: Result<(), AbortRefused>) -> Result<Answer, NoMemory>
    ensures { result ≡ aborted done }
{
    match done {
        Ok(()) => Ok(Answer::Done),
        Err(AbortRefused::Unknown { .. }) => Ok(Answer::Refused(Refusal::Unknown)),
        Err(AbortRefused::TooLate { .. }) => Ok(Answer::Refused(Refusal::TooLate)),
        Err(AbortRefused::Busy { .. }) => Ok(Answer::Refused(Refusal::Busy)),
        Err(AbortRefused::Spent { .. }) => Ok(Answer::Spent),
        Err(AbortRefused::Memory) => Err(NoMemory),
    }
}

/// Begins the abort of a submission.
#[tactic(auto, using(crate::proofs::Calls::abort_does))]
pub fn abort(solo: &mut Solo, id: u64) -> Result<Answer, NoMemory>
    ensures { DoesSilently (aborts id solo.old) solo.old result solo.new }
{
    aborted(solo.abort(id))
}

fn controlled(done: Result<(), ControlRefused>) -> Result<Answer, NoMemory>
    ensures { result ≡ controlled done }
{
    match done {
        Ok(()) => Ok(Answer::Done),
        Err(ControlRefused::NotLoggedIn { .. }) => Ok(Answer::Refused(Refusal::NotLoggedIn)),
        Err(ControlRefused::Busy { .. }) => Ok(Answer::Refused(Refusal::Busy)),
        Err(ControlRefused::Spent { .. }) => Ok(Answer::Spent),
        Err(ControlRefused::Memory) => Err(NoMemory),
    }
}

/// Begins the reset of a logical unit.
#[tactic(auto, using(crate::proofs::Calls::reset_does))]
pub fn reset_lun(solo: &mut Solo, lun: u8) -> Result<Answer, NoMemory>
    ensures { DoesSilently (resets (ResetLun lun) solo.old) solo.old result solo.new }
{
    controlled(solo.reset_lun(lun))
}

/// Begins the reset of the target.
#[tactic(auto, using(crate::proofs::Calls::reset_does))]
pub fn reset_target(solo: &mut Solo) -> Result<Answer, NoMemory>
    ensures { DoesSilently (resets ResetTarget solo.old) solo.old result solo.new }
{
    controlled(solo.reset_target())
}

/// Asks for a logout.
#[tactic(auto, using(crate::proofs::Calls::leave_does))]
pub fn leave(solo: &mut Solo) -> Result<Answer, NoMemory>
    ensures { DoesSilently (leaves solo.old) solo.old result solo.new }
{
    controlled(solo.leave())
}

/// Prints the command window.
pub fn show_window(solo: &Solo, alloc: Global, out: &mut Vec<u8>) -> Result<Answer, NoMemory>
    ensures { Does (shows_window solo.now) solo.now out.old.items result solo.now out.new.items }
{
    let window = solo.window();
    let text = window_line(alloc, window.next().0, window.expected().0, window.max().0);
    say(out, text)
}
