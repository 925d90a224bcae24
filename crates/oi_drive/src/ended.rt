ghost use Rattle.std.specs.Vec.{vec_capacity};
ghost use Rattle.std.specs.Prelude.{◌≡◌, ◌<◌, length, ◌++◌, ◌∷◌, [], ℕ, List, Some, IfOk, OnOk, true};
ghost use Rattle.oi_base.specs.Counts.{Rose};
ghost use Rattle.oi_drive.specs.Answered.{AreAnswered, AreDecidedRuns, AreOnce};
ghost use Rattle.oi_history.specs.Tasks.{due_in};
ghost use Rattle.oi_drive.specs.Endings.{AreEnded, AreLeft, Closes, ClosesBroken, ClosesPartly, HasCause, IsDrive, IsEndedBy, IsEndedRun, IsLeft, PutsOut, broken_status, cause_of, closed_by, closing_text, drive_config, first_world, is_status, status_of, stop_text, terminated};
ghost use Rattle.oi_outside.specs.Streams.{IsCounted, IsFront, behind};
ghost use Rattle.oi_drive.specs.Runs.{seen};
ghost use Rattle.oi_drive.specs.Worlds.{one_more};
ghost use Rattle.oi_script.specs.Printed.{fault_text};
ghost use Rattle.oi_drive.specs.declared.runner.Broken.TheVariants.{Memory, Write};
ghost use Rattle.oi_history.specs.Phases.{is_ended};
ghost use Rattle.oi_solo.specs.Sessions.{now_of, run_of};

use crate::handing::hand_out;
use crate::reading::read_input;
use crate::runner::{Broken, Runner, Stop};
use oi_base::{NoMemory, Series};
use oi_history::{End, SessionConfig};
use oi_outcome_laws::outcomes_are_decided;
use oi_outside::{Failed, Sink, Source, write_all};
use oi_script::fault_line;
use oi_session_laws::{delivered_at_most_once, delivered_exactly_once, ids_are_in_order};
use oi_solo::{Run, Solo};
use std::alloc::Global;

/// What a run of the program came to.
#[derive(Debug, Drop)]
pub struct Ended {
    /// 0; 3 for want of memory; 7 for a line outside the language; 30 and 31 for a failed source and sink; 34 for a line that
    /// would pass a limit of the history; 35 where a line was refused.
    pub status: u8,
    /// One run for each session that was opened.
    pub runs: Series<Run>,
}

fn config() -> SessionConfig
    ensures { result ≡ drive_config }
{
    SessionConfig {
        sid: 1,
        tries: 6,
        replacement: 120,
        noop_interval: 5,
        noop_timeout: 5,
        abort: 15,
        lun_reset: 30,
        target_reset: 30,
        logout: 15,
        cmds_max: 128,
        steps: 1_000_000,
        kept: 134_217_728,
        queue_depth: 1024,
        count_disrupted: true,
    }
}

#[tactic(auto, using(crate::proofs::Configs::config_is_valid))]
fn open(alloc: Global) -> Result<Runner, NoMemory>
    ensures { IfOk result (λ r. seen r ≡ first_world) }
{
    let solo = Solo::new(alloc, config())?;
    Ok(Runner {
        alloc,
        solo,
        links: Vec::new(alloc),
        begun: false,
        refused: false,
        part: Vec::new(alloc),
        line: 0,
        stop: None,
    })
}

fn cause_of(stop: Option<Stop>) -> End
    ensures { result ≡ cause_of stop }
{
    match stop {
        Some(Stop::Asked) => End::Asked,
        Some(Stop::BadLine { .. }) => End::Stopped { status: 7 },
        Some(Stop::Full { .. }) => End::Stopped { status: 34 },
        _ => End::InputEnd,
    }
}

fn status_of(stop: Option<Stop>, refused: bool) -> u8
    ensures status { result ≡ status_of stop refused }
    ensures others { (result ≡ 30 → ⊥) × (result ≡ 31 → ⊥) }
{
    match stop {
        Some(Stop::BadLine { .. }) => 7,
        Some(Stop::Full { .. }) => 34,
        _ if refused => 35,
        _ => 0,
    }
}

// The session ends, and all that is due is handed out; adds the lines of the outcomes.
fn close_session(
    solo: &mut Solo,
    alloc: Global,
    cause: End,
    out: &mut Vec<u8>,
) -> Result<(), NoMemory>
    ensures ended { is_ended (now_of solo.new).phase ≡ true }
    ensures session { OnOk result (solo.new ≡ closed_by cause solo.old) }
    ensures text { OnOk result (out.new.items ≡ out.old.items ++ closing_text cause solo.old) }
    ensures settled { OnOk result (due_in (now_of solo.new).tasks ≡ []) }
    ensures entries { IsEndedBy cause solo.old solo.new }
{
    terminate(solo, cause);
    match hand_out(solo, alloc, out) {
        Ok(_) => Ok(()),
        Err(_) => Err(NoMemory),
    }
}

fn terminate(solo: &mut Solo, cause: End)
    ensures ended { is_ended (now_of solo.new).phase ≡ true }
    ensures session { solo.new ≡ terminated cause solo.old }
{
    let _ = solo.terminate(cause);
}

fn put_stop(alloc: Global, stop: Option<Stop>, out: &mut Vec<u8>) -> Result<(), NoMemory>
    ensures { OnOk result (out.new.items ≡ out.old.items ++ stop_text stop) }
{
    match stop {
        Some(Stop::BadLine { line }) => {
            out.extend_from_slice(fault_line(alloc, 7, line)?.as_slice())?;
        }
        Some(Stop::Full { line }) => {
            out.extend_from_slice(fault_line(alloc, 34, line)?.as_slice())?;
        }
        _ => {}
    }
    Ok(())
}

fn write_and_flush<K: Sink>(sink: &mut K, text: &[u8]) -> Result<(), Failed>
    ensures held { OnOk result (K.held sink.new ≡ behind (K.held sink.old) text.now) }
    ensures front { IsFront text.now (K.held sink.old) (K.held sink.new) }
    ensures count { IsCounted result (K.faults sink.old) (K.faults sink.new) }
{
    write_all(sink, text)?;
    sink.flush()
}

// Prints the last text. Answers the status, where a failure of the sink shows if nothing else does.
fn put_out<K: Sink>(sink: &mut K, text: &[u8], status: u8) -> u8
    requires { status ≡ 31 → ⊥ }
    ensures puts { PutsOut text.now status result (K.held sink.old) (K.held sink.new) (K.faults sink.old) (K.faults sink.new) }
    ensures front { IsFront text.now (K.held sink.old) (K.held sink.new) }
    ensures kept { (status ≡ 0 → ⊥) → (status ≡ 35 → ⊥) → result ≡ status }
{
    match write_and_flush(sink, text) {
        Ok(()) => status,
        Err(_) => if status == 0 || status == 35 {
            31
        } else {
            status
        },
    }
}

// Ends a run whose input was read. Answers its status.
fn close_read<K: Sink>(run: &mut Runner, sink: &mut K) -> u8
    ensures ended { is_ended (now_of run.new.solo).phase ≡ true }
    ensures settled { (result ≡ 3 → ⊥) → due_in (now_of run.new.solo).tasks ≡ [] }
    ensures closes { Closes (seen run.old) run.new.solo result (K.held sink.old) (K.held sink.new) (K.faults sink.old) (K.faults sink.new) }
    ensures partly { ClosesPartly (seen run.old) run.new.solo (K.held sink.old) (K.held sink.new) }
{
    let stop = run.stop;
    let mut text = Vec::new(run.alloc);
    match close_session(&mut run.solo, run.alloc, cause_of(stop), &mut text) {
        Ok(()) => {}
        Err(_) => return 3,
    }
    match put_stop(run.alloc, stop, &mut text) {
        Ok(()) => {}
        Err(_) => return 3,
    }
    put_out(sink, &text, status_of(stop, run.refused))
}

fn broken_status(broken: Broken) -> u8
    ensures { result ≡ broken_status broken }
{
    match broken {
        Broken::Memory => 3,
        Broken::Read => 30,
        Broken::Write => 31,
    }
}

// Ends a run that broke. To a sink that failed nothing more is written.
fn close_broken<K: Sink>(run: &mut Runner, broken: Broken, sink: &mut K) -> u8
    ensures ended { is_ended (now_of run.new.solo).phase ≡ true }
    ensures settled { (result ≡ 3 → ⊥) → due_in (now_of run.new.solo).tasks ≡ [] }
    ensures status { (result ≡ 3 → ⊥) → result ≡ broken_status broken }
    ensures quiet { broken ≡ Write → K.faults sink.new ≡ K.faults sink.old }
    ensures closes { ClosesBroken broken (seen run.old) run.new.solo result (K.held sink.old) (K.held sink.new) (K.faults sink.old) (K.faults sink.new) }
    ensures memory { broken ≡ Memory → result ≡ 3 }
{
    let status = broken_status(broken);
    let mut text = Vec::new(run.alloc);
    match close_session(&mut run.solo, run.alloc, End::Stopped { status }, &mut text) {
        Ok(()) => {}
        Err(_) => return 3,
    }
    if broken == Broken::Write {
        return status;
    }
    put_broken(sink, run.alloc, status, run.line, &mut text)
}

fn put_fault(alloc: Global, status: u8, line: u64, out: &mut Vec<u8>) -> Result<(), NoMemory>
    ensures { OnOk result (out.new.items ≡ out.old.items ++ fault_text status (one_more line)) }
{
    out.extend_from_slice(fault_line(alloc, status, line.saturating_add(1))?.as_slice())?;
    Ok(())
}

// Prints the last text of a run that broke, with its fault. Answers the status.
fn put_broken<K: Sink>(sink: &mut K, alloc: Global, status: u8, line: u64, text: &mut Vec<u8>) -> u8
    requires { (status ≡ 0 → ⊥) × (status ≡ 31 → ⊥) × (status ≡ 35 → ⊥) }
    ensures status { (result ≡ 3 → ⊥) → result ≡ status }
    ensures memory { status ≡ 3 → result ≡ 3 }
    ensures front { IsFront (text.old.items ++ fault_text status (one_more line)) (K.held sink.old) (K.held sink.new) }
    ensures text { (Rose (K.faults sink.old) (K.faults sink.new) → ⊥) → (result ≡ 3 → ⊥) → K.held sink.new ≡ behind (K.held sink.old) (text.old.items ++ fault_text status (one_more line)) }
{
    match put_fault(alloc, status, line, text) {
        Ok(()) => put_out(sink, text, status),
        Err(_) => 3,
    }
}

// Reads the input and ends the session. Answers the status.
fn replay<S: Source, K: Sink>(run: &mut Runner, source: &mut S, sink: &mut K) -> u8
    requires { seen run.old ≡ first_world }
    ensures ended { is_ended (now_of run.new.solo).phase ≡ true }
    ensures settled { (result ≡ 3 → ⊥) → due_in (now_of run.new.solo).tasks ≡ [] }
    ensures exact { (bytes : List ℕ) → S.left source.old ≡ Some bytes → (Rose (S.faults source.old) (S.faults source.new) → ⊥) → (Rose (K.faults sink.old) (K.faults sink.new) → ⊥)
        → (result ≡ 3 → ⊥) → IsDrive bytes result (run_of run.new.solo ∷ []) (K.held sink.old) (K.held sink.new) }
    ensures known { is_status result ≡ true }
    ensures cause { HasCause result (S.faults source.old) (S.faults source.new) (K.faults sink.old) (K.faults sink.new) }
    ensures left { IsLeft (S.left source.old) (S.left source.new) run.new.solo result (K.held sink.old) (K.held sink.new)
        (S.faults source.old) (S.faults source.new) (K.faults sink.old) (K.faults sink.new) }
{
    match read_input(run, source, sink) {
        Ok(()) => close_read(run, sink),
        Err(broken) => close_broken(run, broken, sink),
    }
}

fn without_run(alloc: Global) -> Ended
    ensures { (result.status ≡ 3) × (result.runs ≡ []) }
{
    Ended {
        status: 3,
        runs: Series::new(alloc),
    }
}

// The one run of a replay. What it answered follows from the laws of a permitted history.
#[tactic(auto, using(crate::proofs::Answered::once_of, crate::proofs::Answered::answered_of, crate::proofs::Answered::decided_of))]
fn one_run(solo: Solo, mut room: Vec<Run>) -> Series<Run>
    requires empty { room.items ≡ [] }
    requires room { 0 < vec_capacity room }
    requires ended { is_ended (now_of solo).phase ≡ true }
    ensures run { result ≡ run_of solo ∷ [] }
    ensures legal { AreEnded result }
    ensures once { AreOnce result }
    ensures decided { AreDecidedRuns result }
    ensures every { due_in (now_of solo).tasks ≡ [] → AreAnswered result }
{
    let _ = solo.phase();
    outcomes_are_decided();
    delivered_at_most_once();
    delivered_exactly_once();
    ids_are_in_order();
    room.push(solo.close()).unwrap();
    Series::from_vec(room)
}

fn room_for_one(alloc: Global) -> Result<Vec<Run>, NoMemory>
    ensures { IfOk result (λ v. (v.items ≡ []) × (0 < vec_capacity v)) }
{
    Ok(Vec::with_capacity(alloc, 1)?)
}

/// Replays a session from its input lines, each line's text written before the next line is read.
pub fn drive_main<S: Source, K: Sink>(alloc: Global, source: &mut S, sink: &mut K) -> Ended
    ensures legal { AreEnded result.runs }
    ensures once { AreOnce result.runs }
    ensures decided { AreDecidedRuns result.runs }
    ensures every { (result.status ≡ 3 → ⊥) → AreAnswered result.runs }
    ensures one { (result.status ≡ 3 → ⊥) → length result.runs ≡ 1 }
    ensures exact { (bytes : List ℕ) → S.left source.old ≡ Some bytes → (Rose (S.faults source.old) (S.faults source.new) → ⊥) → (Rose (K.faults sink.old) (K.faults sink.new) → ⊥)
        → (result.status ≡ 3 → ⊥) → IsDrive bytes result.status result.runs (K.held sink.old) (K.held sink.new) }
    ensures known { is_status result.status ≡ true }
    ensures cause { HasCause result.status (S.faults source.old) (S.faults source.new) (K.faults sink.old) (K.faults sink.new) }
    ensures left { AreLeft (S.left source.old) (S.left source.new) result.runs result.status (K.held sink.old) (K.held sink.new)
        (S.faults source.old) (S.faults source.new) (K.faults sink.old) (K.faults sink.new) }
{
    let Ok(room) = room_for_one(alloc) else {
        return without_run(alloc);
    };
    let Ok(mut run) = open(alloc) else {
        return without_run(alloc);
    };
    let status = replay(&mut run, source, sink);
    let Runner { solo, .. } = run;
    Ended {
        status,
        runs: one_run(solo, room),
    }
}
