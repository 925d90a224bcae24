ghost use Rattle.std.specs.Prelude.{◌≡◌, ◌≤◌, ℕ, List};
ghost use Rattle.oi_drive.specs.Runs.{seen};
ghost use Rattle.oi_drive.specs.Steps.{Acts};
ghost use Rattle.oi_script.specs.Lines.{IsSetting, IsValidLine};
ghost use Rattle.oi_script.specs.Settings.{setting_of};
ghost use Rattle.oi_script.specs.declared.line.DriveLine.TheVariants.{Login as LoginLine, Recv, Set};

use crate::answer::Answer;
use crate::deeds::{
    abort, cut, leave, login, receive, reset_lun, reset_target, send, show_window, stops, submit,
    tick,
};
use crate::link::{Piece, split};
use crate::runner::Runner;
use oi_base::{LoginDone, NoMemory, Params};
use oi_script::{DriveLine, Setting};
use oi_solo::Solo;
use oi_stream::Splitter;

const MOST_RECEIVED: u32 = 262_144;

// A setting, before any other line.
fn set(run: &mut Runner, name: &[u8], value: i64) -> Result<Answer, NoMemory>
    requires { IsSetting (setting_of name.now) value }
    ensures { (text : List ℕ) → Acts (seen run.old) (Set name.now value) text result (seen run.new) text }
{
    if run.begun {
        return Ok(Answer::Outside);
    }
    let setting = match Setting::named(name) {
        Some(setting) => setting,
        None => unreachable!(),
    };
    let config = setting.apply(value, run.solo.config());
    match Solo::new(run.alloc, config) {
        Ok(solo) => run.solo = solo,
        Err(_) => return Err(NoMemory),
    }
    Ok(Answer::Done)
}

// A login, with a splitter for its stream.
fn log_in(run: &mut Runner, done: LoginDone, out: &mut Vec<u8>) -> Result<Answer, NoMemory>
    requires tsih { done.tsih ≡ 0 }
    requires some { 1 ≤ done.params.max_send }
    ensures { Acts (seen run.old) (LoginLine done.cmdsn done.max done.exp_stat done.params) out.old.items result (seen run.new) out.new.items }
{
    let link = Splitter::new(run.alloc, MOST_RECEIVED);
    if run.links.reserve(1).is_err() {
        return Err(NoMemory);
    }
    let answer = match login(&mut run.solo, run.alloc, done, out) {
        Ok(answer) => answer,
        Err(_) => return Err(NoMemory),
    };
    if !stops(answer) {
        run.links.push_reserved(link);
    }
    Ok(answer)
}

// Bytes for the link with this generation. One that has ended is not fed.
fn recv(
    run: &mut Runner,
    generation: u64,
    bytes: &[u8],
    out: &mut Vec<u8>,
) -> Result<Answer, NoMemory>
    requires { 1 ≤ generation }
    ensures { Acts (seen run.old) (Recv generation bytes.now) out.old.items result (seen run.new) out.new.items }
{
    let at = (generation - 1) as usize;
    if at >= run.links.len() {
        return Ok(Answer::Outside);
    }
    let mut pdus = Vec::new(run.alloc);
    let piece = match split(&mut run.links[at], bytes, &mut pdus) {
        Ok(piece) => piece,
        Err(_) => return Err(NoMemory),
    };
    match piece {
        Piece::Ended => Ok(Answer::Done),
        Piece::Fed { fault } => receive(&mut run.solo, run.alloc, generation, pdus, fault, out),
    }
}

/// The entries and the text of a line's own part.
pub fn act(run: &mut Runner, line: DriveLine, out: &mut Vec<u8>) -> Result<Answer, NoMemory>
    requires { IsValidLine line }
    ensures { Acts (seen run.old) line out.old.items result (seen run.new) out.new.items }
{
    match line {
        DriveLine::Set { name, value } => set(run, name.as_slice(), value),
        DriveLine::Login {
            cmdsn,
            max,
            exp_stat,
            params,
        } => log_in(run, login_done(params, cmdsn, max, exp_stat), out),
        DriveLine::Recv { generation, bytes } => recv(run, generation, bytes.as_slice(), out),
        DriveLine::Submit { request } => submit(&mut run.solo, request),
        DriveLine::Send { count } => send(&mut run.solo, run.alloc, count, out),
        DriveLine::Cut => cut(&mut run.solo, run.alloc, out),
        DriveLine::Tick { now } => tick(&mut run.solo, run.alloc, now, out),
        DriveLine::Abort { id } => abort(&mut run.solo, id),
        DriveLine::ResetLun { lun } => reset_lun(&mut run.solo, lun),
        DriveLine::ResetTarget => reset_target(&mut run.solo),
        DriveLine::Leave => leave(&mut run.solo),
        DriveLine::Window => show_window(&run.solo, run.alloc, out),
        DriveLine::Skip | DriveLine::End => Ok(Answer::Done),
    }
}

// What the lines of a script tell of a login; no target handle is among them.
fn login_done(params: Params, cmdsn: u32, max: u32, exp_stat: u32) -> LoginDone
    ensures { result ≡ record { params = params; tsih = 0; cmdsn = cmdsn; max = max; exp_stat = exp_stat } }
{
    LoginDone {
        params,
        tsih: 0,
        cmdsn,
        max,
        exp_stat,
    }
}
