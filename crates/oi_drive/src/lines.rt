ghost use Rattle.std.specs.Prelude.{◌≡◌, ◌++◌, OnErr, OnOk, Some};
ghost use Rattle.oi_drive.specs.Acts.{Does};
ghost use Rattle.oi_drive.specs.Parts.{IsBetween};
ghost use Rattle.oi_drive.specs.Runs.{seen};
ghost use Rattle.oi_drive.specs.Worlds.{bad, base, begins, is_end, is_refusal, line_base, line_by, line_deed, line_entries, line_step, line_text, settles, stop_by, text_by};
ghost use Rattle.oi_script.specs.Lines.{IsValidLine};

use crate::acting::act;
use crate::answer::Answer;
use crate::deeds::say;
use crate::handing::hand_out;
use crate::runner::{Runner, Stop};
use oi_base::NoMemory;
use oi_script::{DriveLine, LineFault, read_drive, refused_line};
use oi_solo::Solo;
use std::alloc::Global;

fn is_end(line: &DriveLine) -> bool
    ensures { result ≡ is_end line.now }
{
    match line {
        DriveLine::End => true,
        _ => false,
    }
}

fn begins(line: &DriveLine) -> bool
    ensures { result ≡ begins line.now }
{
    match line {
        DriveLine::Skip | DriveLine::Set { .. } => false,
        _ => true,
    }
}

fn is_refusal(answer: Answer) -> bool
    ensures { result ≡ is_refusal answer }
{
    match answer {
        Answer::Refused(_) => true,
        _ => false,
    }
}

fn stop_by(answer: Answer, line: u64, ends: bool) -> Option<Stop>
    ensures { result ≡ stop_by answer line ends }
{
    match answer {
        Answer::Outside => Some(Stop::BadLine { line }),
        Answer::Spent => Some(Stop::Full { line }),
        _ if ends => Some(Stop::Asked),
        _ => None,
    }
}

/// The line that has ended is outside the language.
pub fn bad(run: &mut Runner)
    ensures { seen run.new ≡ bad (seen run.old) }
{
    run.part.clear();
    run.line = run.line.saturating_add(1);
    run.stop = Some(Stop::BadLine { line: run.line });
}

// What follows a line's own part: a refusal is told, and what is due is handed out.
fn settle(
    solo: &mut Solo,
    alloc: Global,
    answer: Answer,
    line: u64,
    out: &mut Vec<u8>,
) -> Result<Answer, NoMemory>
    ensures { Does (settles answer line solo.old) solo.old out.old.items result solo.new out.new.items }
{
    match answer {
        Answer::Done => hand_out(solo, alloc, out),
        Answer::Refused(word) => {
            match say(out, refused_line(alloc, line, word)) {
                Ok(_) => {}
                Err(_) => return Err(NoMemory),
            }
            hand_out(solo, alloc, out)
        }
        _ => Ok(answer),
    }
}

// A line that was read: its own part, and what follows.
fn by_line(run: &mut Runner, line: DriveLine, out: &mut Vec<u8>) -> Result<(), NoMemory>
    requires { IsValidLine line }
    ensures world { OnOk result (seen run.new ≡ line_by (seen run.old) (Some line)) }
    ensures text { OnOk result (out.new.items ≡ out.old.items ++ text_by (seen run.old) (Some line)) }
    ensures partly { OnErr result (IsBetween run.old.solo (base (seen run.old) line) (line_deed (seen run.old) line).entries run.new.solo) }
{
    let number = run.line.saturating_add(1);
    let begins = begins(&line);
    let ends = is_end(&line);
    let own = match act(run, line, out) {
        Ok(own) => own,
        Err(_) => return Err(NoMemory),
    };
    let answer = match settle(&mut run.solo, run.alloc, own, number, out) {
        Ok(answer) => answer,
        Err(_) => return Err(NoMemory),
    };
    run.begun |= begins;
    run.refused |= is_refusal(own);
    run.part.clear();
    run.line = number;
    run.stop = stop_by(answer, number, ends);
    Ok(())
}

/// The line that has ended: its entries, and its text behind `out`.
pub fn line_step(run: &mut Runner, out: &mut Vec<u8>) -> Result<(), NoMemory>
    ensures world { OnOk result (seen run.new ≡ line_step (seen run.old)) }
    ensures text { OnOk result (out.new.items ≡ out.old.items ++ line_text (seen run.old)) }
    ensures partly { OnErr result (IsBetween run.old.solo (line_base (seen run.old)) (line_entries (seen run.old)) run.new.solo) }
{
    match read_drive(run.alloc, &run.part) {
        Ok(line) => by_line(run, line, out),
        Err(LineFault::Bad) => {
            bad(run);
            Ok(())
        }
        Err(LineFault::Memory) => Err(NoMemory),
    }
}
