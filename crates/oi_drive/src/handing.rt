ghost use Rattle.std.specs.Prelude.{◌≡◌, ◌++◌, OnOk};
ghost use Rattle.oi_drive.specs.Acts.{Does};
ghost use Rattle.oi_drive.specs.Deeds.{hands_out, outcome_lines};

use crate::answer::Answer;
use crate::deeds::put;
use oi_base::NoMemory;
use oi_history::Delivered;
use oi_script::line_of;
use oi_solo::{Solo, StepRefused};
use std::alloc::Global;

fn put_outcomes(
    alloc: Global,
    sid: u32,
    due: &[Delivered],
    out: &mut Vec<u8>,
) -> Result<(), NoMemory>
    ensures { OnOk result (out.new.items ≡ out.old.items ++ outcome_lines sid due.now) }
{
    for d in due {
        put(out, line_of(alloc, sid, d.id, &d.outcome)?.as_slice())?;
    }
    Ok(())
}

/// Hands out all that is due, and adds its lines.
#[tactic(auto, using(crate::proofs::Calls::hand_done, crate::proofs::Calls::hand_part, crate::proofs::Calls::hand_spent))]
pub fn hand_out(solo: &mut Solo, alloc: Global, out: &mut Vec<u8>) -> Result<Answer, NoMemory>
    ensures { Does (hands_out solo.old) solo.old out.old.items result solo.new out.new.items }
{
    let sid = solo.config().sid;
    let mut due = Vec::new(alloc);
    match solo.deliver(&mut due) {
        Ok(_) => match put_outcomes(alloc, sid, &due, out) {
            Ok(()) => Ok(Answer::Done),
            Err(_) => Err(NoMemory),
        },
        Err(StepRefused::Spent { .. }) => Ok(Answer::Spent),
        Err(StepRefused::Memory) => Err(NoMemory),
    }
}
