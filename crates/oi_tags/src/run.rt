ghost use Rattle.std.specs.Prelude.{◌≡◌, Option, Some, IfOk, OnOk, OnErr};
ghost use Rattle.oi_base.specs.declared.tag.Tag.{Tag};
ghost use Rattle.oi_tags.specs.declared.calls.TagAnswer.TheVariants.{Given};
ghost use Rattle.oi_tags.specs.Pools.{state_of};
ghost use Rattle.oi_tags.specs.Runs.{GivesFreeTags, after_call, after_calls, answer_of, answers_of};

use crate::{TagAnswer, TagCall, TagPool, TagState};
use oi_base::{NoMemory, Series};
use std::alloc::Global;

/// Makes these calls of a pool, and gives its answers, one a call. A call whose condition does not hold is refused.
pub fn run_tags<P: TagPool>(
    alloc: Global,
    pool: &mut P,
    calls: &[TagCall],
) -> Result<Series<TagAnswer>, NoMemory>
    ensures answers { IfOk result (λ answers. answers ≡ answers_of (P.pool pool.old) calls.now) }
    ensures after { OnOk result (P.pool pool.new ≡ after_calls (P.pool pool.old) calls.now) }
    ensures err { OnErr result (P.pool pool.new ≡ P.pool pool.old) }

    // No tag is handed out while it is live or ended.
    ensures free { IfOk result (GivesFreeTags (P.pool pool.old) calls.now) }
{
    let mut answers = Vec::with_capacity(alloc, calls.len())?;
    for call in calls {
        answers.push_reserved(answer(pool, *call));
    }
    Ok(Series::from_vec(answers))
}

fn answer<P: TagPool>(pool: &mut P, call: TagCall) -> TagAnswer
    ensures value { result ≡ answer_of (P.pool pool.old) call }
    ensures after { P.pool pool.new ≡ after_call (P.pool pool.old) call }
    ensures free { (tag : Tag) → result ≡ Given (Some tag) → state_of (P.pool pool.old) tag.0 ≡ TagState.Free }
{
    match call {
        TagCall::Reset { age } if age < 16 => {
            pool.reset(age);
            TagAnswer::Done
        }
        TagCall::Take => TagAnswer::Given(pool.take()),
        TagCall::End { tag } if pool.state(tag) == TagState::Live => {
            pool.end(tag);
            TagAnswer::Done
        }
        TagCall::Reap { tag } if pool.state(tag) == TagState::Ended => {
            pool.reap(tag);
            TagAnswer::Done
        }
        TagCall::State { tag } => TagAnswer::Is(pool.state(tag)),
        _ => TagAnswer::Refused,
    }
}
