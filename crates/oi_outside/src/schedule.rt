ghost use Rattle.std.specs.Prelude.{◌≡◌, IfOk};
ghost use Rattle.oi_outside.specs.MemLinks.{pauses, failing_calls, is_of_half};

use oi_base::{NoMemory, Series};
use std::alloc::{AllocError, Global};

/// How links over memory hold their halves up.
#[derive(Clone, Copy, Debug, PartialEq, Eq)]
pub struct Schedule {
    /// How many bytes a read gives at most; 0 is not allowed.
    pub piece: u32,
    /// Of the calls of a half one in so many has to wait; with 0 none has.
    pub not_yet_every: u32,
}

/// A call of one half of a link that fails.
#[derive(Clone, Copy, Debug, PartialEq, Eq)]
pub struct LinkFail {
    /// The number of the link's dial, among those that answered a link, from 0.
    pub dial: u32,
    /// 0 and 1 are the reading and the writing half of the side that dialled, 2 and 3 those of the other side.
    pub half: u8,
    /// The number of the call, among those of the half, from 0.
    pub call: u64,
}

/// Whether the schedule makes the call with this number wait.
pub fn is_paused(schedule: Schedule, call: u64) -> bool
    ensures { result ≡ pauses schedule call }
{
    let every = u64::from(schedule.not_yet_every);
    every != 0 && call.saturating_add(1) % every == 0
}

/// The numbers of the calls that fail, of one half of the link that the dial with this number made.
pub fn calls_that_fail(
    alloc: Global,
    fails: &[LinkFail],
    dial: u64,
    half: u8,
) -> Result<Series<u64>, NoMemory>
    ensures { IfOk result (λ calls. calls ≡ failing_calls fails.now dial half) }
{
    Ok(Series::from_vec(calls_of_half(alloc, fails, dial, half)?))
}

fn calls_of_half(
    alloc: Global,
    fails: &[LinkFail],
    dial: u64,
    half: u8,
) -> Result<Vec<u64>, AllocError>
    ensures { IfOk result (λ calls. calls.items ≡ failing_calls fails.now dial half) }
{
    fails
        .iter()
        .filter(|fail| is_of_half(fail, dial, half))
        .map(|fail| fail.call)
        .collect(alloc)
}

fn is_of_half(fail: &LinkFail, dial: u64, half: u8) -> bool
    ensures { result ≡ is_of_half dial half fail.now }
{
    u64::from(fail.dial) == dial && fail.half == half
}
