ghost use Rattle.std.specs.Prelude.{◌≡◌, ◌<◌, ◌≤◌, length};
ghost use Rattle.oi_outside.specs.MemLinks.{IsReadTurn, ReadsPipe, read_faults};

use crate::calls::is_to_fail;
use crate::history::History;
use crate::link_read::{LinkRead, ReadTurn};
use crate::schedule::{Schedule, is_paused};
use oi_base::Series;
use oi_pipe::{PipeReader, PipeTurn};
use std::marker::Model;

/// The reading half of a link over memory. Its calls are numbered from 0, and those whose number is listed fail.
#[derive(Drop)]
pub struct MemRead {
    dial: u64,
    accepted: bool,
    pipe: PipeReader,
    schedule: Schedule,
    fails: Series<u64>,
    calls: u64,
    answers: History<ReadTurn>,
    faults: u64,
}

impl Model for MemRead {
    ghost use Rattle.std.specs.Prelude.{◌≡◌, ◌≤◌, length};
    ghost use Rattle.oi_base.specs.Counts.{told_long};
    ghost use Rattle.oi_outside.specs.MemLinks.{ReadingEnd};

    ghost Value = { ReadingEnd };

    ghost view = { λ h. record { dial = h.dial; accepted = h.accepted; pipe = h.pipe; schedule = h.schedule; fails = h.fails; answers = h.answers; faults = h.faults } };

    ghost invariant = { λ h. (h.calls ≡ told_long (length h.answers)) × (1 ≤ h.schedule.piece) };
}

impl MemRead {
    ghost use Rattle.std.specs.Prelude.{◌≡◌, ◌≤◌, []};

    /// The half of a new link, with this half of a pipe.
    pub(crate) fn new(
        dial: u64,
        accepted: bool,
        pipe: PipeReader,
        schedule: Schedule,
        fails: Series<u64>,
    ) -> MemRead
        requires { 1 ≤ schedule.piece }
        ensures { result ≡ record { dial = dial; accepted = accepted; pipe = pipe; schedule = schedule; fails = fails; answers = []; faults = 0 } }
    {
        MemRead {
            dial,
            accepted,
            pipe,
            schedule,
            fails,
            calls: 0,
            answers: History::new(),
            faults: 0,
        }
    }
}

impl LinkRead for MemRead {
    ghost use Rattle.std.specs.Prelude.{◌≡◌, ◌<◌, Some, length};
    ghost use Rattle.std.specs.Option.{option_map};
    ghost use Rattle.oi_outside.specs.ReadLinks.{after_read, IsGotSize, IsReadCounted};
    ghost use Rattle.oi_outside.specs.MemLinks.{read_half, next_read, after_turn, IsReadTurn};

    ghost half = { λ h. Some (read_half h) };

    ghost faults = { λ h. h.faults };

    #[tactic(auto, using(crate::proofs::MemLinks::calls_after, crate::proofs::MemLinks::last_after))]
    fn read(&mut self, buf: &mut [u8]) -> ReadTurn
        requires { 0 < length buf.old }
        ensures size { IsGotSize result buf.new }
        ensures half { Some (read_half self.new) ≡ option_map (after_read result buf.new) (Some (read_half self.old)) }
        ensures count { IsReadCounted result self.old.faults self.new.faults }
        ensures turn { IsReadTurn self.old.schedule self.old.fails (next_read self.old) self.old.pipe self.new.pipe buf.old buf.new result }
        ensures after { self.new ≡ after_turn result self.new.pipe self.old }
    {
        let turn = read_turn(
            &mut self.pipe,
            self.schedule,
            self.fails.as_slice(),
            self.calls,
            buf,
        );
        self.calls = self.calls.saturating_add(1);
        self.faults = faults_after(turn, self.faults);
        self.answers.record(&turn);
        turn
    }
}

fn faults_after(turn: ReadTurn, faults: u64) -> u64
    ensures { result ≡ read_faults turn faults }
{
    match turn {
        ReadTurn::Failed => faults.saturating_add(1),
        ReadTurn::Got(_) | ReadTurn::NotYet | ReadTurn::End => faults,
    }
}

// What the call with this number answers.
fn read_turn(
    pipe: &mut PipeReader,
    schedule: Schedule,
    fails: &[u64],
    call: u64,
    buf: &mut [u8],
) -> ReadTurn
    requires buffer { 0 < length buf.old }
    requires piece { 1 ≤ schedule.piece }
    ensures { IsReadTurn schedule fails.now call pipe.old pipe.new buf.old buf.new result }
{
    if is_to_fail(fails, call) {
        return ReadTurn::Failed;
    }
    if is_paused(schedule, call) {
        return ReadTurn::NotYet;
    }
    read_pipe(pipe, schedule.piece, buf)
}

// Takes at most so many bytes.
fn read_pipe(pipe: &mut PipeReader, piece: u32, buf: &mut [u8]) -> ReadTurn
    requires buffer { 0 < length buf.old }
    requires piece { 1 ≤ piece }
    ensures { ReadsPipe piece pipe.old pipe.new buf.old buf.new result }
{
    let size = buf.len().min(piece as usize);
    match pipe.read(&mut buf[..size]) {
        PipeTurn::Moved(count) => ReadTurn::Got(count),
        PipeTurn::NotYet => ReadTurn::NotYet,
        PipeTurn::End => ReadTurn::End,
    }
}
