ghost use Rattle.std.specs.Prelude.{◌≡◌, ◌<◌, false, length};
ghost use Rattle.oi_outside.specs.MemWrites.{IsWriteTurn, WritesPipe, write_faults};

use crate::calls::is_to_fail;
use crate::history::History;
use crate::link_write::{LinkWrite, WriteTurn};
use crate::schedule::{Schedule, is_paused};
use oi_base::Series;
use oi_pipe::{PipeTurn, PipeWriter};
use std::marker::Model;

/// The writing half of a link over memory. Its calls are numbered from 0, and those whose number is listed fail.
#[derive(Drop)]
pub struct MemWrite {
    dial: u64,
    accepted: bool,
    pipe: PipeWriter,
    schedule: Schedule,
    fails: Series<u64>,
    calls: u64,
    answers: History<WriteTurn>,
    faults: u64,
}

impl Model for MemWrite {
    ghost use Rattle.std.specs.Prelude.{◌≡◌, false, length};
    ghost use Rattle.oi_base.specs.Counts.{told_long};
    ghost use Rattle.oi_outside.specs.MemWrites.{WritingEnd};

    ghost Value = { WritingEnd };

    ghost view = { λ h. record { dial = h.dial; accepted = h.accepted; pipe = h.pipe; schedule = h.schedule; fails = h.fails; answers = h.answers; faults = h.faults } };

    ghost invariant = { λ h. (h.calls ≡ told_long (length h.answers)) × (h.pipe.closed ≡ false) };
}

impl MemWrite {
    ghost use Rattle.std.specs.Prelude.{◌≡◌, false, []};
    ghost use Rattle.oi_outside.specs.MemWrites.{closed};

    /// The half of a new link, with this half of a pipe.
    pub(crate) fn new(
        dial: u64,
        accepted: bool,
        pipe: PipeWriter,
        schedule: Schedule,
        fails: Series<u64>,
    ) -> MemWrite
        requires { pipe.closed ≡ false }
        ensures { result ≡ record { dial = dial; accepted = accepted; pipe = pipe; schedule = schedule; fails = fails; answers = []; faults = 0 } }
    {
        MemWrite {
            dial,
            accepted,
            pipe,
            schedule,
            fails,
            calls: 0,
            answers: History::new(),
            faults: 0,
        }
    }

    /// Closes the pipe. What it holds can still be read at the other end.
    pub(crate) fn close(self) -> ClosedWrite
        ensures { result ≡ closed self }
    {
        let MemWrite {
            dial,
            accepted,
            mut pipe,
            schedule,
            fails,
            calls: _,
            answers,
            faults,
        } = self;
        pipe.close();
        ClosedWrite {
            dial,
            accepted,
            pipe,
            schedule,
            fails,
            answers,
            faults,
        }
    }
}

/// A writing half whose pipe is closed.
#[derive(Drop)]
pub struct ClosedWrite {
    dial: u64,
    accepted: bool,
    pipe: PipeWriter,
    schedule: Schedule,
    fails: Series<u64>,
    answers: History<WriteTurn>,
    faults: u64,
}

impl Model for ClosedWrite {
    ghost use Rattle.std.specs.Prelude.{◌≡◌, true};
    ghost use Rattle.oi_outside.specs.MemWrites.{WritingEnd};

    ghost Value = { WritingEnd };

    ghost view = { λ h. record { dial = h.dial; accepted = h.accepted; pipe = h.pipe; schedule = h.schedule; fails = h.fails; answers = h.answers; faults = h.faults } };

    ghost invariant = { λ h. h.pipe.closed ≡ true };
}

impl LinkWrite for MemWrite {
    ghost use Rattle.std.specs.Prelude.{◌≡◌, ◌<◌, Some, length};
    ghost use Rattle.std.specs.Option.{option_map};
    ghost use Rattle.oi_outside.specs.WriteLinks.{after_write, IsTookSize, IsWriteCounted};
    ghost use Rattle.oi_outside.specs.MemWrites.{write_half, next_write, after_turn, IsWriteTurn};

    ghost half = { λ h. Some (write_half h) };

    ghost faults = { λ h. h.faults };

    #[tactic(auto, using(crate::proofs::MemLinks::calls_after, crate::proofs::MemLinks::last_after))]
    fn write(&mut self, piece: &[u8]) -> WriteTurn
        requires { 0 < length piece.now }
        ensures size { IsTookSize result piece.now }
        ensures half { Some (write_half self.new) ≡ option_map (after_write result piece.now) (Some (write_half self.old)) }
        ensures count { IsWriteCounted result self.old.faults self.new.faults }
        ensures turn { IsWriteTurn self.old.schedule self.old.fails (next_write self.old) self.old.pipe self.new.pipe piece.now result }
        ensures after { self.new ≡ after_turn result self.new.pipe self.old }
    {
        let turn = write_turn(
            &mut self.pipe,
            self.schedule,
            self.fails.as_slice(),
            self.calls,
            piece,
        );
        self.calls = self.calls.saturating_add(1);
        self.faults = faults_after(turn, self.faults);
        self.answers.record(&turn);
        turn
    }
}

fn faults_after(turn: WriteTurn, faults: u64) -> u64
    ensures { result ≡ write_faults turn faults }
{
    match turn {
        WriteTurn::Failed => faults.saturating_add(1),
        WriteTurn::Took(_) | WriteTurn::NotYet => faults,
    }
}

// What the call with this number answers.
fn write_turn(
    pipe: &mut PipeWriter,
    schedule: Schedule,
    fails: &[u64],
    call: u64,
    piece: &[u8],
) -> WriteTurn
    requires piece { 0 < length piece.now }
    requires open { pipe.old.closed ≡ false }
    ensures open { pipe.new.closed ≡ false }
    ensures turn { IsWriteTurn schedule fails.now call pipe.old pipe.new piece.now result }
{
    if is_to_fail(fails, call) {
        return WriteTurn::Failed;
    }
    if is_paused(schedule, call) {
        return WriteTurn::NotYet;
    }
    write_pipe(pipe, piece)
}

fn write_pipe(pipe: &mut PipeWriter, piece: &[u8]) -> WriteTurn
    requires piece { 0 < length piece.now }
    requires open { pipe.old.closed ≡ false }
    ensures open { pipe.new.closed ≡ false }
    ensures turn { WritesPipe pipe.old pipe.new piece.now result }
{
    match pipe.write(piece) {
        PipeTurn::Moved(count) => WriteTurn::Took(count),
        PipeTurn::NotYet => WriteTurn::NotYet,
        PipeTurn::End => unreachable!(),
    }
}
