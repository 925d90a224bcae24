ghost use Rattle.std.specs.Prelude.{◌≡◌, ◌+◌, ◌^◌, ◌<◌, ◌≤◌, drop, length, take};
ghost use Rattle.oi_outside.specs.FarNets.{far_size};

use crate::history::History;
use crate::link_read::{LinkRead, ReadTurn};
use crate::link_write::{LinkWrite, WriteTurn};
use oi_base::Blob;
use std::marker::Model;

/// The most bytes that one read gives.
const PIECE: usize = 16;

/// A reading half that gives a list of bytes, at most 16 at a read, and then the end.
#[derive(Drop)]
pub struct FarRead {
    dial: u64,
    script: Blob,
    at: usize,
    answers: History<ReadTurn>,
}

impl Model for FarRead {
    ghost use Rattle.std.specs.Prelude.{◌≤◌, drop, length, take};
    ghost use Rattle.oi_outside.specs.FarNets.{FarReading};

    ghost Value = { FarReading };

    ghost view = { λ h. record { dial = h.dial; taken = take h.at h.script; left = drop h.at h.script; answers = h.answers } };

    ghost invariant = { λ h. h.at ≤ length h.script };
}

impl FarRead {
    ghost use Rattle.std.specs.Prelude.{◌≡◌, []};

    pub(crate) fn new(dial: u64, script: Blob) -> FarRead
        ensures { result ≡ record { dial = dial; taken = []; left = script; answers = [] } }
    {
        FarRead {
            dial,
            script,
            at: 0,
            answers: History::new(),
        }
    }
}

impl LinkRead for FarRead {
    ghost use Rattle.std.specs.Prelude.{◌≡◌, ◌<◌, Some, length};
    ghost use Rattle.std.specs.Option.{option_map};
    ghost use Rattle.oi_outside.specs.ReadLinks.{after_read, IsGotSize, IsReadCounted};
    ghost use Rattle.oi_outside.specs.FarNets.{far_read_half, far_turn, after_far_read, no_faults};

    ghost half = { λ h. Some (far_read_half h) };

    ghost faults = { λ _. no_faults };

    #[tactic(auto, using(crate::proofs::MemLinks::calls_after, crate::proofs::MemLinks::last_after))]
    fn read(&mut self, buf: &mut [u8]) -> ReadTurn
        requires { 0 < length buf.old }
        ensures size { IsGotSize result buf.new }
        ensures half { Some (far_read_half self.new) ≡ option_map (after_read result buf.new) (Some (far_read_half self.old)) }
        ensures count { IsReadCounted result no_faults no_faults }
        ensures turn { result ≡ far_turn self.old.left (length buf.old) }
        ensures after { self.new ≡ after_far_read result buf.new self.old }
    {
        let left = rest_of(&self.script, self.at);
        if left.is_empty() {
            self.answers.record(&ReadTurn::End);
            return ReadTurn::End;
        }
        let count = fill(buf, left);
        self.at += count;
        self.answers.record(&ReadTurn::Got(count));
        ReadTurn::Got(count)
    }
}

fn rest_of(script: &Blob, at: usize) -> &[u8]
    requires { at ≤ length script.now }
    ensures rest { result.now ≡ drop at script.now }
    ensures fits { at + length result.now < 2 ^ 64 }
{
    &script.as_slice()[at..]
}

// Copies the front of what is left into the front of the buffer, as much as one read gives.
fn fill(buf: &mut [u8], left: &[u8]) -> usize
    ensures size { result ≡ far_size left.now (length buf.old) }
    ensures front { take result buf.new ≡ take result left.now }
{
    let count = left.len().min(buf.len()).min(PIECE);
    buf[..count].copy_from_slice(&left[..count]);
    count
}

/// A writing half that takes all at once.
#[derive(Drop)]
pub struct FarWrite {
    dial: u64,
    given: History<u8>,
    answers: History<WriteTurn>,
}

impl Model for FarWrite {
    ghost use Rattle.oi_outside.specs.FarNets.{FarWriting};

    ghost Value = { FarWriting };

    ghost view = { λ h. record { dial = h.dial; given = h.given; answers = h.answers } };
}

impl FarWrite {
    ghost use Rattle.std.specs.Prelude.{◌≡◌, []};

    pub(crate) fn new(dial: u64) -> FarWrite
        ensures { result ≡ record { dial = dial; given = []; answers = [] } }
    {
        FarWrite {
            dial,
            given: History::new(),
            answers: History::new(),
        }
    }
}

impl LinkWrite for FarWrite {
    ghost use Rattle.std.specs.Prelude.{◌≡◌, ◌<◌, Some, length};
    ghost use Rattle.std.specs.Option.{option_map};
    ghost use Rattle.oi_outside.specs.declared.link_write.WriteTurn.TheVariants.{Took};
    ghost use Rattle.oi_outside.specs.WriteLinks.{after_write, IsTookSize, IsWriteCounted};
    ghost use Rattle.oi_outside.specs.FarNets.{far_write_half, after_far_write, no_faults};

    ghost half = { λ h. Some (far_write_half h) };

    ghost faults = { λ _. no_faults };

    #[tactic(auto, using(crate::proofs::MemLinks::calls_after, crate::proofs::MemLinks::last_after, crate::proofs::FarNets::take_whole))]
    fn write(&mut self, piece: &[u8]) -> WriteTurn
        requires { 0 < length piece.now }
        ensures size { IsTookSize result piece.now }
        ensures half { Some (far_write_half self.new) ≡ option_map (after_write result piece.now) (Some (far_write_half self.old)) }
        ensures count { IsWriteCounted result no_faults no_faults }
        ensures turn { result ≡ Took (length piece.now) }
        ensures after { self.new ≡ after_far_write piece.now self.old }
    {
        let turn = WriteTurn::Took(piece.len());
        self.given.record_all(piece);
        self.answers.record(&turn);
        turn
    }
}
