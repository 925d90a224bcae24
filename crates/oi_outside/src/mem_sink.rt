use crate::calls::is_to_fail;
use crate::failed::Failed;
use crate::sink::Sink;
use oi_base::{NoMemory, Series};
use std::alloc::Global;
use std::marker::Model;

/// A sink over memory with room for so many bytes, which it takes when it is made. Its calls are numbered from 0, and
/// those whose number is listed fail; so does a write that finds no room.
#[derive(Debug, Drop)]
pub struct MemSink {
    held: Vec<u8>,
    room: u32,
    calls: u64,
    fails: Series<u64>,
    faults: u64,
}

impl Model for MemSink {
    ghost use Rattle.std.specs.Prelude.{◌≤◌, vec_len};
    ghost use Rattle.std.specs.Vec.{vec_capacity};
    ghost use Rattle.oi_outside.specs.Memory.{MemWriter};

    ghost Value = { MemWriter };

    ghost view = { λ s. record { held = s.held.items; room = s.room; calls = s.calls; fails = s.fails; faults = s.faults } };

    ghost invariant = { λ s. (vec_len s.held ≤ s.room) × (s.room ≤ vec_capacity s.held) };
}

impl MemSink {
    ghost use Rattle.std.specs.Prelude.{◌≡◌, [], IfOk};

    /// Empty, with memory for `room` bytes. The writes and flushes whose number, from 0, stands in `fails` fail.
    pub fn new(alloc: Global, room: u32, fails: Series<u64>) -> Result<MemSink, NoMemory>
        ensures { IfOk result (λ s. s ≡ record { held = []; room = room; calls = 0; fails = fails; faults = 0 }) }
    {
        Ok(MemSink {
            held: Vec::with_capacity(alloc, room as usize)?,
            room,
            calls: 0,
            fails,
            faults: 0,
        })
    }

    /// What it took.
    pub fn held(&self) -> &[u8]
        ensures { result.now ≡ self.now.held }
    {
        self.held.as_slice()
    }
}

impl Sink for MemSink {
    ghost use Rattle.std.specs.Prelude.{◌≡◌, ◌<◌, ◌||◌, ◌==◌, ◌-◌, Some, Ok, Err, length, is_err};
    ghost use Rattle.oi_outside.specs.Calls.{is_to_fail};
    ghost use Rattle.oi_outside.specs.Memory.{after_write, after_flush};
    ghost use Rattle.oi_outside.specs.Streams.{IsCounted, Writes};

    ghost held = { λ s. Some s.held };

    ghost faults = { λ s. s.faults };

    fn write(&mut self, piece: &[u8]) -> Result<usize, Failed>
        requires { 0 < length piece.now }
        ensures writes { Writes result piece.now (Some self.old.held) (Some self.new.held) }
        ensures count { IsCounted result self.old.faults self.new.faults }
        ensures fails { is_err result ≡ (is_to_fail self.old.fails self.old.calls || (self.old.room - length self.old.held) == 0) }
        ensures after { self.new ≡ after_write self.old piece.now }
    {
        let call = self.calls;
        self.calls = call.saturating_add(1);
        let room = self.room as usize - self.held.len();
        if is_to_fail(self.fails.as_slice(), call) || room == 0 {
            self.faults = self.faults.saturating_add(1);
            return Err(Failed);
        }
        let n = piece.len().min(room);
        self.held.extend_from_slice(&piece[..n]).unwrap();
        Ok(n)
    }

    fn flush(&mut self) -> Result<(), Failed>
        ensures held { Some self.new.held ≡ Some self.old.held }
        ensures count { IsCounted result self.old.faults self.new.faults }
        ensures fails { is_err result ≡ is_to_fail self.old.fails self.old.calls }
        ensures after { self.new ≡ after_flush self.old }
    {
        let call = self.calls;
        self.calls = call.saturating_add(1);
        if is_to_fail(self.fails.as_slice(), call) {
            self.faults = self.faults.saturating_add(1);
            return Err(Failed);
        }
        Ok(())
    }
}
