ghost use Rattle.std.specs.Prelude.{◌≡◌, ◌++◌, min, length, take, drop};

use crate::calls::is_to_fail;
use crate::failed::Failed;
use crate::source::Source;
use oi_base::{Blob, Series};
use std::marker::Model;

/// A source over bytes in memory. Its calls are numbered from 0, and those whose number is listed fail.
#[derive(Debug, Drop)]
pub struct MemSource {
    bytes: Blob,
    at: usize,
    calls: u64,
    fails: Series<u64>,
    faults: u64,
}

impl Model for MemSource {
    ghost use Rattle.std.specs.Prelude.{◌≤◌, drop, length};
    ghost use Rattle.oi_outside.specs.Memory.{MemReader};

    ghost Value = { MemReader };

    ghost view = { λ s. record { left = drop s.at s.bytes; calls = s.calls; fails = s.fails; faults = s.faults } };

    ghost invariant = { λ s. s.at ≤ length s.bytes };
}

impl MemSource {
    ghost use Rattle.std.specs.Prelude.{◌≡◌};

    /// Gives these bytes. The reads whose number, from 0, stands in `fails` fail.
    pub fn new(bytes: Blob, fails: Series<u64>) -> MemSource
        ensures { result ≡ record { left = bytes; calls = 0; fails = fails; faults = 0 } }
    {
        MemSource {
            bytes,
            at: 0,
            calls: 0,
            fails,
            faults: 0,
        }
    }
}

impl Source for MemSource {
    ghost use Rattle.std.specs.Prelude.{◌≡◌, ◌<◌, Some, Ok, Err, length, if◌then◌else◌, is_err};
    ghost use Rattle.oi_outside.specs.Calls.{is_to_fail};
    ghost use Rattle.oi_outside.specs.Memory.{after_read, read_size};
    ghost use Rattle.oi_outside.specs.Streams.{IsCounted, Reads};

    ghost left = { λ s. Some s.left };

    ghost faults = { λ s. s.faults };

    fn read(&mut self, buf: &mut [u8]) -> Result<usize, Failed>
        requires { 0 < length buf.old }
        ensures reads { Reads result buf.new (Some self.old.left) (Some self.new.left) }
        ensures count { IsCounted result self.old.faults self.new.faults }
        ensures fails { is_err result ≡ is_to_fail self.old.fails self.old.calls }
        ensures after { self.new ≡ after_read self.old (length buf.old) }
    {
        let call = self.calls;
        self.calls = call.saturating_add(1);
        if is_to_fail(self.fails.as_slice(), call) {
            self.faults = self.faults.saturating_add(1);
            return Err(Failed);
        }
        let left = &self.bytes.as_slice()[self.at..];
        let n = fill(buf, left);
        self.at += n;
        Ok(n)
    }
}

// Copies the front of what is left into the front of the buffer, as much as there is and fits.
fn fill(buf: &mut [u8], left: &[u8]) -> usize
    ensures size { result ≡ min (length left.now) (length buf.old) }
    ensures front { take result buf.new ++ drop result left.now ≡ left.now }
{
    let n = left.len().min(buf.len());
    buf[..n].copy_from_slice(&left[..n]);
    n
}
