ghost use Rattle.std.specs.Prelude.{◌≡◌, length, IfOk, OnOk, OnErr};
ghost use Rattle.oi_buffer.specs.Placings.{after_place, none_placed, place_answer};

use crate::PlaceFault;
use oi_base::NoMemory;
use std::alloc::Global;
use std::marker::Model;

/// The data of one read: one buffer of the whole length, and the count of the pieces in it.
#[derive(Debug, Drop)]
pub struct Placing {
    asked: u32,
    count: u64,
    bytes: Vec<u8>,
}

impl Model for Placing {
    ghost use Rattle.std.specs.Prelude.{vec_capacity};
    ghost use Rattle.oi_buffer.specs.Placings.{IsInside, Placed};

    ghost Value = { Placed };

    ghost view = { λ p. record { length = p.asked; count = p.count; bytes = p.bytes.items } };

    ghost invariant = { λ p. IsInside p.asked p.count p.bytes.items (vec_capacity p.bytes) };
}

impl Placing {
    /// Room for `length` bytes: all memory that a read takes.
    pub fn new(alloc: Global, length: u32) -> Result<Placing, NoMemory>
        ensures { IfOk result (λ p. p ≡ none_placed length) }
    {
        Ok(Placing {
            asked: length,
            count: 0,
            bytes: Vec::with_capacity(alloc, length as usize)?,
        })
    }

    /// Takes the bytes of a Data-In with this DataSN and buffer offset.
    pub fn place(&mut self, number: u32, offset: u32, bytes: &[u8]) -> Result<(), PlaceFault>
        ensures answer { result ≡ place_answer self.old number offset (length bytes.now) }
        ensures ok { OnOk result (self.new ≡ after_place self.old bytes.now) }
        ensures err { OnErr result (self.new ≡ self.old) }
    {
        if number as u64 != self.count {
            return Err(PlaceFault::Number);
        }
        if offset as usize != self.bytes.len() {
            return Err(PlaceFault::Offset);
        }
        if bytes.len() > (self.asked - offset) as usize {
            return Err(PlaceFault::Range);
        }
        self.bytes.extend_from_slice(bytes).unwrap();
        self.count += 1;
        Ok(())
    }

    /// The bytes so far, from the beginning on.
    pub fn placed(&self) -> &[u8]
        ensures { result.now ≡ self.now.bytes }
    {
        self.bytes.as_slice()
    }
}
