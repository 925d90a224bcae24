ghost use Rattle.std.specs.Prelude.{◌≡◌, ◌++◌, OnOk, OnErr, [], length};

use crate::command::Command;
use crate::fate::Fate;
use oi_base::{Blob, NoMemory};
use std::alloc::Global;
use std::marker::Model;

/// One submission: its command, where it stands, the data that its present try got, and whether it was handed out.
#[derive(Debug, Drop)]
pub struct Task {
    pub command: Command,
    pub fate: Fate,
    pub got: Received,
    /// Data-In PDUs of the present try.
    pub pieces: u32,
    /// Its outcome was handed out.
    pub told: bool,
}

impl Task {
    ghost use Rattle.oi_history.specs.Tasks.{fresh_task};

    /// A submission that came in just now.
    pub fn new(alloc: Global, command: Command) -> Task
        ensures { result ≡ fresh_task command }
    {
        Task {
            command,
            fate: Fate::Waiting { tries: 0 },
            got: Received::new(alloc),
            pieces: 0,
            told: false,
        }
    }
}

/// Data that grows piece by piece; contracts see the bytes.
#[derive(Debug, Drop)]
pub struct Received {
    bytes: Vec<u8>,
}

impl Model for Received {
    ghost use Rattle.std.specs.Prelude.{List, ℕ};

    ghost Value = { List ℕ };

    ghost view = { λ r. r.bytes.items };

    ghost use Rattle.std.specs.Prelude.{◌<◌, ◌^◌, vec_len};

    ghost invariant = { λ r. vec_len r.bytes < 2 ^ 32 };
}

impl Received {
    pub fn new(alloc: Global) -> Received
        ensures { result ≡ [] }
    {
        Received {
            bytes: Vec::new(alloc),
        }
    }

    pub fn count(&self) -> u32
        ensures { result ≡ length self.now }
    {
        self.bytes.len() as u32
    }

    pub fn append(&mut self, piece: &[u8]) -> Result<(), NoMemory>
        ensures ok { OnOk result (self.new ≡ self.old ++ piece.now) }
        ensures err { OnErr result (self.new ≡ self.old) }
    {
        if piece.len() > u32::MAX as usize - self.bytes.len() {
            return Err(NoMemory);
        }
        self.bytes.extend_from_slice(piece)?;
        Ok(())
    }

    pub fn into_blob(self) -> Blob
        ensures { result ≡ self }
    {
        let Received { bytes } = self;
        Blob::from_vec(bytes)
    }
}
