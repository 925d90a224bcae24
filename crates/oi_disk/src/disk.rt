ghost use Rattle.std.specs.Prelude.{◌≡◌, ◌*◌, ◌≤◌, ◌++◌, IfNone, IfOk, IfSome, None, OnErr, OnOk, Some, replicate};
ghost use Rattle.oi_base.specs.Limits.{block_length};
ghost use Rattle.oi_disk.specs.Commands.{IsDiskCommand};
ghost use Rattle.oi_disk.specs.Disks.{disk_answer, least_disk, lent, most_disk};

use crate::answer::{DiskAnswer, good, illegal_request};
use crate::blocks::BLOCK;
use crate::command::{Command, read_command};
use crate::serve::{UNKNOWN_OPCODE, capacity_data, inquiry_data, lend_blocks, read, send, write};
use oi_base::NoMemory;
use std::alloc::Global;
use std::marker::Model;

/// A disk of 8 to 65,536 blocks of 512 bytes, which contracts see as the list of its bytes.
#[derive(Debug, Drop)]
pub struct FlatDisk {
    bytes: Vec<u8>,
}

impl Model for FlatDisk {
    ghost use Rattle.std.specs.Prelude.{List, ℕ};
    ghost use Rattle.oi_disk.specs.Disks.{IsDisk};

    ghost Value = { List ℕ };

    ghost view = { λ d. d.bytes.items };

    ghost invariant = { λ d. IsDisk d.bytes.items };
}

impl FlatDisk {
    /// All blocks are zero. It takes all memory that the disk ever takes.
    pub fn new(alloc: Global, blocks: u32) -> Result<FlatDisk, NoMemory>
        requires least { least_disk ≤ blocks }
        requires most { blocks ≤ most_disk }
        ensures { IfOk result (λ d. d ≡ replicate (block_length * blocks) 0) }
    {
        Ok(FlatDisk {
            bytes: vec![in alloc; 0u8; BLOCK * blocks as usize]?,
        })
    }

    /// The bytes that a READ within the disk's end is sent, which stay where they are; None for any other command.
    pub fn lend(&self, cdb: &[u8; 16]) -> Option<&[u8]>
        ensures some { IfSome result (λ b. lent self.now cdb.now ≡ Some b.now) }
        ensures none { IfNone result (lent self.now cdb.now ≡ None) }
    {
        match read_command(cdb) {
            Command::Read { lba, blocks } => lend_blocks(&self.bytes, lba, blocks),
            Command::Write { .. }
            | Command::Ready
            | Command::Sync
            | Command::Inquiry
            | Command::Capacity
            | Command::Unknown => None,
        }
    }

    /// Serves one command with the data that came for it, and appends what it sends to `out`, before any cut at the
    /// command's expected length. Memory is taken for the sense data and by the growth of `out` alone.
    pub fn answer(
        &mut self,
        alloc: Global,
        cdb: &[u8; 16],
        payload: &[u8],
        out: &mut Vec<u8>,
    ) -> Result<DiskAnswer, NoMemory>
        requires { IsDiskCommand cdb.now }
        ensures answer { IfOk result (λ a. a ≡ (disk_answer self.old cdb.now payload.now).answer) }
        ensures read { OnOk result (out.new.items ≡ out.old.items ++ (disk_answer self.old cdb.now payload.now).read) }
        ensures disk { OnOk result (self.new ≡ (disk_answer self.old cdb.now payload.now).disk) }
        ensures same { OnErr result (self.new ≡ self.old) }
        ensures none { OnErr result (out.new.items ≡ out.old.items) }
    {
        match read_command(cdb) {
            Command::Read { lba, blocks } => read(alloc, &self.bytes, lba, blocks, out),
            Command::Write { lba, blocks } => {
                write(alloc, self.bytes.as_mut_slice(), lba, blocks, payload)
            }
            Command::Ready | Command::Sync => Ok(good(alloc)),
            Command::Inquiry => send(alloc, &inquiry_data(), out),
            Command::Capacity => send(alloc, &capacity_data(&self.bytes), out),
            Command::Unknown => illegal_request(alloc, UNKNOWN_OPCODE),
        }
    }
}
