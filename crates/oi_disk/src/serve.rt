ghost use Rattle.std.specs.Prelude.{◌≡◌, ◌≤◌, ◌++◌, IfNone, IfOk, IfSome, None, OnErr, OnOk, Some};
ghost use Rattle.oi_disk.specs.Answers.{good};
ghost use Rattle.oi_disk.specs.Disks.{block_count, capacity_data, inquiry_data, lent_read, most_disk, read_served, write_served};

use crate::answer::{DiskAnswer, good, illegal_request};
use crate::blocks::{BLOCK, blocks_of, is_past_end, overwrite};
use oi_base::NoMemory;
use std::alloc::Global;

pub const UNKNOWN_OPCODE: u8 = 0x20;

const ADDRESS_PAST_END: u8 = 0x21;

const BAD_FIELD: u8 = 0x24;

pub fn read(
    alloc: Global,
    disk: &[u8],
    lba: u64,
    blocks: u32,
    out: &mut Vec<u8>,
) -> Result<DiskAnswer, NoMemory>
    ensures answer { IfOk result (λ a. a ≡ (read_served disk.now lba blocks).answer) }
    ensures read { OnOk result (out.new.items ≡ out.old.items ++ (read_served disk.now lba blocks).read) }
    ensures none { OnErr result (out.new.items ≡ out.old.items) }
{
    if is_past_end(disk, lba, blocks) {
        return illegal_request(alloc, ADDRESS_PAST_END);
    }
    send(alloc, blocks_of(disk, lba, blocks), out)
}

pub fn lend_blocks(disk: &[u8], lba: u64, blocks: u32) -> Option<&[u8]>
    ensures some { IfSome result (λ b. lent_read disk.now lba blocks ≡ Some b.now) }
    ensures none { IfNone result (lent_read disk.now lba blocks ≡ None) }
{
    if is_past_end(disk, lba, blocks) {
        None
    } else {
        Some(blocks_of(disk, lba, blocks))
    }
}

pub fn write(
    alloc: Global,
    disk: &mut [u8],
    lba: u64,
    blocks: u32,
    payload: &[u8],
) -> Result<DiskAnswer, NoMemory>
    ensures answer { IfOk result (λ a. a ≡ (write_served disk.old lba blocks payload.now).answer) }
    ensures disk { OnOk result (disk.new ≡ (write_served disk.old lba blocks payload.now).disk) }
    ensures same { OnErr result (disk.new ≡ disk.old) }
{
    if is_past_end(disk, lba, blocks) {
        return illegal_request(alloc, ADDRESS_PAST_END);
    }
    if payload.len() != BLOCK * blocks as usize {
        return illegal_request(alloc, BAD_FIELD);
    }
    overwrite(disk, lba, payload);
    Ok(good(alloc))
}

pub fn send(alloc: Global, bytes: &[u8], out: &mut Vec<u8>) -> Result<DiskAnswer, NoMemory>
    ensures answer { IfOk result (λ a. a ≡ good) }
    ensures read { OnOk result (out.new.items ≡ out.old.items ++ bytes.now) }
    ensures none { OnErr result (out.new.items ≡ out.old.items) }
{
    out.extend_from_slice(bytes)?;
    Ok(good(alloc))
}

pub fn inquiry_data() -> [u8; 36]
    ensures { result ≡ inquiry_data }
{
    *b"\x00\x00\x05\x02\x1f\x00\x00\x00OPENISCSTEST DISK       0001"
}

pub fn capacity_data(disk: &[u8]) -> [u8; 8]
    requires least { 1 ≤ block_count disk.now }
    requires most { block_count disk.now ≤ most_disk }
    ensures { result ≡ capacity_data disk.now }
{
    let last = ((disk.len() / BLOCK) as u32 - 1).to_be_bytes();
    [last[0], last[1], last[2], last[3], 0, 0, 2, 0]
}
