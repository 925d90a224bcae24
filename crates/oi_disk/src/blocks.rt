ghost use Rattle.std.specs.Prelude.{◌≡◌, ◌+◌, ◌*◌, ◌≤◌, length, nat_lt, slice_range};
ghost use Rattle.oi_base.specs.Limits.{block_length};
ghost use Rattle.oi_disk.specs.Disks.{block_count, overwritten};

pub const BLOCK: usize = 512;

/// Whether these blocks end past the disk's end.
pub fn is_past_end(disk: &[u8], lba: u64, blocks: u32) -> bool
    ensures { result ≡ nat_lt (block_count disk.now) (lba + blocks) }
{
    let count = (disk.len() / BLOCK) as u64;
    lba > count || blocks as u64 > count - lba
}

pub fn blocks_of(disk: &[u8], lba: u64, blocks: u32) -> &[u8]
    requires { lba + blocks ≤ block_count disk.now }
    ensures { result.now ≡ slice_range disk.now (block_length * lba) (block_length * lba + block_length * blocks) }
{
    let from = BLOCK * lba as usize;
    &disk[from..from + BLOCK * blocks as usize]
}

pub fn overwrite(disk: &mut [u8], lba: u64, payload: &[u8])
    requires { block_length * lba + length payload.now ≤ length disk.old }
    ensures { disk.new ≡ overwritten disk.old (block_length * lba) payload.now }
{
    let from = BLOCK * lba as usize;
    disk[from..from + payload.len()].copy_from_slice(payload);
}
