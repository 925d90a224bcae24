ghost use Rattle.std.specs.Prelude.{◌≡◌, ◌+◌, ◌≤◌, length};
ghost use Rattle.oi_disk.specs.Commands.{command_of, half_at, long_at, word_at};

/// What is asked of a disk. Addresses and counts are in blocks of 512 bytes.
#[derive(Clone, Copy, Debug, PartialEq, Eq)]
pub enum Command {
    Read { lba: u64, blocks: u32 },
    Write { lba: u64, blocks: u32 },
    /// TEST UNIT READY.
    Ready,
    Inquiry,
    /// READ CAPACITY(10).
    Capacity,
    /// SYNCHRONIZE CACHE(10).
    Sync,
    Unknown,
}

/// The command of a command descriptor block.
pub fn read_command(cdb: &[u8; 16]) -> Command
    ensures { result ≡ command_of cdb.now }
{
    match cdb[0] {
        0x28 => Command::Read {
            lba: word_at(cdb, 2) as u64,
            blocks: half_at(cdb, 7) as u32,
        },
        0x88 => Command::Read {
            lba: long_at(cdb, 2),
            blocks: word_at(cdb, 10),
        },
        0x2a => Command::Write {
            lba: word_at(cdb, 2) as u64,
            blocks: half_at(cdb, 7) as u32,
        },
        0x8a => Command::Write {
            lba: long_at(cdb, 2),
            blocks: word_at(cdb, 10),
        },
        0x00 => Command::Ready,
        0x12 => Command::Inquiry,
        0x25 => Command::Capacity,
        0x35 => Command::Sync,
        _ => Command::Unknown,
    }
}

fn half_at(cdb: &[u8], k: usize) -> u16
    requires { k + 2 ≤ length cdb.now }
    ensures { result ≡ half_at cdb.now k }
{
    u16::from_be_bytes([cdb[k], cdb[k + 1]])
}

fn word_at(cdb: &[u8], k: usize) -> u32
    requires { k + 4 ≤ length cdb.now }
    ensures { result ≡ word_at cdb.now k }
{
    u32::from_be_bytes([cdb[k], cdb[k + 1], cdb[k + 2], cdb[k + 3]])
}

fn long_at(cdb: &[u8], k: usize) -> u64
    requires { k + 8 ≤ length cdb.now }
    ensures { result ≡ long_at cdb.now k }
{
    u64::from_be_bytes([
        cdb[k],
        cdb[k + 1],
        cdb[k + 2],
        cdb[k + 3],
        cdb[k + 4],
        cdb[k + 5],
        cdb[k + 6],
        cdb[k + 7],
    ])
}
