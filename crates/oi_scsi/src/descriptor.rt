ghost use Rattle.std.specs.Prelude.{◌≡◌};
ghost use Rattle.oi_scsi.specs.Commands.{block_command, cdb_of, long_form, lun_of, plain, short_form};

use crate::request::Kind;

/// The command descriptor block of a request, behind it zeros up to 16 bytes.
pub fn cdb(kind: &Kind) -> [u8; 16]
    ensures { result ≡ cdb_of kind.now }
{
    match kind {
        Kind::Read { lba, blocks } => block_command(0x28, 0x88, *lba, *blocks),
        Kind::Write { lba, blocks, .. } => block_command(0x2a, 0x8a, *lba, *blocks),
        Kind::Unit => plain(0x00),
        Kind::Inquiry => [0x12, 0, 0, 0, 36, 0, 0, 0, 0, 0, 0, 0, 0, 0, 0, 0],
        Kind::Capacity => plain(0x25),
        Kind::Luns => [0xa0, 0, 0, 0, 0, 0, 0, 0, 1, 8, 0, 0, 0, 0, 0, 0],
        Kind::Sync => plain(0x35),
        Kind::ReserveOut { action, form, .. } => [
            0x5f, *action, *form, 0, 0, 0, 0, 0, 24, 0, 0, 0, 0, 0, 0, 0,
        ],
        Kind::ReserveIn { action } => [0x5e, *action, 0, 0, 0, 0, 0, 1, 8, 0, 0, 0, 0, 0, 0, 0],
    }
}

fn block_command(short: u8, op: u8, lba: u64, blocks: u16) -> [u8; 16]
    ensures { result ≡ block_command short op lba blocks }
{
    if lba < 0x1_0000_0000 {
        short_form(short, lba as u32, blocks)
    } else {
        long_form(op, lba, blocks as u32)
    }
}

fn short_form(op: u8, lba: u32, blocks: u16) -> [u8; 16]
    ensures { result ≡ short_form op lba blocks }
{
    let a = lba.to_be_bytes();
    let n = blocks.to_be_bytes();
    [
        op, 0, a[0], a[1], a[2], a[3], 0, n[0], n[1], 0, 0, 0, 0, 0, 0, 0,
    ]
}

fn long_form(op: u8, lba: u64, blocks: u32) -> [u8; 16]
    ensures { result ≡ long_form op lba blocks }
{
    let a = lba.to_be_bytes();
    let n = blocks.to_be_bytes();
    [
        op, 0, a[0], a[1], a[2], a[3], a[4], a[5], a[6], a[7], n[0], n[1], n[2], n[3], 0, 0,
    ]
}

fn plain(op: u8) -> [u8; 16]
    ensures { result ≡ plain op }
{
    [op, 0, 0, 0, 0, 0, 0, 0, 0, 0, 0, 0, 0, 0, 0, 0]
}

/// The eight bytes of a logical unit number.
pub fn lun_bytes(lun: u8) -> [u8; 8]
    ensures { result ≡ lun_of lun }
{
    [0, lun, 0, 0, 0, 0, 0, 0]
}
