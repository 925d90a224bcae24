ghost use Rattle.std.specs.Prelude.{◌↔◌, IsTrue};
ghost use Rattle.oi_disk.specs.Commands.{IsDiskCommand};

use oi_disk::*;
use std::process::Abort;
use std::test::Fail;

/// The answer's status and the additional sense code that its sense data must have, and its data.
fn assert_answer(rt: &impl Abort, answer: &DiskAnswer, code: Option<u8>) {
    match code {
        None => {
            assert_eq!(rt; answer.status, 0x00);
            assert_eq!(rt; answer.sense.as_slice(), [0u8; 0].as_slice());
        }
        Some(code) => {
            assert_eq!(rt; answer.status, 0x02);
            assert_eq!(rt;
                answer.sense.as_slice(),
                [
                    0x70u8, 0, 0x05, 0, 0, 0, 0, 0x0a, 0, 0, 0, 0, code, 0, 0, 0, 0, 0
                ]
                .as_slice()
            );
        }
    }
}

fn is_for_disk(cdb: &[u8; 16]) -> bool
    ensures { IsTrue result ↔ IsDiskCommand cdb.now }
{
    cdb[0] != 0xa0 && cdb[0] != 0x5e && cdb[0] != 0x5f
}

const ZEROS: &[u8] = &[0; 512];

const ONES: &[u8] = &[1; 512];

// Commands one after another: what each sends, the sense code of its answer, and the data of that, block by block.
static COMMANDS: [([u8; 16], &[u8], Option<u8>, &[&[u8]]); 13] = [
    // WRITE(10) and READ(10) of the last block
    (
        [0x2a, 0, 0, 0, 0, 7, 0, 0, 1, 0, 0, 0, 0, 0, 0, 0],
        ONES,
        None,
        &[],
    ),
    (
        [0x28, 0, 0, 0, 0, 7, 0, 0, 1, 0, 0, 0, 0, 0, 0, 0],
        b"",
        None,
        &[ONES],
    ),
    // one block past the end
    (
        [0x28, 0, 0, 0, 0, 7, 0, 0, 2, 0, 0, 0, 0, 0, 0, 0],
        b"",
        Some(0x21),
        &[],
    ),
    (
        [0x2a, 0, 0, 0, 0, 8, 0, 0, 1, 0, 0, 0, 0, 0, 0, 0],
        ONES,
        Some(0x21),
        &[],
    ),
    // no blocks, at the end and past it
    (
        [0x28, 0, 0, 0, 0, 8, 0, 0, 0, 0, 0, 0, 0, 0, 0, 0],
        b"",
        None,
        &[],
    ),
    (
        [0x28, 0, 0, 0, 0, 9, 0, 0, 0, 0, 0, 0, 0, 0, 0, 0],
        b"",
        Some(0x21),
        &[],
    ),
    // data one byte short
    (
        [0x2a, 0, 0, 0, 0, 6, 0, 0, 1, 0, 0, 0, 0, 0, 0, 0],
        &[1; 511],
        Some(0x24),
        &[],
    ),
    // READ(16) of the last two blocks, and far past the end
    (
        [0x88, 0, 0, 0, 0, 0, 0, 0, 0, 6, 0, 0, 0, 2, 0, 0],
        b"",
        None,
        &[ZEROS, ONES],
    ),
    (
        [0x88, 0, 0, 0, 0, 1, 0, 0, 0, 6, 0, 0, 0, 2, 0, 0],
        b"",
        Some(0x21),
        &[],
    ),
    // TEST UNIT READY, SYNCHRONIZE CACHE(10), READ CAPACITY(10)
    ([0; 16], b"", None, &[]),
    (
        [0x35, 0, 0, 0, 0, 0, 0, 0, 0, 0, 0, 0, 0, 0, 0, 0],
        b"",
        None,
        &[],
    ),
    (
        [0x25, 0, 0, 0, 0, 0, 0, 0, 0, 0, 0, 0, 0, 0, 0, 0],
        b"",
        None,
        &[&[0, 0, 0, 7, 0, 0, 2, 0]],
    ),
    // MODE SENSE(6)
    (
        [0x1a, 0, 0, 0, 0, 0, 0, 0, 0, 0, 0, 0, 0, 0, 0, 0],
        b"",
        Some(0x20),
        &[],
    ),
];

#[test]
fn commands_one_after_another(rt: HostRuntime) -> Result<(), Fail> {
    let alloc = rt.alloc();
    let mut disk = FlatDisk::new(alloc, 8)?;
    for (cdb, payload, code, parts) in &COMMANDS {
        let mut wanted = Vec::new(alloc);
        for part in *parts {
            wanted.extend_from_slice(*part)?;
        }
        let mut out = Vec::new(alloc);
        assert!(rt; is_for_disk(cdb));
        let answer = disk.answer(alloc, cdb, *payload, &mut out)?;
        assert_answer(&rt, &answer, *code);
        assert_eq!(rt; out.as_slice(), wanted.as_slice(), "{cdb:?}");
    }
    Ok(())
}

#[test]
fn inquiry(rt: HostRuntime) -> Result<(), Fail> {
    let mut disk = FlatDisk::new(rt.alloc(), 1024)?;
    let mut out = Vec::new(rt.alloc());
    let cdb = [0x12, 0, 0, 0, 36, 0, 0, 0, 0, 0, 0, 0, 0, 0, 0, 0];
    let answer = disk.answer(rt.alloc(), &cdb, &[], &mut out)?;
    assert_answer(&rt, &answer, None);
    assert_eq!(rt; out.len(), 36);
    assert_eq!(rt; &out[..8], [0u8, 0, 5, 2, 0x1f, 0, 0, 0].as_slice());
    assert_eq!(rt; &out[8..], b"OPENISCSTEST DISK       0001".as_slice());
    Ok(())
}
