use oi_base::Params;
use oi_negotiate::*;
use oi_text::read_pairs;
use std::alloc::Global;
use std::process::Abort;
use std::test::Fail;

// What is settled where the target says nothing.
const SILENT: Params = Params {
    initial_r2t: true,
    immediate: true,
    max_send: 8192,
    max_recv: 262_144,
    max_burst: 262_144,
    first_burst: 65_536,
    outstanding: 1,
    time2wait: 2,
    time2retain: 20,
};

fn settles(rt: &impl Abort, alloc: Global, text: &[u8], wanted: Params) -> Result<(), Fail> {
    let pairs = read_pairs(alloc, text)?;
    let outcome = negotiate(alloc, &Offer::standard(), pairs.as_slice())?;
    assert_eq!(rt; outcome, wanted);
    Ok(())
}

fn fails(rt: &impl Abort, alloc: Global, text: &[u8], key: &[u8]) -> Result<(), Fail> {
    let pairs = read_pairs(alloc, text)?;
    match negotiate(alloc, &Offer::standard(), pairs.as_slice()) {
        Err(KeyFault::Bad { key: named }) => assert_eq!(rt; named.as_slice(), key),
        _ => panic!(rt; "not refused"),
    }
    Ok(())
}

fn bursts(max_burst: u32, first_burst: u32) -> Params {
    Params {
        max_burst,
        first_burst,
        ..SILENT
    }
}

// What the target says, and the burst lengths that are settled.
static BURSTS: [(&[u8], u32, u32); 9] = [
    (b"", 262_144, 65_536),
    (b"MaxBurstLength=65536\0", 65_536, 65_536),
    (b"MaxBurstLength=0x10000\0", 65_536, 65_536),
    (b"MaxBurstLength=512\0", 512, 512),
    (b"MaxBurstLength=16777215\0", 16_776_192, 65_536),
    (b"FirstBurstLength=0XFFff\0", 262_144, 65_535),
    (b"FirstBurstLength=00000131072\0", 262_144, 131_072),
    (b"FirstBurstLength=16777215\0", 262_144, 262_144),
    (
        b"MaxBurstLength=Irrelevant\0ImmediateData=NotUnderstood\0",
        262_144,
        65_536,
    ),
];

#[test]
fn settled_bursts(rt: HostRuntime) -> Result<(), Fail> {
    for (text, max_burst, first_burst) in &BURSTS {
        settles(&rt, rt.alloc(), *text, bursts(*max_burst, *first_burst))?;
    }
    Ok(())
}

// What the target says, and what is settled.
static KEYS: [(&[u8], Params); 10] = [
    (
        b"InitialR2T=No\0",
        Params {
            initial_r2t: false,
            ..SILENT
        },
    ),
    (b"InitialR2T=Yes\0", SILENT),
    (
        b"ImmediateData=No\0",
        Params {
            immediate: false,
            ..SILENT
        },
    ),
    (
        b"DefaultTime2Wait=3600\0",
        Params {
            time2wait: 3600,
            ..SILENT
        },
    ),
    (b"DefaultTime2Wait=0\0", SILENT),
    (
        b"DefaultTime2Retain=9\0",
        Params {
            time2retain: 0,
            ..SILENT
        },
    ),
    (b"MaxOutstandingR2T=65535\0", SILENT),
    (
        b"MaxRecvDataSegmentLength=512\0",
        Params {
            max_send: 512,
            ..SILENT
        },
    ),
    (
        b"MaxConnections=65535\0ErrorRecoveryLevel=2\0DataPDUInOrder=No\0",
        SILENT,
    ),
    (b"HeaderDigest=None\0X-other=Reject\0X-other=1\0", SILENT),
];

#[test]
fn settled_keys(rt: HostRuntime) -> Result<(), Fail> {
    for (text, wanted) in &KEYS {
        settles(&rt, rt.alloc(), *text, *wanted)?;
    }
    Ok(())
}

// What the target says, and the key for which it is refused.
static REFUSED: [(&[u8], &[u8]); 11] = [
    (b"HeaderDigest=CRC32C\0", b"HeaderDigest"),
    (b"MaxBurstLength=511\0", b"MaxBurstLength"),
    (b"MaxBurstLength=16777216\0", b"MaxBurstLength"),
    (
        b"MaxBurstLength=0x100000000000000000200\0",
        b"MaxBurstLength",
    ),
    (b"ImmediateData=Reject\0", b"ImmediateData"),
    (b"InitialR2T=yes\0", b"InitialR2T"),
    (b"DefaultTime2Retain=0x\0", b"DefaultTime2Retain"),
    (b"DefaultTime2Wait=3601\0", b"DefaultTime2Wait"),
    (b"MaxOutstandingR2T=0\0", b"MaxOutstandingR2T"),
    (b"InitialR2T=Irrelevant\0InitialR2T=Yes\0", b"InitialR2T"),
    (
        b"X=1\0ErrorRecoveryLevel=3\0MaxConnections=0\0",
        b"ErrorRecoveryLevel",
    ),
];

#[test]
fn refused_keys(rt: HostRuntime) -> Result<(), Fail> {
    for (text, key) in &REFUSED {
        fails(&rt, rt.alloc(), *text, *key)?;
    }
    Ok(())
}
