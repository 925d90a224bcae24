use oi_base::{Blob, NoMemory};
use oi_recovery::Residual;
use oi_reserve::Nexus;
use oi_units::*;
use std::alloc::Global;
use std::process::Abort;
use std::test::Fail;

fn command(lun: u8, cdb: [u8; 16], reads: bool, writes: bool, length: u32) -> UnitCommand {
    let lun = [0, lun, 0, 0, 0, 0, 0, 0];
    UnitCommand {
        lun,
        cdb,
        reads,
        writes,
        length,
    }
}

fn is_answered(rt: &impl Abort, reply: &UnitReply, status: u8, residual: Residual, sent: &[u8]) {
    assert_eq!(rt; reply.status, status);
    assert_eq!(rt; reply.residual, residual);
    assert_eq!(rt; reply.sent.as_slice(), sent);
}

fn two_units(alloc: Global) -> Result<Units, NoMemory> {
    Units::new(alloc, &[8, 1024])
}

const CAPACITY: [u8; 16] = [0x25, 0, 0, 0, 0, 0, 0, 0, 0, 0, 0, 0, 0, 0, 0, 0];

const LUNS: [u8; 16] = [0xa0, 0, 0, 0, 0, 0, 0, 0, 1, 8, 0, 0, 0, 0, 0, 0];

const READY: [u8; 16] = [0; 16];

const CAPACITY_SENT: [u8; 8] = [0, 0, 3, 0xff, 0, 0, 2, 0];

const LUNS_SENT: [u8; 24] = [
    0, 0, 0, 16, 0, 0, 0, 0, 0, 0, 0, 0, 0, 0, 0, 0, 0, 1, 0, 0, 0, 0, 0, 0,
];

// A command without data for the target, and its reply. There is no unit 2.
struct Exchange {
    lun: u8,
    cdb: [u8; 16],
    reads: bool,
    writes: bool,
    length: u32,
    status: u8,
    residual: Residual,
    sent: &'static [u8],
}

static EXCHANGES: [Exchange; 8] = [
    Exchange {
        lun: 1,
        cdb: CAPACITY,
        reads: true,
        writes: false,
        length: 8,
        status: 0x00,
        residual: Residual::Exact,
        sent: &CAPACITY_SENT,
    },
    Exchange {
        lun: 1,
        cdb: CAPACITY,
        reads: true,
        writes: false,
        length: 10,
        status: 0x00,
        residual: Residual::Under(2),
        sent: &CAPACITY_SENT,
    },
    Exchange {
        lun: 1,
        cdb: CAPACITY,
        reads: true,
        writes: false,
        length: 3,
        status: 0x00,
        residual: Residual::Over(5),
        sent: &[0, 0, 3],
    },
    Exchange {
        lun: 1,
        cdb: CAPACITY,
        reads: false,
        writes: false,
        length: 8,
        status: 0x00,
        residual: Residual::Over(8),
        sent: &[],
    },
    Exchange {
        lun: 1,
        cdb: CAPACITY,
        reads: true,
        writes: true,
        length: 8,
        status: 0x00,
        residual: Residual::Over(8),
        sent: &[],
    },
    Exchange {
        lun: 0,
        cdb: LUNS,
        reads: true,
        writes: false,
        length: 264,
        status: 0x00,
        residual: Residual::Under(240),
        sent: &LUNS_SENT,
    },
    Exchange {
        lun: 2,
        cdb: READY,
        reads: false,
        writes: false,
        length: 0,
        status: 0x02,
        residual: Residual::Exact,
        sent: &[],
    },
    Exchange {
        lun: 2,
        cdb: READY,
        reads: true,
        writes: false,
        length: 9,
        status: 0x02,
        residual: Residual::Under(9),
        sent: &[],
    },
];

#[test]
fn residuals_and_lists(rt: HostRuntime) -> Result<(), Fail> {
    let nexus = Nexus {
        bytes: Blob::new(rt.alloc()),
    };
    let mut units = two_units(rt.alloc())?;
    assert!(rt; units.has([0, 1, 0, 0, 0, 0, 0, 0]));
    assert!(rt; !units.has([0, 2, 0, 0, 0, 0, 0, 0]));
    for row in &EXCHANGES {
        let asked = command(row.lun, row.cdb, row.reads, row.writes, row.length);
        let reply = units.execute(rt.alloc(), &nexus, asked, &[])?;
        is_answered(&rt, &reply, row.status, row.residual, row.sent);
    }
    Ok(())
}

// SPC-4, section 5.13: another nexus is kept from writing, and nothing is written.
#[test]
fn a_reserved_unit(rt: HostRuntime) -> Result<(), Fail> {
    let holder = Nexus {
        bytes: Blob::from_slice(rt.alloc(), b"a")?,
    };
    let other = Nexus {
        bytes: Blob::from_slice(rt.alloc(), b"b")?,
    };
    let mut units = two_units(rt.alloc())?;
    let out = |action: u8| [0x5f, action, 1, 0, 0, 0, 0, 0, 24, 0, 0, 0, 0, 0, 0, 0];
    let mut register = [0u8; 24];
    register[15] = 7;
    let mut reserve = [0u8; 24];
    reserve[7] = 7;
    let ones = [1u8; 512];
    let write = [0x2a, 0, 0, 0, 0, 0, 0, 0, 1, 0, 0, 0, 0, 0, 0, 0];
    for (nexus, cdb, payload, status, residual) in [
        (&holder, out(0), register.as_slice(), 0x00, Residual::Exact),
        (&holder, out(1), reserve.as_slice(), 0x00, Residual::Exact),
        (&other, write, ones.as_slice(), 0x18, Residual::Under(512)),
        (
            &other,
            out(1),
            reserve.as_slice(),
            0x18,
            Residual::Under(24),
        ),
    ] {
        let asked = command(0, cdb, false, true, payload.len() as u32);
        let reply = units.execute(rt.alloc(), nexus, asked, payload)?;
        is_answered(&rt, &reply, status, residual, &[]);
    }
    let read = [0x28, 0, 0, 0, 0, 0, 0, 0, 1, 0, 0, 0, 0, 0, 0, 0];
    let reply = units.execute(rt.alloc(), &holder, command(0, read, true, false, 512), &[])?;
    is_answered(&rt, &reply, 0x00, Residual::Exact, &[0u8; 512]);
    Ok(())
}
