use oi_base::{Blob, Serial, Tag};
use oi_pdu::{Header, Pdu, ScsiCommand};
use oi_reserve::Nexus;
use oi_target_session::*;
use oi_units::Units;
use std::alloc::Global;
use std::collections::VecDeque;
use std::process::Abort;
use std::test::Fail;

const LIMITS: Limits = Limits {
    max_send: 65536,
    max_burst: 262_144,
    first_burst: 65536,
};

// A session at its first command, and what it wrote last.
#[derive(Debug, Drop)]
struct Bench {
    alloc: Global,
    session: Session,
    units: Units,
    out: Vec<u8>,
}

impl Bench {
    fn new(alloc: Global) -> Result<Bench, Fail> {
        let nexus = Nexus {
            bytes: Blob::new(alloc),
        };
        let numbers = Numbers {
            exp: Serial(1),
            stat: Serial(3),
        };
        Ok(Bench {
            alloc,
            session: Session::new(alloc, nexus, false, LIMITS, numbers),
            units: Units::new(alloc, &[1024])?,
            out: Vec::new(alloc),
        })
    }

    // A READ CAPACITY with this tag has its turn.
    fn meets(&mut self, tag: u32, cmdsn: u32) -> Result<Fed, Fail> {
        let pdu = read_capacity(self.alloc, tag, cmdsn);
        self.session.advance();
        let fed = self
            .session
            .serve(&mut self.units, &[], pdu, &mut self.out)?;
        Ok(fed)
    }
}

fn read_capacity(alloc: Global, tag: u32, cmdsn: u32) -> Pdu {
    Pdu {
        head: capacity(tag, cmdsn),
        payload: Blob::new(alloc),
    }
}

fn capacity(tag: u32, cmdsn: u32) -> Header {
    Header::ScsiCommand(ScsiCommand {
        immediate: false,
        last: true,
        reads: true,
        writes: false,
        attr: 1,
        lun: [0; 8],
        tag: Tag(tag),
        length: 8,
        cmdsn: Serial(cmdsn),
        exp_stat: Serial(3),
        cdb: [0x25, 0, 0, 0, 0, 0, 0, 0, 0, 0, 0, 0, 0, 0, 0, 0],
    })
}

// The answer to a READ CAPACITY with this tag, StatSN, ExpCmdSN and MaxCmdSN.
fn blocks(tag: u8, stat: u8, exp: u8, max: u8) -> [u8; 56] {
    [
        0x25, 0x81, 0, 0, 0, 0, 0, 8, 0, 0, 0, 0, 0, 0, 0, 0, 0, 0, 0, tag, 0xff, 0xff, 0xff, 0xff,
        0, 0, 0, stat, 0, 0, 0, exp, 0, 0, 0, max, 0, 0, 0, 0, 0, 0, 0, 0, 0, 0, 0, 0, 0, 0, 3,
        0xff, 0, 0, 2, 0,
    ]
}

#[test]
fn capacity_is_answered(rt: HostRuntime) -> Result<(), Fail> {
    let mut bench = Bench::new(rt.alloc())?;
    assert_eq!(rt; bench.meets(0, 1)?, Fed::Going);
    assert_eq!(rt; bench.out.as_slice(), blocks(0, 3, 2, 33).as_slice());
    Ok(())
}

// CmdSN, and the place where 1 is expected, or 4,294,967,295.
#[test]
fn places_of_commands(rt: HostRuntime) -> Result<(), Fail> {
    for (cmdsn, place, late) in [
        (1, Place::InTurn, Place::Early(1)),
        (2, Place::Early(0), Place::Early(2)),
        (30, Place::Early(28), Place::Early(30)),
        (31, Place::Early(29), Place::Outside),
        (32, Place::Early(30), Place::Outside),
        (33, Place::Outside, Place::Outside),
        (0, Place::Outside, Place::Early(0)),
        (4_294_967_295, Place::Outside, Place::InTurn),
    ] {
        assert_eq!(rt; place_of(false, Serial(1), capacity(0, cmdsn)), place);
        assert_eq!(rt;
            place_of(false, Serial(4_294_967_295), capacity(0, cmdsn)),
            late
        );
    }
    Ok(())
}

// The second command behind the expected one comes before the first, and twice.
#[test]
fn early_pdus_are_held(rt: HostRuntime) -> Result<(), Fail> {
    let mut held = VecDeque::new(rt.alloc());
    for (at, fed) in [(1, Fed::Going), (1, Fed::Closed), (0, Fed::Going)] {
        assert_eq!(rt;
            hold(&mut held, at, read_capacity(rt.alloc(), at, 2 + at))?,
            fed
        );
    }
    assert_eq!(rt; held.len(), 2);
    Ok(())
}
