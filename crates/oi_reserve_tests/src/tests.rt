use oi_base::Blob;
use oi_disk::Command;
use oi_reserve::*;
use oi_scsi::{Kind, cdb};
use std::test::Fail;

const GOOD: ReserveAnswer = ReserveAnswer::Good;

const CONFLICT: ReserveAnswer = ReserveAnswer::Conflict;

#[test]
fn orders_one_after_another(rt: HostRuntime) -> Result<(), Fail> {
    let alloc = rt.alloc();
    let first = Nexus {
        bytes: Blob::from_slice(alloc, b"iqn.2026-01.org.example:a\x00\x02\x3d\x00\x00\x01")?,
    };
    let second = Nexus {
        bytes: Blob::from_slice(alloc, b"iqn.2026-01.org.example:a\x00\x02\x3d\x00\x00\x02")?,
    };
    let mut table = Reservations::new(alloc);
    // nexus, action, type, key, new key; the answer, the generation and the holder's type (0: nobody holds)
    for (is_first, action, form, key, new_key, answer, generation, held) in [
        // reserve without a registration
        (true, 1, 1, 0, 0, CONFLICT, 0u8, 0u8),
        // register: the key that is there is 0 without one
        (true, 0, 0, 0xbb, 0xaa, CONFLICT, 0, 0),
        (true, 0, 0, 0, 0xaa, GOOD, 1, 0),
        (true, 0, 0, 0, 0xbb, CONFLICT, 1, 0),
        (false, 0, 0, 0, 0xbb, GOOD, 2, 0),
        // reserve
        (
            true,
            1,
            2,
            0xaa,
            0,
            ReserveAnswer::Check { asc: 0x24 },
            2,
            0,
        ),
        (true, 1, 1, 0xbb, 0, CONFLICT, 2, 0),
        (true, 1, 1, 0xaa, 0, GOOD, 2, 1),
        (true, 1, 1, 0xaa, 0, GOOD, 2, 1),
        (true, 1, 3, 0xaa, 0, CONFLICT, 2, 1),
        (false, 1, 1, 0xbb, 0, CONFLICT, 2, 1),
        // release
        (false, 2, 1, 0xbb, 0, GOOD, 2, 1),
        (
            true,
            2,
            3,
            0xaa,
            0,
            ReserveAnswer::Check { asc: 0x26 },
            2,
            1,
        ),
        (true, 2, 1, 0xaa, 0, GOOD, 2, 0),
        (true, 1, 5, 0xaa, 0, GOOD, 2, 5),
        // preempt
        (
            false,
            4,
            3,
            0xbb,
            0,
            ReserveAnswer::Check { asc: 0x26 },
            2,
            5,
        ),
        (false, 4, 3, 0xbb, 0xcc, CONFLICT, 2, 5),
        (false, 4, 3, 0xbb, 0xaa, GOOD, 3, 3),
        (true, 2, 5, 0xaa, 0, CONFLICT, 3, 3),
        // register and ignore the key that is there
        (true, 6, 0, 0, 0xdd, GOOD, 4, 3),
        (false, 6, 0, 0, 0, GOOD, 5, 0),
        // clear
        (false, 3, 0, 0xbb, 0, CONFLICT, 5, 0),
        (true, 3, 0, 0xdd, 0, GOOD, 6, 0),
        // PREEMPT AND ABORT is not known
        (
            true,
            5,
            1,
            0xdd,
            0,
            ReserveAnswer::Check { asc: 0x24 },
            6,
            0,
        ),
    ] {
        let order = Kind::ReserveOut {
            action,
            form,
            key,
            new_key,
        };
        let parameters = order.data(alloc)?;
        let nexus = if is_first { &first } else { &second };
        assert_eq!(rt;
            table.out(nexus, &cdb(&order), parameters.as_slice())?,
            answer
        );
        let mut out = Vec::new(alloc);
        assert_eq!(rt;
            table.inquire(&cdb(&Kind::ReserveIn { action: 1 }), &mut out)?,
            GOOD
        );
        let size = if held == 0 { 8 } else { 24 };
        assert_eq!(rt; out.len(), size);
        assert_eq!(rt; &out[..4], [0, 0, 0, generation].as_slice());
        if held != 0 {
            assert_eq!(rt; out.len(), 24);
            assert_eq!(rt; &out[16..], [0u8, 0, 0, 0, 0, held, 0, 0].as_slice());
        }
    }
    Ok(())
}

#[test]
fn command_bytes_and_reports(rt: HostRuntime) -> Result<(), Fail> {
    let alloc = rt.alloc();
    let nexus = Nexus {
        bytes: Blob::from_slice(alloc, b"a")?,
    };
    let mut table = Reservations::new(alloc);
    let mut parameters = [0u8; 24];
    parameters[15] = 0xaa;
    let register = [0x5f, 0, 0, 0, 0, 0, 0, 0, 24, 0, 0, 0, 0, 0, 0, 0];
    let short = ReserveAnswer::Check { asc: 0x1a };
    assert_eq!(rt; table.out(&nexus, &register, &parameters[..23])?, short);
    let stated = [0x5f, 0, 0, 0, 0, 0, 0, 0, 23, 0, 0, 0, 0, 0, 0, 0];
    assert_eq!(rt; table.out(&nexus, &stated, &parameters)?, short);
    let scope = [0x5f, 0, 0x10, 0, 0, 0, 0, 0, 24, 0, 0, 0, 0, 0, 0, 0];
    assert_eq!(rt;
        table.out(&nexus, &scope, &parameters)?,
        ReserveAnswer::Check { asc: 0x24 }
    );
    parameters[20] = 1;
    assert_eq!(rt;
        table.out(&nexus, &register, &parameters)?,
        ReserveAnswer::Check { asc: 0x26 }
    );
    parameters[20] = 0;
    assert_eq!(rt; table.out(&nexus, &register, &parameters)?, GOOD);
    parameters[7] = 0xaa;
    let reserve = [0x5f, 1, 1, 0, 0, 0, 0, 0, 24, 0, 0, 0, 0, 0, 0, 0];
    assert_eq!(rt; table.out(&nexus, &reserve, &parameters)?, GOOD);
    let keys = [0u8, 0, 0, 1, 0, 0, 0, 8, 0, 0, 0, 0, 0, 0, 0, 0xaa];
    let reservation = [
        0u8, 0, 0, 1, 0, 0, 0, 16, 0, 0, 0, 0, 0, 0, 0, 0xaa, 0, 0, 0, 0, 0, 1, 0, 0,
    ];
    let none = [0u8; 0];
    for (action, limit, answer, bytes) in [
        (0, 255, GOOD, keys.as_slice()),
        (0, 6, GOOD, &keys[..6]),
        (1, 255, GOOD, reservation.as_slice()),
        (2, 255, ReserveAnswer::Check { asc: 0x24 }, none.as_slice()),
    ] {
        let mut out = Vec::new(alloc);
        let asked = [0x5e, action, 0, 0, 0, 0, 0, 0, limit, 0, 0, 0, 0, 0, 0, 0];
        assert_eq!(rt; table.inquire(&asked, &mut out)?, answer);
        assert_eq!(rt; out.as_slice(), bytes);
    }
    Ok(())
}

#[test]
fn no_more_than_32_registrations(rt: HostRuntime) -> Result<(), Fail> {
    let alloc = rt.alloc();
    let mut table = Reservations::new(alloc);
    let order = Kind::ReserveOut {
        action: 0,
        form: 0,
        key: 0,
        new_key: 1,
    };
    let parameters = order.data(alloc)?;
    for name in 0..33u8 {
        let nexus = Nexus {
            bytes: Blob::from_slice(alloc, &[name])?,
        };
        let wanted = if name < 32 {
            GOOD
        } else {
            ReserveAnswer::Check { asc: 0x55 }
        };
        assert_eq!(rt;
            table.out(&nexus, &cdb(&order), parameters.as_slice())?,
            wanted
        );
    }
    Ok(())
}

#[test]
fn who_may_pass(rt: HostRuntime) -> Result<(), Fail> {
    let alloc = rt.alloc();
    let holder = Nexus {
        bytes: Blob::from_slice(alloc, b"a")?,
    };
    let member = Nexus {
        bytes: Blob::from_slice(alloc, b"b")?,
    };
    let other = Nexus {
        bytes: Blob::from_slice(alloc, b"c")?,
    };
    // the type; whether a registered nexus may read and write, and whether another may
    for (form, member_reads, member_writes, other_reads) in [
        (1, true, false, true),
        (3, false, false, false),
        (5, true, true, true),
        (6, true, true, false),
    ] {
        let mut table = Reservations::new(alloc);
        for (nexus, action) in [(&holder, 0), (&member, 0), (&holder, 1)] {
            let key = action as u64;
            let order = Kind::ReserveOut {
                action,
                form,
                key,
                new_key: 1,
            };
            let parameters = order.data(alloc)?;
            assert_eq!(rt;
                table.out(nexus, &cdb(&order), parameters.as_slice())?,
                GOOD
            );
        }
        assert!(rt; table.may(&holder, Wish::Writes));
        assert_eq!(rt; table.may(&member, Wish::Reads), member_reads);
        assert_eq!(rt; table.may(&member, Wish::Writes), member_writes);
        assert_eq!(rt; table.may(&other, Wish::Reads), other_reads);
        assert!(rt; !table.may(&other, Wish::Writes));
        assert!(rt; table.may(&other, Wish::Free));
    }
    assert_eq!(rt; wish_of(Command::Sync), Wish::Writes);
    assert_eq!(rt; wish_of(Command::Capacity), Wish::Free);
    Ok(())
}
