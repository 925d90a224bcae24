use oi_base::{Blob, Label, NoMemory, Params};
use oi_history::{LostCause, Outcome, Rule, SessionConfig};
use oi_recovery::{HostCode, Residual};
use oi_script::*;
use oi_scsi::{Kind, Request};
use std::process::Abort;
use std::test::Fail;

fn submit(lun: u8, kind: Kind) -> DriveLine {
    DriveLine::Submit {
        request: Request { lun, kind },
    }
}

#[test]
fn lines(rt: HostRuntime) {
    for (line, wanted) in [
        (b"".as_slice(), DriveLine::Skip),
        (b"# end".as_slice(), DriveLine::Skip),
        (b"end".as_slice(), DriveLine::End),
        (b"cut".as_slice(), DriveLine::Cut),
        (b"leave".as_slice(), DriveLine::Leave),
        (b"window".as_slice(), DriveLine::Window),
        (b"reset-target".as_slice(), DriveLine::ResetTarget),
        (
            b"reset-lun 255".as_slice(),
            DriveLine::ResetLun { lun: 255 },
        ),
        (
            b"abort 18446744073709551615".as_slice(),
            DriveLine::Abort { id: u64::MAX },
        ),
        (
            b"tick 9007199254740991".as_slice(),
            DriveLine::Tick { now: (1 << 53) - 1 },
        ),
        (b"send 65536".as_slice(), DriveLine::Send { count: 65_536 }),
    ] {
        assert_eq!(rt; read_drive(rt.alloc(), line), Ok(wanted));
    }
}

#[test]
fn requests_without_blocks(rt: HostRuntime) {
    for (line, lun, kind) in [
        (b"unit 3".as_slice(), 3, Kind::Unit),
        (b"inquiry 0".as_slice(), 0, Kind::Inquiry),
        (b"capacity\t255".as_slice(), 255, Kind::Capacity),
        (b"luns 0".as_slice(), 0, Kind::Luns),
        (b"sync 0".as_slice(), 0, Kind::Sync),
    ] {
        assert_eq!(rt; read_drive(rt.alloc(), line), Ok(submit(lun, kind)));
    }
}

#[test]
fn requests_for_blocks(rt: HostRuntime) -> Result<(), Fail> {
    for (line, lun, kind) in [
        (
            b"read 0 16 8".as_slice(),
            0,
            Kind::Read { lba: 16, blocks: 8 },
        ),
        (
            b"read 1 9223372036854773760 2048".as_slice(),
            1,
            Kind::Read {
                lba: (1 << 63) - 2048,
                blocks: 2048,
            },
        ),
        (
            b"write 2 7 1 5A".as_slice(),
            2,
            Kind::Write {
                lba: 7,
                blocks: 1,
                payload: Blob::from_vec(vec![in rt.alloc(); 0x5au8; 512]?),
            },
        ),
    ] {
        assert_eq!(rt; read_drive(rt.alloc(), line), Ok(submit(lun, kind)));
    }
    Ok(())
}

#[test]
fn reservations(rt: HostRuntime) {
    for (line, kind) in [
        (
            b"prout 0 register 0 0000000000000000 00000000000000aa".as_slice(),
            Kind::ReserveOut {
                action: 0,
                form: 0,
                key: 0,
                new_key: 0xaa,
            },
        ),
        (
            b"prout 0 ignore 15 0123456789ABCDEF 0000000000000000".as_slice(),
            Kind::ReserveOut {
                action: 6,
                form: 15,
                key: 0x0123_4567_89ab_cdef,
                new_key: 0,
            },
        ),
        (b"prin 0 keys".as_slice(), Kind::ReserveIn { action: 0 }),
        (
            b"prin 0 reservation".as_slice(),
            Kind::ReserveIn { action: 1 },
        ),
    ] {
        assert_eq!(rt; read_drive(rt.alloc(), line), Ok(submit(0, kind)));
    }
}

// A line, the name that it sets, and the value.
static SETTINGS: [(&[u8], &[u8], i64); 13] = [
    (b"set tries 255", b"tries", 255),
    (b"set replacement -1", b"replacement", -1),
    (b"set replacement 86400", b"replacement", 86_400),
    (b"set noop_out_interval 0", b"noop_out_interval", 0),
    (b"set noop_out_timeout 1", b"noop_out_timeout", 1),
    (b"set abort_timeout 3600", b"abort_timeout", 3600),
    (b"set lu_reset_timeout 30", b"lu_reset_timeout", 30),
    (b"set tgt_reset_timeout 30", b"tgt_reset_timeout", 30),
    (b"set cmds_max 2048", b"cmds_max", 2048),
    (b"set steps 64", b"steps", 64),
    (b"set kept 134217728", b"kept", 134_217_728),
    (b"set queue_depth 1024", b"queue_depth", 1024),
    (b"set count_disrupted 0", b"count_disrupted", 0),
];

#[test]
fn settings(rt: HostRuntime) -> Result<(), Fail> {
    for (line, name, value) in &SETTINGS {
        let name = Label::from_slice(rt.alloc(), *name)?;
        let value = *value;
        assert_eq!(rt;
            read_drive(rt.alloc(), *line),
            Ok(DriveLine::Set { name, value })
        );
    }
    Ok(())
}

#[test]
fn applied_settings(rt: HostRuntime) {
    let config = SessionConfig {
        sid: 1,
        tries: 6,
        replacement: 120,
        noop_interval: 5,
        noop_timeout: 5,
        abort: 15,
        lun_reset: 30,
        target_reset: 30,
        logout: 15,
        cmds_max: 128,
        steps: 1_000_000,
        kept: 134_217_728,
        queue_depth: 1024,
        count_disrupted: true,
    };
    let config = Setting::Replacement.apply(-1, config);
    let config = Setting::LuResetTimeout.apply(3600, config);
    let config = Setting::CountDisrupted.apply(0, config);
    assert_eq!(rt; config.replacement, -1);
    assert_eq!(rt; config.lun_reset, 3600);
    assert_eq!(rt; config.target_reset, 30);
    assert!(rt; !config.count_disrupted);
}

const DEFAULTS: Params = Params {
    initial_r2t: true,
    immediate: true,
    max_send: 8192,
    max_recv: 8192,
    max_burst: 262_144,
    first_burst: 65_536,
    outstanding: 1,
    time2wait: 2,
    time2retain: 20,
};

#[test]
fn logins(rt: HostRuntime) {
    for (line, switches, lengths) in [
        (
            b"login 1 32 5".as_slice(),
            (true, true),
            (8192, 262_144, 65_536),
        ),
        (
            b"login 1 32 5 MaxRecvDataSegmentLength=65536".as_slice(),
            (true, true),
            (65_536, 262_144, 65_536),
        ),
        (
            b"login 1 32 5 ImmediateData=No InitialR2T=No".as_slice(),
            (false, false),
            (8192, 262_144, 65_536),
        ),
        (
            b"login 1 32 5 FirstBurstLength=16777215 MaxBurstLength=512 InitialR2T=Yes".as_slice(),
            (true, true),
            (8192, 512, 16_777_215),
        ),
    ] {
        let mut params = DEFAULTS;
        (params.initial_r2t, params.immediate) = switches;
        (params.max_send, params.max_burst, params.first_burst) = lengths;
        let wanted = DriveLine::Login {
            cmdsn: 1,
            max: 32,
            exp_stat: 5,
            params,
        };
        assert_eq!(rt; read_drive(rt.alloc(), line), Ok(wanted));
    }
}

#[test]
fn received_bytes(rt: HostRuntime) -> Result<(), Fail> {
    let wanted = DriveLine::Recv {
        generation: 17,
        bytes: Blob::from_slice(rt.alloc(), &[0x25, 0x81, 0, 0xff])?,
    };
    assert_eq!(rt; read_drive(rt.alloc(), b"recv 17 258100fF"), Ok(wanted));
    Ok(())
}

#[test]
fn lines_of_no_form(rt: HostRuntime) {
    for line in [
        b" ".as_slice(),
        b" # no comment".as_slice(),
        b"end ".as_slice(),
        b"End".as_slice(),
        b"cut 1".as_slice(),
        b"reset_target".as_slice(),
        b"capacity".as_slice(),
        b"capacity  0".as_slice(),
        b"capacity 00".as_slice(),
        b"capacity +1".as_slice(),
        b"capacity 256".as_slice(),
        b"capacity 0 0".as_slice(),
        b"read 0 0 0".as_slice(),
        b"read 0 0 2049".as_slice(),
        b"read 0 9223372036854775808 1".as_slice(),
        b"write 0 0 1".as_slice(),
        b"write 0 0 1 5".as_slice(),
        b"write 0 0 1 5g".as_slice(),
        b"prout 0 register 16 0000000000000000 0000000000000000".as_slice(),
        b"prout 0 register 0 0 0000000000000000".as_slice(),
        b"prout 0 preempt-and-abort 1 0000000000000000 0000000000000000".as_slice(),
        b"prin 0 0".as_slice(),
        b"send 0".as_slice(),
        b"send 65537".as_slice(),
        b"recv 0 00".as_slice(),
        b"recv 1 ".as_slice(),
        b"recv 1 0".as_slice(),
        b"recv 1 00 00".as_slice(),
        b"tick 9007199254740992".as_slice(),
        b"abort 18446744073709551616".as_slice(),
        b"reset-lun 256".as_slice(),
    ] {
        assert_eq!(rt; read_drive(rt.alloc(), line), Err(LineFault::Bad));
    }
}

#[test]
fn values_out_of_range(rt: HostRuntime) {
    for line in [
        b"set tries 0".as_slice(),
        b"set tries 256".as_slice(),
        b"set replacement -2".as_slice(),
        b"set replacement -0".as_slice(),
        b"set replacement 86401".as_slice(),
        b"set noop_out_interval -1".as_slice(),
        b"set noop_out_timeout 0".as_slice(),
        b"set abort_timeout 3601".as_slice(),
        b"set cmds_max 2049".as_slice(),
        b"set steps 63".as_slice(),
        b"set steps 1000001".as_slice(),
        b"set kept 4095".as_slice(),
        b"set kept 134217729".as_slice(),
        b"set queue_depth 1025".as_slice(),
        b"set count_disrupted 2".as_slice(),
        b"set login_timeout 15".as_slice(),
        b"set tries".as_slice(),
        b"login 1 32".as_slice(),
        b"login 1 4294967296 5".as_slice(),
        b"login 1 32 5 ".as_slice(),
        b"login 1 32 5 InitialR2T".as_slice(),
        b"login 1 32 5 InitialR2T=yes".as_slice(),
        b"login 1 32 5 InitialR2T=Yes InitialR2T=Yes".as_slice(),
        b"login 1 32 5 MaxBurstLength=511".as_slice(),
        b"login 1 32 5 MaxBurstLength=16777216".as_slice(),
        b"login 1 32 5 MaxBurstLength=0x10000".as_slice(),
        b"login 1 32 5 MaxConnections=1".as_slice(),
    ] {
        assert_eq!(rt; read_drive(rt.alloc(), line), Err(LineFault::Bad));
    }
}

fn prints(rt: &impl Abort, line: Result<Blob, NoMemory>, wanted: &[u8]) {
    match line {
        Ok(line) => assert!(rt; line.as_slice() == wanted),
        Err(_) => panic!(rt; "out of memory"),
    }
}

#[test]
fn printed_lines(rt: HostRuntime) {
    let alloc = rt.alloc();
    prints(&rt, login_line(alloc, 17), b"login 17\n");
    prints(&rt, idle_line(alloc), b"idle\n");
    prints(&rt, tx_line(alloc, 1, &[0x42, 0x81]), b"tx 1 4281\n");
    prints(&rt, stale_line(alloc, 17), b"stale 17\n");
    prints(&rt, window_line(alloc, 1, 10, 32), b"window 1 10 32\n");
    prints(&rt, fault_line(alloc, 34, 50), b"fault 34 50\n");
    prints(&rt, status_line(alloc, 3, 24), b"status 3 24\n");
}

#[test]
fn losses(rt: HostRuntime) {
    for (cause, wanted) in [
        (LostCause::Cut, b"lost 6 cut\n".as_slice()),
        (LostCause::Ping, b"lost 6 ping\n".as_slice()),
        (LostCause::Handler, b"lost 6 handler\n".as_slice()),
        (LostCause::Asked(2), b"lost 6 asked:2\n".as_slice()),
        (
            LostCause::Broken(Rule::UnknownTag),
            b"lost 6 broken:unknowntag\n".as_slice(),
        ),
        (LostCause::EndOfInput, b"".as_slice()),
    ] {
        prints(&rt, lost_line(rt.alloc(), 6, cause), wanted);
    }
}

#[test]
fn refusals(rt: HostRuntime) {
    for (refusal, wanted) in [
        (Refusal::Full, b"refused 7 full\n".as_slice()),
        (Refusal::Unknown, b"refused 7 unknown\n".as_slice()),
        (Refusal::TooLate, b"refused 7 toolate\n".as_slice()),
        (Refusal::Busy, b"refused 7 busy\n".as_slice()),
        (Refusal::NotLoggedIn, b"refused 7 notloggedin\n".as_slice()),
        (Refusal::LoggedIn, b"refused 7 loggedin\n".as_slice()),
        (Refusal::Ended, b"refused 7 ended\n".as_slice()),
        (Refusal::Down, b"refused 7 down\n".as_slice()),
        (Refusal::Running, b"refused 7 running\n".as_slice()),
        (Refusal::Sessions, b"refused 7 sessions\n".as_slice()),
    ] {
        prints(&rt, refused_line(rt.alloc(), 7, refusal), wanted);
    }
}

#[test]
fn outcome_lines(rt: HostRuntime) -> Result<(), Fail> {
    let answered = Outcome::Answered {
        status: 2,
        residual: Residual::Under(512),
        sense: Blob::from_slice(rt.alloc(), &[0x70, 0, 5])?,
        got: Blob::from_slice(rt.alloc(), &[0, 0, 3, 0xff, 0, 0, 2, 0])?,
    };
    let read = Outcome::Answered {
        status: 0,
        residual: Residual::Exact,
        sense: Blob::new(rt.alloc()),
        got: Blob::from_vec(vec![in rt.alloc(); 0u8; 4096]?),
    };
    for (outcome, wanted) in [
        (
            Outcome::Host(HostCode::Disrupted),
            b"done 1 7 host 0e\n".as_slice(),
        ),
        (
            answered,
            b"done 1 7 02 u512 700005 8:000003ff00000200\n".as_slice(),
        ),
        (
            read,
            b"done 1 7 00 0 - 4096:md5:620f0b67a91f7f74151bc5be745b7110\n".as_slice(),
        ),
    ] {
        prints(&rt, line_of(rt.alloc(), 1, 7, &outcome), wanted);
    }
    Ok(())
}
