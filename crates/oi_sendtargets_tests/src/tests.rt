use oi_base::write_number;
use oi_names::{IscsiName, Portal};
use oi_sendtargets::*;
use std::alloc::Global;
use std::process::Abort;
use std::test::Fail;

// What the payload tells where [::1]:3261 was asked: a line `ADDRESS:PORT,TAG NAME` for each portal.
fn told(alloc: Global, payload: &[u8]) -> Result<Vec<u8>, Fail> {
    let (asked, _) = Portal::read(alloc, "[::1]:3261")?;
    let found = read_targets(alloc, payload, &asked)?;
    let mut text = Vec::new(alloc);
    for listed in found.as_slice() {
        listed.portal.write(&mut text)?;
        text.push(b',')?;
        write_number(listed.tag as u64, &mut text)?;
        text.push(b' ')?;
        text.extend_from_slice(listed.target.as_slice())?;
        text.push(b'\n')?;
    }
    Ok(text)
}

fn tells(rt: &impl Abort, alloc: Global, payload: &[u8], lines: &[u8]) -> Result<(), Fail> {
    assert!(rt; told(alloc, payload)?.as_slice() == lines, "{payload:?}");
    Ok(())
}

#[test]
fn payloads(rt: HostRuntime) -> Result<(), Fail> {
    let a = rt.alloc();
    tells(&rt, a, b"".as_slice(), b"".as_slice())?;
    tells(
        &rt,
        a,
        b"TargetName=iqn.2024-01.org.example:d1\0TargetAddress=127.0.0.1:3260,1\0".as_slice(),
        b"127.0.0.1:3260,1 iqn.2024-01.org.example:d1\n".as_slice(),
    )?;
    tells(
        &rt,
        a,
        b"TargetName=iqn.a\0TargetAddress=10.0.0.1:3000,1\0TargetAddress=10.0.0.2:3000,2\0TargetName=eui.b\0TargetAddress=10.0.0.1:3000,65535\0".as_slice(),
        b"10.0.0.1:3000,1 iqn.a\n10.0.0.2:3000,2 iqn.a\n10.0.0.1:3000,65535 eui.b\n".as_slice(),
    )?;
    tells(
        &rt,
        a,
        b"TargetName=iqn.a\0TargetAddress=10.0.0.1\0TargetAddress=10.0.0.2:860\0TargetAddress=[FE80::1],0\0".as_slice(),
        b"10.0.0.1:3260,1 iqn.a\n10.0.0.2:860,1 iqn.a\n[fe80::1]:3260,0 iqn.a\n".as_slice(),
    )?;
    tells(
        &rt,
        a,
        b"TargetName=iqn.a\0TargetName=naa.5\0TargetName=iqn.a\0".as_slice(),
        b"[::1]:3261,1 iqn.a\n[::1]:3261,1 naa.5\n[::1]:3261,1 iqn.a\n".as_slice(),
    )?;
    Ok(())
}

#[test]
fn skipped_addresses(rt: HostRuntime) -> Result<(), Fail> {
    let a = rt.alloc();
    tells(
        &rt,
        a,
        b"TargetName=iqn.a\0TargetAddress=disks.example.org:3260,1\0TargetAddress=10.0.0.1,1\0".as_slice(),
        b"10.0.0.1:3260,1 iqn.a\n".as_slice(),
    )?;
    tells(
        &rt,
        a,
        b"TargetName=iqn.a\0TargetAddress=10.0.0.1,1\0TargetAddress=10.0.0.1:0,1\0TargetAddress=10.0.0.2,1\0".as_slice(),
        b"10.0.0.1:3260,1 iqn.a\n10.0.0.2:3260,1 iqn.a\n".as_slice(),
    )?;
    tells(
        &rt,
        a,
        b"TargetName=iqn.a\0TargetAddress=disks\0TargetAddress=\0TargetName=iqn.b\0TargetName=iqn.c\0TargetAddress=10.0.0.256\0".as_slice(),
        b"[::1]:3261,1 iqn.b\n".as_slice(),
    )?;
    Ok(())
}

// The place of the fault; None where there is none.
fn fault(alloc: Global, payload: &[u8]) -> Result<Option<u32>, Fail> {
    let (asked, _) = Portal::read(alloc, "10.0.0.9")?;
    match read_targets(alloc, payload, &asked) {
        Ok(_) => Ok(None),
        Err(TargetsFault::Malformed { place }) => Ok(Some(place)),
        Err(TargetsFault::Memory) => Ok(Some(u32::MAX)),
    }
}

// The places are counted by hand: `TargetName=iqn.a` and its zero byte are 17 bytes, `TargetAddress=10.0.0.1` and its are 23.
#[test]
fn malformed_payloads(rt: HostRuntime) -> Result<(), Fail> {
    for (payload, place) in [
        (b"TargetName=iqn.a\0".as_slice(), None),
        (b"TargetName=iqn.a".as_slice(), Some(0)),
        (b"TargetName=iqn.a\0\0".as_slice(), Some(17)),
        (b"TargetName=iqn.a\0TargetAddress".as_slice(), Some(17)),
        (b"TargetAddress=10.0.0.1\0".as_slice(), Some(0)),
        (
            b"TargetAddress=10.0.0.1\0TargetName=iqn.a\0".as_slice(),
            Some(0),
        ),
        (b"TargetName=T\0".as_slice(), Some(0)),
        (b"TargetName=\0".as_slice(), Some(0)),
        (
            b"TargetName=iqn.a\0TargetAddress=10.0.0.1\0TargetName=iqn. \0".as_slice(),
            Some(40),
        ),
        (
            b"TargetName=iqn.a\0TargetAlias=a\0TargetAddress=10.0.0.1\0".as_slice(),
            Some(17),
        ),
        (
            b"TargetName=iqn.a\0TargetAddress=10.0.0.1\0targetname=iqn.b\0".as_slice(),
            Some(40),
        ),
        (b"SendTargets=All\0TargetName=iqn.a\0".as_slice(), Some(0)),
        (b"TargetName=T\0TargetName=iqn.a\0=\0".as_slice(), Some(30)),
    ] {
        assert_eq!(rt; fault(rt.alloc(), payload)?, place, "{payload:?}");
    }
    Ok(())
}

fn found_at(alloc: Global, target: &str, address: &str, tag: u16) -> Result<Found, Fail> {
    let (portal, _) = Portal::read(alloc, address)?;
    Ok(Found {
        target: IscsiName::read(alloc, target)?,
        portal,
        tag,
    })
}

#[test]
fn listings_written(rt: HostRuntime) -> Result<(), Fail> {
    let a = rt.alloc();
    let first = found_at(a, "iqn.a", "10.0.0.1", 1)?;
    let found = vec![in a;
        first.copy(a)?,
        found_at(a, "iqn.a", "[FE80::1]:3261", 0)?,
        found_at(a, "eui.b", "10.0.0.1:860", 65535)?,
        first,
    ]?;
    let mut out = Vec::from_slice(a, b"x")?;
    write_targets(&found, &mut out)?;
    let payload =
        b"TargetName=iqn.a\0TargetAddress=10.0.0.1:3260,1\0TargetAddress=[fe80::1]:3261,0\0TargetName=eui.b\0TargetAddress=10.0.0.1:860,65535\0TargetName=iqn.a\0TargetAddress=10.0.0.1:3260,1\0".as_slice();
    let mut wanted = Vec::from_slice(a, b"x")?;
    wanted.extend_from_slice(payload)?;
    assert!(rt; out.as_slice() == wanted.as_slice());
    let read = read_targets(a, payload, &found[2].portal)?;
    assert!(rt; read.as_slice() == found.as_slice());
    Ok(())
}
