use oi_base::Label;
use oi_names::{IscsiName, NameFault, Portal, SessionInfo, SessionKey, is_iface_name};
use std::alloc::Global;
use std::process::Abort;
use std::test::Fail;

// The place of the fault, where the text is no name.
fn name_fault(alloc: Global, text: &str) -> Option<u32> {
    match IscsiName::read(alloc, text) {
        Ok(_) => None,
        Err(NameFault::Bad { place }) => Some(place),
        Err(NameFault::Memory) => Some(u32::MAX),
    }
}

fn portal_fault(alloc: Global, text: &str) -> Option<u32> {
    match Portal::read(alloc, text) {
        Ok(_) => None,
        Err(NameFault::Bad { place }) => Some(place),
        Err(NameFault::Memory) => Some(u32::MAX),
    }
}

// The places are worked out by hand from the grammar of names.
#[test]
fn names(rt: HostRuntime) {
    let table = [
        ("iqn.2001-04.com.example:storage.disk2", None),
        ("eui.02004567A425678D", None),
        ("naa.52004567BA64678D", None),
        ("iqn.x", None),
        ("iqn.A_b-C:d.9", None),
        ("", Some(0)),
        ("i", Some(1)),
        ("iqn", Some(3)),
        ("iqn.", Some(4)),
        ("iqm.a", Some(2)),
        ("IQN.a", Some(0)),
        ("eui", Some(3)),
        ("euj.a", Some(2)),
        ("eqn.a", Some(1)),
        ("naa.", Some(4)),
        ("nab.a", Some(2)),
        ("iqn,a", Some(3)),
        ("iqn.a b", Some(5)),
        ("iqn.a/", Some(5)),
        ("iqn.\u{e4}", Some(4)),
        ("xiqn.a", Some(0)),
        ("naa.1 ", Some(5)),
    ];
    for (text, place) in table {
        assert_eq!(rt; name_fault(rt.alloc(), text), place, "{text}");
    }
}

#[test]
fn portals(rt: HostRuntime) {
    let table = [
        ("127.0.0.1", None),
        ("127.0.0.1:3260", None),
        ("127.0.0.1:3260,1", None),
        ("127.0.0.1,1", None),
        ("0.0.0.0:1,0", None),
        ("255.255.255.255:65535,65535", None),
        ("[FE80::1]:3261,2", None),
        ("[::]", None),
        ("[0000:1111:2222:3333:4444:5555:6666:7777]", None),
        ("[1:2:3:4:5:6:7:8],7", None),
    ];
    for (text, place) in table {
        assert_eq!(rt; portal_fault(rt.alloc(), text), place, "{text}");
    }
}

// The places are worked out by hand from the grammar of portals.
#[test]
fn bad_addresses(rt: HostRuntime) {
    let table = [
        ("", Some(0)),
        ("a", Some(0)),
        ("localhost", Some(0)),
        ("-1.0.0.0", Some(0)),
        ("256.0.0.1", Some(2)),
        ("300.1.1.1", Some(2)),
        ("01.0.0.0", Some(1)),
        ("127.0.0", Some(7)),
        ("127.0.0.", Some(8)),
        ("127..0.1", Some(4)),
        ("127.0.0.1 ", Some(9)),
        ("[", Some(1)),
        ("[]", Some(1)),
        ("[:]", Some(2)),
        ("[::", Some(3)),
        ("[::1", Some(4)),
        ("[fe80::g]", Some(7)),
        ("[::]x", Some(4)),
        ("[00000:1111:2222:3333:4444:5555:6666:7777]", Some(40)),
    ];
    for (text, place) in table {
        assert_eq!(rt; portal_fault(rt.alloc(), text), place, "{text}");
    }
}

#[test]
fn bad_ports_and_tags(rt: HostRuntime) {
    let table = [
        ("127.0.0.1.", Some(9)),
        ("127.0.0.1:", Some(10)),
        ("127.0.0.1:0", Some(10)),
        ("127.0.0.1:03260", Some(10)),
        ("1.2.3.4:+5", Some(8)),
        ("127.0.0.1:65536", Some(14)),
        ("[::]:70000", Some(9)),
        ("1.2.3.4,", Some(8)),
        ("127.0.0.1:3260,", Some(15)),
        ("127.0.0.1:3260,65536", Some(19)),
        ("127.0.0.1:3260,00", Some(16)),
        ("127.0.0.1,1:3260", Some(11)),
    ];
    for (text, place) in table {
        assert_eq!(rt; portal_fault(rt.alloc(), text), place, "{text}");
    }
}

// A name of 4 bytes and so many letters.
fn long_name(alloc: Global, letters: usize) -> Result<Vec<u8>, Fail> {
    let mut name = Vec::from_slice(alloc, b"iqn.")?;
    for _ in 0..letters {
        name.push(b'a')?;
    }
    Ok(name)
}

#[test]
fn longest_name(rt: HostRuntime) -> Result<(), Fail> {
    let alloc = rt.alloc();
    let fits = long_name(alloc, 219)?;
    assert!(rt; IscsiName::read_bytes(alloc, fits.as_slice()).is_ok());
    let longer = long_name(alloc, 220)?;
    let fault = IscsiName::read_bytes(alloc, longer.as_slice()).err();
    assert!(rt; fault == Some(NameFault::Bad { place: 223 }));
    Ok(())
}

fn has_parts(rt: &impl Abort, portal: &Portal, address: &[u8], port: u16) {
    assert!(rt; portal.address.as_slice() == address);
    assert_eq!(rt; portal.port, port);
}

#[test]
fn small_parts_of_a_portal(rt: HostRuntime) -> Result<(), Fail> {
    let alloc = rt.alloc();
    let (portal, tag) = Portal::read(alloc, "[FE80::1]:3261,2")?;
    has_parts(&rt, &portal, b"[fe80::1]", 3261);
    assert_eq!(rt; tag, Some(2));
    let mut text = Vec::new(alloc);
    portal.write(&mut text)?;
    assert!(rt; text.as_slice() == b"[fe80::1]:3261".as_slice());
    let (portal, tag) = Portal::read(alloc, "10.0.0.1")?;
    has_parts(&rt, &portal, b"10.0.0.1", 3260);
    assert_eq!(rt; tag, None);
    Ok(())
}

#[test]
fn sessions_and_interfaces(rt: HostRuntime) -> Result<(), Fail> {
    let alloc = rt.alloc();
    let (portal, _) = Portal::read(alloc, "127.0.0.1:3260")?;
    let (current, _) = Portal::read(alloc, "127.0.0.1:3261")?;
    let target = IscsiName::read(alloc, "iqn.2024-01.org.example:d1")?;
    let iface = Label::from_slice(alloc, b"default")?;
    assert!(rt; is_iface_name(iface.as_slice()));
    assert!(rt; !is_iface_name(b"Default"));
    assert!(rt; !is_iface_name(b""));
    let key = SessionKey {
        target,
        portal,
        iface,
    };
    let info = SessionInfo {
        sid: 1,
        tag: 1,
        key,
        current,
    };
    let copy = info.copy(alloc)?;
    assert!(rt; copy == info);
    assert!(rt; copy.current != copy.key.portal);
    Ok(())
}
