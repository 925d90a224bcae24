use super::*;
use std::test::Fail;

#[test]
fn serial_numbers(rt: HostRuntime) {
    for (a, b, less) in [
        (0xffff_ffff, 0, true),
        (0, 0xffff_ffff, false),
        (0, 0x8000_0000, false),
        (0x8000_0000, 0, false),
        (0, 0x7fff_ffff, true),
        (7, 7, false),
        (5, 6, true),
    ] {
        assert_eq!(rt; Serial(a).less(Serial(b)), less, "{a} before {b}");
    }
    assert_eq!(rt; Serial(0xffff_ffff).next(), Serial(0));
    assert_eq!(rt; Serial(0x7fff_ffff).next(), Serial(0x8000_0000));
}

#[test]
fn tags(rt: HostRuntime) {
    for (bits, kind) in [
        (0xffff_ffff, TagKind::Reserved),
        (0x0000_0000, TagKind::Command { age: 0, index: 0 }),
        (0x1000_0001, TagKind::Command { age: 1, index: 1 }),
        (
            0xf000_07ff,
            TagKind::Command {
                age: 15,
                index: 2047,
            },
        ),
        (0x0000_0800, TagKind::Other),
        (0x0800_0000, TagKind::Management { age: 0, n: 0 }),
        (0x280f_423f, TagKind::Management { age: 2, n: 999_999 }),
        (0x080f_4240, TagKind::Other),
    ] {
        assert_eq!(rt; Tag(bits).kind(), kind, "{bits:x}");
    }
    assert_eq!(rt; Tag::command(1, 1), Tag(0x1000_0001));
    assert_eq!(rt; Tag::management(0, 5), Tag(0x0800_0005));
    for (generation, age) in [(1, 0), (2, 1), (16, 15), (17, 0)] {
        assert_eq!(rt; age_of(generation), age);
    }
}

#[test]
fn decimal_numbers(rt: HostRuntime) -> Result<(), Fail> {
    let most = u64::MAX;
    for (text, low, high, value, place) in [
        (b"0".as_slice(), 0, 9, Some(0), 1),
        (b"3260".as_slice(), 1, 65535, Some(3260), 4),
        (b"18446744073709551615".as_slice(), 0, most, Some(most), 20),
        (b"18446744073709551616".as_slice(), 0, most, None, 19),
        (b"65536".as_slice(), 1, 65535, None, 4),
        (b"03".as_slice(), 0, 9, None, 1),
        (b"0".as_slice(), 1, 9, None, 0),
        (b"+1".as_slice(), 0, 9, None, 0),
        (b"".as_slice(), 0, 9, None, 0),
        (b"12a".as_slice(), 0, 255, None, 2),
    ] {
        assert_eq!(rt; read_number(text, low, high), value, "{text:?}");
        assert_eq!(rt; number_place(text, low, high), place, "{text:?}");
    }
    let mut out = Vec::new(rt.alloc());
    write_number(0, &mut out)?;
    write_number(most, &mut out)?;
    assert_eq!(rt; out.as_slice(), b"018446744073709551615".as_slice());
    Ok(())
}

#[test]
fn lists_of_bytes(rt: HostRuntime) -> Result<(), Fail> {
    let text = Label::from_slice(rt.alloc(), b"eth0")?;
    assert_eq!(rt; text.as_text(), Some("eth0"));
    assert!(rt; text == text.copy(rt.alloc())?);
    assert_eq!(rt; Label::from_slice(rt.alloc(), &[0xff])?.as_text(), None);
    let bytes = Blob::from_slice(rt.alloc(), &[1, 2])?;
    assert!(rt; bytes == bytes.copy(rt.alloc())?);
    assert!(rt; bytes != Blob::new(rt.alloc()));
    let one = Series::from_vec(vec![in rt.alloc(); 7u8]?);
    assert_eq!(rt; one.as_slice(), [7u8].as_slice());
    assert!(rt; one != Series::new(rt.alloc()));
    Ok(())
}
