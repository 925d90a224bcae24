use super::*;
use oi_base::Label;
use std::alloc::Global;
use std::test::Fail;

fn joined(alloc: Global, parts: &[&[u8]]) -> Result<Vec<u8>, Fail> {
    let mut text = Vec::new(alloc);
    for part in parts {
        text.extend_from_slice(*part)?;
    }
    Ok(text)
}

#[test]
fn lists_of_pairs(rt: HostRuntime) -> Result<(), Fail> {
    for (text, count) in [
        (b"".as_slice(), Ok(0)),
        (b"A=1\0".as_slice(), Ok(1)),
        (b"A=\0".as_slice(), Ok(1)),
        (
            b"SendTargets=All\0x-a.B+@_9=b=c \x7f\xff\0".as_slice(),
            Ok(2),
        ),
        (b"A=1\0B".as_slice(), Err(4)),
        (b"A=1\0\0".as_slice(), Err(4)),
        (b"A=1\0B=2\0 C=3\0D".as_slice(), Err(8)),
        (b"A=1".as_slice(), Err(0)),
        (b"A1\0".as_slice(), Err(0)),
        (b"=1\0".as_slice(), Err(0)),
        (b"a b=1\0".as_slice(), Err(0)),
        (b"a,b=1\0".as_slice(), Err(0)),
    ] {
        let read = match read_pairs(rt.alloc(), text) {
            Ok(pairs) => Ok(pairs.as_slice().len()),
            Err(TextFault::Malformed { place }) => Err(place),
            Err(TextFault::Memory) => Err(99),
        };
        assert_eq!(rt; read, count, "{text:?}");
    }
    Ok(())
}

#[test]
fn lengths_of_keys_and_values(rt: HostRuntime) -> Result<(), Fail> {
    for (key, value, fits) in [
        (1, 0, true),
        (63, 8192, true),
        (64, 1, false),
        (1, 8193, false),
    ] {
        let key = vec![in rt.alloc(); b'k'; key]?;
        let value = vec![in rt.alloc(); b'v'; value]?;
        let text = joined(rt.alloc(), &[&key, b"=", &value, b"\0"])?;
        assert_eq!(rt; read_pairs(rt.alloc(), &text).is_ok(), fits);
    }
    Ok(())
}

#[test]
fn pairs_written(rt: HostRuntime) -> Result<(), Fail> {
    let text = b"TargetName=T\0TargetAddress=127.0.0.1:3260,1\0".as_slice();
    let Ok(pairs) = read_pairs(rt.alloc(), text) else {
        panic!(rt; "not read");
    };
    assert_eq!(rt; pairs.as_slice().len(), 2);
    let second = &pairs.as_slice()[1];
    assert_eq!(rt; second.key.as_slice(), b"TargetAddress".as_slice());
    assert_eq!(rt; second.value.as_slice(), b"127.0.0.1:3260,1".as_slice());
    let mut out = joined(rt.alloc(), &[b"a"])?;
    write_pairs(pairs.as_slice(), &mut out)?;
    assert_eq!(rt;
        out.as_slice(),
        joined(rt.alloc(), &[b"a", text])?.as_slice()
    );
    Ok(())
}

#[test]
fn binary_values(rt: HostRuntime) -> Result<(), Fail> {
    let none: Option<&[u8]> = None;
    for (value, bytes) in [
        (b"0x657374".as_slice(), Some(b"est".as_slice())),
        (b"0bZXN0".as_slice(), Some(b"est".as_slice())),
        (b"0X6F6f".as_slice(), Some(b"oo".as_slice())),
        (b"0BZg==".as_slice(), Some(b"f".as_slice())),
        (b"0bZm8=".as_slice(), Some(b"fo".as_slice())),
        (b"0bZm9vYmFy".as_slice(), Some(b"foobar".as_slice())),
        (b"0x".as_slice(), Some(b"".as_slice())),
        (b"0b".as_slice(), Some(b"".as_slice())),
        (b"0x657".as_slice(), none),
        (b"0x6g".as_slice(), none),
        (b"0bZh==".as_slice(), none),
        (b"0bZg=".as_slice(), none),
        (b"0bZg".as_slice(), none),
        (b"0b Zg==".as_slice(), none),
        (b"657374".as_slice(), none),
        (b"1x65".as_slice(), none),
        (b"0y65".as_slice(), none),
        (b"0".as_slice(), none),
        (b"".as_slice(), none),
    ] {
        match (read_binary(rt.alloc(), value), bytes) {
            (Ok(read), Some(bytes)) => assert_eq!(rt; read.as_slice(), bytes, "{value:?}"),
            (Err(fault), None) => assert_eq!(rt; fault, BinaryFault::Bad, "{value:?}"),
            _ => panic!(rt; "{value:?}"),
        }
    }
    let mut out = joined(rt.alloc(), &[b"CHAP_R="])?;
    write_binary(&[0x0a, 0xff], &mut out)?;
    write_binary(&[], &mut out)?;
    assert_eq!(rt; out.as_slice(), b"CHAP_R=0x0aff0x".as_slice());
    Ok(())
}
