use oi_base::Blob;
use oi_pdu::{Header, Pdu};
use oi_stream::*;
use std::alloc::Global;
use std::process::Abort;
use std::test::Fail;

// The reply to READ CAPACITY of a disk of 1,024 blocks of 512 bytes, in one Data-In with status.
const REPLY: [u8; 56] = [
    0x25, 0x81, 0, 0, 0, 0, 0, 8, 0, 0, 0, 0, 0, 0, 0, 0, 0, 0, 0, 0, 0xff, 0xff, 0xff, 0xff, 0, 0,
    0, 5, 0, 0, 0, 2, 0, 0, 0, 0x21, 0, 0, 0, 0, 0, 0, 0, 0, 0, 0, 0, 0, 0, 0, 3, 0xff, 0, 0, 2, 0,
];

// A NOP-In with one word of additional headers, five bytes of data and three of padding, neither of them zero.
const PADDED: [u8; 60] = [
    0x20, 0x80, 0, 0, 1, 0, 0, 5, 0, 0, 0, 0, 0, 0, 0, 0, 0xff, 0xff, 0xff, 0xff, 0, 0, 0, 7, 0, 0,
    0, 1, 0, 0, 0, 2, 0, 0, 0, 9, 0, 0, 0, 0, 0, 0, 0, 0, 0, 0, 0, 0, 0x3e, 0x3e, 0x3e, 0x3e, 1, 2,
    3, 4, 5, 0x3e, 0x3e, 0x3e,
];

// Cuts a stream at this place and feeds both pieces.
fn cut_at(alloc: Global, stream: &[u8], at: usize, out: &mut Vec<Pdu>) -> Result<(), StreamFault> {
    let (front, rest) = stream.split_at(at.min(stream.len()));
    let mut splitter = Splitter::new(alloc, 262_144);
    splitter.feed(front, out)?;
    splitter.feed(rest, out)
}

// Feeds a stream byte by byte.
fn single_bytes(alloc: Global, stream: &[u8], out: &mut Vec<Pdu>) -> Result<(), StreamFault> {
    let mut splitter = Splitter::new(alloc, 262_144);
    for byte in stream {
        splitter.feed(&[*byte], out)?;
    }
    Ok(())
}

fn is_reply(rt: &impl Abort, pdu: &Pdu) {
    match pdu.head {
        Header::DataIn(h) => {
            assert!(rt; h.last);
            assert!(rt; h.ends);
            assert_eq!(rt; (h.tag.0, h.stat.0, h.exp.0, h.max.0), (0, 5, 2, 0x21));
        }
        _ => assert!(rt; false),
    }
    assert_eq!(rt;
        pdu.payload.as_slice(),
        [0, 0, 3, 0xff, 0, 0, 2, 0].as_slice()
    );
}

#[test]
fn reply_in_any_pieces(rt: HostRuntime) -> Result<(), Fail> {
    let mut two = Vec::from_slice(rt.alloc(), &REPLY)?;
    two.extend_from_slice(&REPLY)?;
    for (stream, count) in [(REPLY.as_slice(), 1), (two.as_slice(), 2)] {
        for at in 0..stream.len() {
            let mut out = Vec::new(rt.alloc());
            cut_at(rt.alloc(), stream, at, &mut out)?;
            assert_eq!(rt; out.len(), count, "cut at {at}");
            for pdu in &out {
                is_reply(&rt, pdu);
            }
        }
        let mut out = Vec::new(rt.alloc());
        single_bytes(rt.alloc(), stream, &mut out)?;
        assert_eq!(rt; out.len(), count);
        for pdu in &out {
            is_reply(&rt, pdu);
        }
    }
    Ok(())
}

#[test]
fn additional_headers_and_padding(rt: HostRuntime) -> Result<(), Fail> {
    let mut stream = Vec::from_slice(rt.alloc(), &PADDED)?;
    stream.extend_from_slice(&REPLY)?;
    for at in 0..stream.len() {
        let mut out = Vec::new(rt.alloc());
        cut_at(rt.alloc(), &stream, at, &mut out)?;
        assert_eq!(rt; out.len(), 2, "cut at {at}");
        assert_eq!(rt; out[0].payload.as_slice(), [1, 2, 3, 4, 5].as_slice());
        is_reply(&rt, &out[1]);
    }
    Ok(())
}

// A header without its last byte, and that byte.
fn before_last(header: &[u8; 48]) -> (&[u8], &[u8]) {
    (&header[..47], &header[47..])
}

#[test]
fn oversized_and_unknown_headers(rt: HostRuntime) -> Result<(), Fail> {
    let mut long = [0u8; 48];
    long[0] = 0x25;
    long[1] = 0x80;
    long[5] = 4;
    long[7] = 1;
    let mut unknown = [0u8; 48];
    unknown[0] = 0x3e;
    let mut stage = [0u8; 48];
    stage[0] = 0x23;
    stage[1] = 0x08;
    for (header, fault) in [
        (
            long,
            StreamFault::TooLong {
                place: 56,
                length: 262_145,
            },
        ),
        (unknown, StreamFault::BadHeader { place: 56, byte: 0 }),
        (stage, StreamFault::BadHeader { place: 56, byte: 1 }),
    ] {
        let mut out = Vec::new(rt.alloc());
        let mut splitter = Splitter::new(rt.alloc(), 262_144);
        splitter.feed(&REPLY, &mut out)?;
        let (front, last) = before_last(&header);
        splitter.feed(front, &mut out)?;
        assert_eq!(rt; splitter.feed(last, &mut out), Err(fault));
        let ended = Err(StreamFault::Ended { place: 56 });
        assert_eq!(rt; splitter.feed(&[0], &mut out), ended);
        assert_eq!(rt; splitter.feed(&REPLY, &mut out), ended);
        assert_eq!(rt; out.len(), 1);
    }
    Ok(())
}

#[test]
fn greatest_length(rt: HostRuntime) -> Result<(), Fail> {
    let mut out = Vec::new(rt.alloc());
    let mut splitter = Splitter::new(rt.alloc(), 8);
    splitter.feed(&REPLY, &mut out)?;
    assert_eq!(rt; out.len(), 1);
    let pieces = [
        Blob::from_slice(rt.alloc(), &REPLY[..20])?,
        Blob::from_slice(rt.alloc(), &REPLY[20..])?,
    ];
    let fault = StreamFault::TooLong {
        place: 0,
        length: 8,
    };
    assert_eq!(rt; frame_pieces(rt.alloc(), 7, &pieces, &mut out), Err(fault));
    assert_eq!(rt; frame_pieces(rt.alloc(), 8, &pieces, &mut out), Ok(()));
    assert_eq!(rt; out.len(), 2);
    Ok(())
}

#[test]
fn printed_faults(rt: HostRuntime) -> Result<(), Fail> {
    for (fault, text) in [
        (
            StreamFault::BadHeader { place: 56, byte: 1 },
            "bad byte 1 of the header at 56",
        ),
        (
            StreamFault::TooLong {
                place: 0,
                length: 9,
            },
            "data segment of 9 bytes at 0",
        ),
        (StreamFault::Ended { place: 3 }, "ended at 3"),
        (StreamFault::Memory, "out of memory"),
    ] {
        let printed = format!(in rt.alloc(); "{fault}")?;
        assert_eq!(rt; printed.as_str(), text);
    }
    one_framing();
    followed_is_framed();
    unfed_follows();
    fed_is_framed();
    fed_follows();
    fed_stays();
    fed_in_a_row();
    Ok(())
}
