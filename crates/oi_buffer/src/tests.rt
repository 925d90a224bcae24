use crate::{FirstCut, Piece, PlaceFault, Placing, cut_pieces, first_cut};
use oi_base::Params;
use std::test::Fail;

const DEFAULTS: Params = Params {
    initial_r2t: true,
    immediate: true,
    max_send: 8192,
    max_recv: 8192,
    max_burst: 262144,
    first_burst: 65536,
    outstanding: 1,
    time2wait: 2,
    time2retain: 20,
};

fn piece(number: u32, offset: u32, length: u32, last: bool) -> Piece {
    Piece {
        number,
        offset,
        length,
        last,
    }
}

#[test]
fn first_cuts(rt: HostRuntime) {
    let two_r2ts = Params {
        max_send: 65536,
        ..DEFAULTS
    };
    let nothing_asked = Params {
        initial_r2t: false,
        immediate: false,
        ..DEFAULTS
    };
    let both = Params {
        initial_r2t: false,
        ..DEFAULTS
    };
    let half_unsolicited = Params {
        max_send: 32768,
        ..both
    };
    for (length, params, immediate, unsolicited) in [
        (300_032, two_r2ts, 65536, 0),
        (16384, nothing_asked, 0, 16384),
        (16384, both, 8192, 8192),
        (512, both, 512, 0),
        (65536, half_unsolicited, 32768, 32768),
    ] {
        assert_eq!(rt;
            first_cut(length, &params),
            FirstCut {
                immediate,
                unsolicited
            }
        );
    }
}

#[test]
fn solicited_pieces(rt: HostRuntime) -> Result<(), Fail> {
    let mut first = cut_pieces(65536, 131_072, 65536);
    assert_eq!(rt; first.next(), Some(piece(0, 65536, 65536, false)));
    assert_eq!(rt; first.next(), Some(piece(1, 131_072, 65536, true)));
    assert_eq!(rt; first.next(), None);
    let mut second = cut_pieces(196_608, 103_424, 65536);
    assert_eq!(rt; second.next(), Some(piece(0, 196_608, 65536, false)));
    assert_eq!(rt; second.next(), Some(piece(1, 262_144, 37888, true)));
    assert_eq!(rt; second.next(), None);
    let mut unsolicited = cut_pieces(32768, 32768, 32768);
    assert_eq!(rt; unsolicited.next(), Some(piece(0, 32768, 32768, true)));
    assert_eq!(rt; unsolicited.next(), None);
    Ok(())
}

#[test]
fn placing_in_order(rt: HostRuntime) -> Result<(), Fail> {
    let mut data = Placing::new(rt.alloc(), 5)?;
    assert_eq!(rt; data.place(1, 1, b"a"), Err(PlaceFault::Number));
    assert_eq!(rt; data.place(0, 1, b"abcdef"), Err(PlaceFault::Offset));
    assert_eq!(rt; data.place(0, 0, b"abcdef"), Err(PlaceFault::Range));
    assert_eq!(rt; data.place(0, 0, b"abc"), Ok(()));
    assert_eq!(rt; data.place(1, 3, b"de"), Ok(()));
    assert_eq!(rt; data.placed(), b"abcde".as_slice());
    Ok(())
}
