ghost use Rattle.std.specs.Prelude.{◌≡◌, ◌+◌, ◌^◌, ◌<◌, ◌≤◌};
ghost use Rattle.oi_buffer.specs.Cuts.{Covers, pieces};

use crate::Piece;
use std::marker::Model;

/// The pieces of a sequence that are still to come, which contracts see as the list of them.
#[derive(Debug, Drop)]
pub struct Pieces {
    offset: u32,
    length: u32,
    max: u32,
    number: u32,
    count: u32,
}

impl Model for Pieces {
    ghost use Rattle.std.specs.Prelude.{List, map, ◌-◌};
    ghost use Rattle.std.specs.List.{range_with_len};
    ghost use Rattle.oi_buffer.specs.declared.cut.Piece.{Piece};
    ghost use Rattle.oi_buffer.specs.Cuts.{IsCutting, piece_at};

    ghost Value = { List Piece };

    ghost view = { λ s. map (piece_at s.offset s.length s.max) (range_with_len s.number (s.count - s.number)) };

    ghost invariant = { λ s. IsCutting s.offset s.length s.max s.number s.count };
}

/// Cuts `length` bytes from `offset` on into pieces of `max` bytes; the last one may be shorter. No bytes give no
/// pieces.
pub fn cut_pieces(offset: u32, length: u32, max: u32) -> Pieces
    requires some { 1 ≤ max }
    requires fits { offset + length < 2 ^ 32 }
    ensures value { result ≡ pieces offset length max }
    ensures covers { Covers offset length max result }
{
    Pieces {
        offset,
        length,
        max,
        number: 0,
        count: length.div_ceil(max),
    }
}

impl Iterator for Pieces {
    ghost use Rattle.std.specs.Iterator.{YieldsFirst, item_count};

    type Item = Piece;

    ghost next_gives = { YieldsFirst (λ s. s) };

    ghost remaining = { item_count (λ s. s) };

    fn next(&mut self) -> Option<Piece> {
        if self.number == self.count {
            return None;
        }
        let start = self.number * self.max;
        let piece = Piece {
            number: self.number,
            offset: self.offset + start,
            length: self.max.min(self.length - start),
            last: self.number + 1 == self.count,
        };
        self.number += 1;
        Some(piece)
    }
}
