ghost use Rattle.std.specs.Prelude.{◌≡◌, ◌+◌, ◌≤◌};
ghost use Rattle.oi_buffer.specs.Cuts.{immediate_of, unsolicited_of};

use oi_base::Params;

/// What of a write goes out before the target asks, in bytes.
#[derive(Clone, Copy, Debug, PartialEq, Eq)]
pub struct FirstCut {
    /// With the command.
    pub immediate: u32,
    /// In Data-Out right after it.
    pub unsolicited: u32,
}

/// What goes out of a write of this length before an R2T.
pub fn first_cut(length: u32, params: &Params) -> FirstCut
    ensures immediate { result.immediate ≡ immediate_of length params.now }
    ensures unsolicited { result.unsolicited ≡ unsolicited_of length params.now }
    ensures within { result.immediate + result.unsolicited ≤ length }
{
    let immediate = if params.immediate {
        length.min(params.first_burst).min(params.max_send)
    } else {
        0
    };
    let unsolicited = if params.initial_r2t {
        0
    } else {
        length.min(params.first_burst) - immediate
    };
    FirstCut {
        immediate,
        unsolicited,
    }
}

/// A Data-Out of a sequence.
#[derive(Clone, Copy, Debug, PartialEq, Eq)]
pub struct Piece {
    /// Its DataSN, from 0 in each sequence.
    pub number: u32,
    /// Where it begins in the write's data.
    pub offset: u32,
    pub length: u32,
    /// The last one of its sequence: the F bit.
    pub last: bool,
}
