ghost use Rattle.std.specs.Prelude.{◌≡◌, OnOk, [], false, is_err};
ghost use Rattle.oi_stream.specs.Bytewise.{IsFedBy, unfed};
ghost use Rattle.oi_stream.specs.Feeding.{Follows, IsFed, IsReached, Splits};
ghost use Rattle.oi_stream.specs.Steps.{IsGoing, state_of};

use crate::fault::StreamFault;
use crate::part::{Part, step};
use oi_pdu::Pdu;
use std::alloc::Global;
use std::marker::Model;

/// Cuts a byte stream into PDUs. Of the PDU under way it keeps 48 header bytes and the data, which it copies once, into a
/// buffer of the length that the header states.
#[derive(Debug, Drop)]
pub struct Splitter {
    limit: u32,
    place: u64,
    part: Part,
    ended: bool,
}

impl Model for Splitter {
    ghost use Rattle.std.specs.Prelude.{false, ◌≡◌};
    ghost use Rattle.oi_stream.specs.Feeding.{State};

    ghost Value = { State };

    ghost use Rattle.oi_stream.specs.Feeding.{IsReached};
    ghost use Rattle.oi_stream.specs.Steps.{IsGoing, state_of};

    ghost view = { λ s. state_of s.limit s.place s.part s.ended };

    ghost invariant = { λ s. s.ended ≡ false → IsGoing s.part × IsReached (state_of s.limit s.place s.part false) };
}

impl Splitter {
    /// A splitter at the front of a stream. `limit` is the greatest length of a data segment, in bytes, that it takes.
    pub fn new(alloc: Global, limit: u32) -> Splitter
        ensures unfed { result ≡ unfed limit }
        ensures follows { Follows [] [] result }
        ensures limit { result.limit ≡ limit }
        ensures going { result.ended ≡ false }
    {
        let part = Part {
            alloc,
            head: [0; 48],
            payload: Vec::new(alloc),
            count: 0,
        };
        Splitter {
            limit,
            place: 0,
            part,
            ended: false,
        }
    }

    /// Appends the PDUs that this piece makes whole. A header is looked at as soon as its 48 bytes are there. After any
    /// error the splitter has ended, and each further call answers `Ended`.
    ///
    /// # Errors
    ///
    /// `BadHeader` and `TooLong` for the first PDU that is not whole; those before it are in `out`. `Memory` where there
    /// is none for its data or for the list.
    pub fn feed(&mut self, piece: &[u8], out: &mut Vec<Pdu>) -> Result<(), StreamFault>
        ensures framed { IsFed self.old self.new piece.now out.old.items out.new.items result }
        ensures bytewise { IsFedBy self.old self.new piece.now out.old.items out.new.items result }
    {
        if self.ended {
            return Err(StreamFault::Ended { place: self.place });
        }
        self.ended = true;
        split(&mut self.part, self.limit, &mut self.place, piece, out)?;
        self.ended = false;
        Ok(())
    }
}

// Takes all bytes of a piece, PDU after PDU.
fn split(
    part: &mut Part,
    limit: u32,
    place: &mut u64,
    piece: &[u8],
    out: &mut Vec<Pdu>,
) -> Result<(), StreamFault>
    requires going { IsGoing part.old }
    requires reached { IsReached (state_of limit place.old part.old false) }
    ensures splits { Splits (state_of limit place.old part.old false) (state_of limit place.new part.new (is_err result)) piece.now out.old.items out.new.items result }
    ensures bytewise { IsFedBy (state_of limit place.old part.old false) (state_of limit place.new part.new (is_err result)) piece.now out.old.items out.new.items result }
    ensures going { OnOk result (IsGoing part.new) }
    ensures reached { OnOk result (IsReached (state_of limit place.new part.new false)) }
{
    let mut at = 0;
    while let Some(whole) = step(part, limit, *place, &piece[at..])? {
        out.push(whole.pdu)?;
        *place = place.saturating_add(whole.size as u64);
        at += whole.taken;
    }
    Ok(())
}
