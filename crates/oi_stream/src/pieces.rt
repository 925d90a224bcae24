ghost use Rattle.std.specs.List.{flat_map};
ghost use Rattle.oi_stream.specs.Streams.{IsFramed};

use crate::fault::StreamFault;
use crate::splitter::Splitter;
use oi_base::Blob;
use oi_pdu::Pdu;
use std::alloc::Global;

/// Appends the PDUs of a stream that came in these pieces. After a fault it looks at no further piece. By
/// `one_framing` the PDUs and the fault depend on the joined bytes alone, and not on the cuts between the pieces.
///
/// # Errors
///
/// As `Splitter::feed`; `Ended` never comes.
pub fn frame_pieces(
    alloc: Global,
    limit: u32,
    pieces: &[Blob],
    out: &mut Vec<Pdu>,
) -> Result<(), StreamFault>
    ensures { IsFramed limit (flat_map (λ b. b) pieces.now) out.old.items out.new.items result }
{
    let mut splitter = Splitter::new(alloc, limit);
    for piece in pieces {
        splitter.feed(piece.as_slice(), out)?;
    }
    Ok(())
}
