ghost use Rattle.std.specs.Prelude.{◌≡◌, []};
ghost use Rattle.oi_drive.specs.Splits.{IsSplit};
ghost use Rattle.oi_drive.specs.Worlds.{link_of};

use oi_base::NoMemory;
use oi_history::Rule;
use oi_pdu::Pdu;
use oi_stream::{Splitter, StreamFault};

/// What a piece of bytes came to on its link.
#[derive(Clone, Copy, Debug, PartialEq, Eq)]
pub enum Piece {
    /// The link had ended, and was not fed.
    Ended,
    /// It was fed, and its stream can't be followed further by this rule.
    Fed { fault: Option<Rule> },
}

/// Feeds a piece to a link; the PDUs that it makes whole are in `pdus`.
pub fn split(link: &mut Splitter, bytes: &[u8], pdus: &mut Vec<Pdu>) -> Result<Piece, NoMemory>
    requires { pdus.old.items ≡ [] }
    ensures { IsSplit (link_of link.old) bytes.now result (link_of link.new) pdus.new.items }
{
    match link.feed(bytes, pdus) {
        Ok(()) => Ok(Piece::Fed { fault: None }),
        Err(StreamFault::BadHeader { .. }) => Ok(Piece::Fed {
            fault: Some(Rule::Header),
        }),
        Err(StreamFault::TooLong { .. }) => Ok(Piece::Fed {
            fault: Some(Rule::TooLong),
        }),
        Err(StreamFault::Ended { .. }) => Ok(Piece::Ended),
        Err(StreamFault::Memory) => Err(NoMemory),
    }
}
