ghost use Rattle.std.specs.Prelude.{ℕ, ◌≡◌, ◌<◌};
ghost use Rattle.oi_target_session.specs.declared.place.Place.TheVariants.{Early};
ghost use Rattle.oi_target_session.specs.Arrivals.{place_by, place_of};

use oi_base::Serial;
use oi_pdu::Header;

const WINDOW: u32 = 32;

/// Where a PDU stands in the order of commands.
#[derive(Clone, Copy, Debug, PartialEq, Eq)]
pub enum Place {
    /// It takes no number.
    Now,
    /// Its number is the one that is expected.
    InTurn,
    /// So many numbers between the one that is expected and its own did not come yet.
    Early(u32),
    Outside,
}

fn place_by(exp: Serial, immediate: bool, number: Serial) -> Place
    ensures place { result ≡ place_by exp.0 immediate number.0 }
    ensures early { (at : ℕ) → result ≡ Early at → at < 32 }
{
    if immediate {
        return Place::Now;
    }
    let ahead = number.0.wrapping_sub(exp.0);
    if ahead == 0 {
        Place::InTurn
    } else if ahead < WINDOW {
        Place::Early(ahead - 1)
    } else {
        Place::Outside
    }
}

/// The place of a PDU, by the CmdSN that is expected. In a discovery commands and task management have none, in a normal session
/// text has none.
pub fn place_of(discovers: bool, exp: Serial, head: Header) -> Place
    ensures place { result ≡ place_of discovers exp.0 head }
    ensures early { (at : ℕ) → result ≡ Early at → at < 32 }
{
    match head {
        Header::NopOut(h) => place_by(exp, h.immediate, h.cmdsn),
        Header::ScsiCommand(h) => place_by(exp, h.immediate || discovers, h.cmdsn),
        Header::TaskManagement(h) => place_by(exp, h.immediate || discovers, h.cmdsn),
        Header::LogoutRequest(h) => place_by(exp, h.immediate, h.cmdsn),
        Header::TextRequest(h) => place_by(exp, h.immediate || !discovers, h.cmdsn),
        _ => Place::Now,
    }
}
