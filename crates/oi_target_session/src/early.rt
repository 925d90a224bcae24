ghost use Rattle.std.specs.Prelude.{◌≡◌, ◌<◌, IfOk, OnOk, length};
ghost use Rattle.std.specs.List.{slice_get};
ghost use Rattle.oi_target_session.specs.Arrivals.{held_fed, held_with, is_held, padded};

use crate::fed::Fed;
use oi_base::NoMemory;
use oi_pdu::Pdu;
use std::collections::VecDeque;

fn is_held(held: &VecDeque<Option<Pdu>>, at: usize) -> bool
    ensures { result ≡ is_held (slice_get held.now.items at) }
{
    match held.get(at) {
        Some(slot) => slot.is_some(),
        None => false,
    }
}

// Makes places up to this one.
fn pad(held: &mut VecDeque<Option<Pdu>>, at: usize) -> Result<(), NoMemory>
    requires { at < 32 }
    ensures held { OnOk result (held.new.items ≡ padded at held.old.items) }
    ensures within { OnOk result (at < length held.new.items) }
{
    let missing = (at + 1).saturating_sub(held.len());
    for count in 0..missing {
        held.push_back(None)?;
    }
    Ok(())
}

/// Holds a PDU that came early, in its place of the window. One whose number is held already closes the connection.
pub fn hold(held: &mut VecDeque<Option<Pdu>>, at: u32, pdu: Pdu) -> Result<Fed, NoMemory>
    requires { at < 32 }
    ensures held { OnOk result (held.new.items ≡ held_with at held.old.items pdu) }
    ensures fed { IfOk result (λ f. f ≡ held_fed at held.old.items) }
{
    let at = at as usize;
    if is_held(held, at) {
        return Ok(Fed::Closed);
    }
    pad(held, at)?;
    held[at] = Some(pdu);
    Ok(Fed::Going)
}
