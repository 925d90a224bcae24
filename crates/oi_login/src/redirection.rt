ghost use Rattle.std.specs.Prelude.{IfOk};
ghost use Rattle.oi_login.specs.Answers.{IsFound};
ghost use Rattle.oi_login.specs.Turns.{NamesPortal, Refuses};

use crate::fault::LoginFault;
use crate::pairs::{answer_to, read_text};
use oi_base::NoMemory;
use oi_names::{NameFault, Portal};
use oi_pdu::LoginResponse;
use std::alloc::Global;

/// Why a login ends with a response whose status is no success.
pub fn refusal(alloc: Global, text: &[u8], head: LoginResponse) -> Result<LoginFault, NoMemory>
    ensures { IfOk result (Refuses text.now head) }
{
    let status = LoginFault::Status {
        class: head.class,
        detail: head.detail,
    };
    if head.class != 1 {
        return Ok(status);
    }
    match named_portal(alloc, text)? {
        Some(portal) => Ok(LoginFault::Moved { portal }),
        None => Ok(status),
    }
}

// The portal that the first TargetAddress of a text names.
fn named_portal(alloc: Global, text: &[u8]) -> Result<Option<Portal>, NoMemory>
    ensures { IfOk result (IsFound (NamesPortal text.now)) }
{
    let Some(pairs) = read_text(alloc, text)? else {
        return Ok(None);
    };
    let Some(value) = answer_to(b"TargetAddress", pairs.as_slice()) else {
        return Ok(None);
    };
    match Portal::read_bytes(alloc, value) {
        Ok((portal, _)) => Ok(Some(portal)),
        Err(NameFault::Bad { .. }) => Ok(None),
        Err(NameFault::Memory) => Err(NoMemory),
    }
}
