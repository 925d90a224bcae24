ghost use Rattle.std.specs.Prelude.{◌≡◌, IfOk, None, Some, MatchOption};
ghost use Rattle.oi_negotiate.specs.Negotiated.{answer_to};
ghost use Rattle.oi_target_login.specs.Names.{is_discovery, is_normal, is_sent_away, known, named_by, naming, normal};

use crate::config::LoginRules;
use crate::pairs::answer_to;
use crate::progress::Who;
use crate::status::Status;
use oi_base::{Label, NoMemory};
use oi_pdu::LoginRequest;
use oi_text::Pair;
use std::alloc::Global;

/// Who logs in, or why nobody does.
#[derive(Debug, Drop)]
pub enum Naming {
    Known(Who),
    Unknown(Status),
}

fn is_normal(pairs: &[Pair]) -> bool
    ensures { result ≡ is_normal pairs.now }
{
    match answer_to(b"SessionType", pairs) {
        None => true,
        Some(value) => value == b"Normal".as_slice(),
    }
}

fn is_discovery(pairs: &[Pair]) -> bool
    ensures { result ≡ is_discovery pairs.now }
{
    match answer_to(b"SessionType", pairs) {
        None => false,
        Some(value) => value == b"Discovery".as_slice(),
    }
}

/// Whether the target has moved, and sends this login away.
pub fn is_sent_away(rules: &LoginRules, pairs: &[Pair]) -> bool
    ensures { result ≡ is_sent_away rules.now pairs.now }
{
    rules.moved.is_some() && is_normal(pairs)
}

/// Who logs in, by the pairs of the first text.
pub fn initiator_named(
    alloc: Global,
    rules: &LoginRules,
    head: LoginRequest,
    pairs: &[Pair],
) -> Result<Naming, NoMemory>
    ensures { IfOk result (λ n. n ≡ naming rules.now head pairs.now) }
{
    if !is_discovery(pairs) && !is_normal(pairs) {
        return Ok(Naming::Unknown(Status::NO_SUCH_TYPE));
    }
    let Some(initiator) = answer_to(b"InitiatorName", pairs) else {
        return Ok(Naming::Unknown(Status::MISSING_PARAMETER));
    };
    if is_discovery(pairs) {
        return known(alloc, head, initiator, true);
    }
    let Some(target) = answer_to(b"TargetName", pairs) else {
        return Ok(Naming::Unknown(Status::MISSING_PARAMETER));
    };
    if target != rules.name.as_slice() {
        return Ok(Naming::Unknown(Status::NOT_FOUND));
    }
    known(alloc, head, initiator, false)
}

fn known(
    alloc: Global,
    head: LoginRequest,
    initiator: &[u8],
    discovers: bool,
) -> Result<Naming, NoMemory>
    ensures { IfOk result (λ n. n ≡ known head initiator.now discovers) }
{
    if head.tsih != 0 {
        return Ok(Naming::Unknown(Status::NO_SUCH_SESSION));
    }
    Ok(Naming::Known(Who {
        initiator: Label::from_slice(alloc, initiator)?,
        isid: head.isid,
        discovers,
    }))
}
