ghost use Rattle.std.specs.Prelude.{◌≡◌, ◌≤◌, ◌<◌, ◌+◌, ◌^◌};
ghost use Rattle.oi_history.specs.Locks.{is_sending, is_task_response};
ghost use Rattle.oi_solo.specs.Limits.{first_passed, kept_bytes, loaded, passes, payload_of};

use oi_history::{Event, SessionConfig};
use oi_pdu::Header;
use oi_scsi::Kind;

/// How full one half of a history is.
#[derive(Clone, Copy, Debug, PartialEq, Eq)]
pub struct Load {
    /// Entries.
    pub steps: u64,
    /// Bytes of payloads.
    pub kept: u64,
}

fn payload_of(kind: &Kind) -> usize
    ensures is { result ≡ payload_of kind.now }
    ensures small { result < 2 ^ 63 }
{
    match kind {
        Kind::Write { payload, .. } => payload.as_slice().len(),
        Kind::ReserveOut { .. } => kind.length() as usize,
        _ => 0,
    }
}

fn kept_bytes(event: &Event) -> usize
    ensures is { result ≡ kept_bytes event.now }
    ensures small { result < 2 ^ 63 }
{
    match event {
        Event::Submit { request, .. } => payload_of(&request.kind),
        Event::PduIn { pdu, .. } => pdu.payload.as_slice().len(),
        _ => 0,
    }
}

/// The load with one entry more, where the half has it.
pub fn loaded(covers: bool, event: &Event, load: Load) -> Load
    requires steps { load.steps < 2 ^ 63 }
    requires kept { load.kept < 2 ^ 63 }
    ensures { result ≡ loaded covers event.now load }
{
    if !covers {
        return load;
    }
    Load {
        steps: load.steps + 1,
        kept: load.kept + kept_bytes(event) as u64,
    }
}

fn is_task_response(head: &Header) -> bool
    ensures { result ≡ is_task_response head.now }
{
    match head {
        Header::TaskResponse(_) => true,
        _ => false,
    }
}

/// The entry needs the lock of the half that sends.
pub fn is_sending(event: &Event) -> bool
    ensures { result ≡ is_sending event.now }
{
    match event {
        Event::PduIn { pdu, .. } => is_task_response(&pdu.head),
        Event::Deliver { .. } => false,
        _ => true,
    }
}

fn passes(config: &SessionConfig, before: Load, after: Load) -> bool
    requires { 16 ≤ config.now.steps }
    ensures { result ≡ passes config.now before after }
{
    after.steps != before.steps && (after.steps > config.steps - 16 || after.kept > config.kept)
}

/// The half that passes its limits, that which sends before the other.
pub fn first_passed(
    config: &SessionConfig,
    sending: Load,
    sending_after: Load,
    receiving: Load,
    receiving_after: Load,
) -> Option<Load>
    requires { 16 ≤ config.now.steps }
    ensures { result ≡ first_passed config.now sending sending_after receiving receiving_after }
{
    if passes(config, sending, sending_after) {
        Some(sending)
    } else if passes(config, receiving, receiving_after) {
        Some(receiving)
    } else {
        None
    }
}
