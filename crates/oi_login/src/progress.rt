ghost use Rattle.std.specs.Prelude.{◌≡◌, [], ◌++◌, IfOk};
ghost use Rattle.oi_login.specs.Stages.{stage_number, next_number, is_operational, is_due, is_last_turn, heard};

use oi_base::{Blob, NoMemory, Series};
use oi_pdu::LoginResponse;
use oi_text::Pair;

/// What the initiator waits for.
#[derive(Clone, Copy, Debug, PartialEq, Eq)]
pub enum Stage {
    /// The answer to the first request.
    Opening,
    /// The target's challenge, with CHAP.
    Challenge,
    /// The answer to the response to that challenge; for mutual CHAP it has the target's own response.
    Proof,
    /// The end of the security stage.
    Security,
    /// The answers to the offer, and the end of the operational stage.
    Operational,
}

/// How far a login has come.
#[derive(Debug, Drop)]
pub struct Progress {
    pub stage: Stage,
    /// The T bit of the last request.
    pub transit: bool,
    /// The text of the target whose end has not come yet.
    pub text: Blob,
    /// All pairs of the target.
    pub pairs: Series<Pair>,
    /// Responses so far.
    pub turns: u32,
}

const MOST_TURNS: u32 = 32;

/// The stage as the header has it (RFC 7143, section 11.12.3).
pub fn stage_number(stage: Stage) -> u8
    ensures { result ≡ stage_number stage }
{
    match stage {
        Stage::Operational => 1,
        _ => 0,
    }
}

/// The stage to which a stage leads.
pub fn next_number(stage: Stage) -> u8
    ensures { result ≡ next_number stage }
{
    match stage {
        Stage::Operational => 3,
        _ => 1,
    }
}

pub fn is_operational(stage: Stage) -> bool
    ensures { result ≡ is_operational stage }
{
    matches!(stage, Stage::Operational)
}

/// Whether the stages and the T bit of a response are those that the last request allows.
pub fn is_due(progress: &Progress, head: LoginResponse) -> bool
    ensures { result ≡ is_due progress.now head }
{
    head.csg == stage_number(progress.stage)
        && (!head.transit || (progress.transit && head.nsg == next_number(progress.stage)))
}

/// Whether no further request may follow.
pub fn is_last_turn(progress: &Progress) -> bool
    ensures { result ≡ is_last_turn progress.now }
{
    MOST_TURNS - 1 <= progress.turns
}

/// A response's text behind the text whose end has not come yet.
pub fn heard(progress: Progress, payload: &[u8]) -> Result<Progress, NoMemory>
    ensures { IfOk result (λ p. p ≡ heard progress payload.now) }
{
    let Progress {
        stage,
        transit,
        text,
        pairs,
        turns,
    } = progress;
    let mut text = text.into_vec();
    text.extend_from_slice(payload)?;
    Ok(Progress {
        stage,
        transit,
        text: Blob::from_vec(text),
        pairs,
        turns,
    })
}
