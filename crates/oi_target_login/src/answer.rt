ghost use Rattle.std.specs.Prelude.{◌≡◌, ◌<◌, ◌^◌, IfSome, length};
ghost use Rattle.oi_target_login.specs.Logins.{asked_on, closing, goes_on, opened, refused};

use crate::call::Call;
use crate::progress::{Auth, Progress, Who, is_granted, stage_after};
use crate::status::Status;
use oi_base::{Blob, Params, Serial, Series};
use oi_pdu::Pdu;
use oi_text::Pair;
use std::alloc::Global;

/// A session that a login opened: who logged in, what was settled, its ExpCmdSN and its next StatSN.
#[derive(Debug, PartialEq, Eq, Drop)]
pub struct NewSession {
    pub who: Who,
    pub params: Params,
    pub exp: Serial,
    pub stat: Serial,
}

/// What becomes of a connection that is logging in.
#[derive(Debug, PartialEq, Eq, Drop)]
pub enum Verdict {
    /// Another request may come.
    Going,
    /// The connection is closed.
    Closed,
    /// The full feature phase is reached.
    Done(NewSession),
}

/// What one PDU comes to.
#[derive(Debug, Drop)]
pub struct Answer {
    pub progress: Progress,
    pub pdu: Option<Pdu>,
    pub verdict: Verdict,
}

/// The login is refused or sent away.
pub fn refused(alloc: Global, call: Call, status: Status, text: Blob) -> Answer
    requires { length text < 2 ^ 24 }
    ensures value { result ≡ refused call status text }
    ensures size { IfSome result.pdu (λ p. length p.payload < 2 ^ 24) }
{
    Answer {
        progress: Progress::fresh(alloc, call.next_stat()),
        pdu: Some(call.response(status, false, 0, text)),
        verdict: Verdict::Going,
    }
}

/// The connection is closed.
pub fn closing(alloc: Global, stat: Serial) -> Answer
    ensures value { result ≡ closing stat }
    ensures size { IfSome result.pdu (λ p. length p.payload < 2 ^ 24) }
{
    Answer {
        progress: Progress::fresh(alloc, stat),
        pdu: None,
        verdict: Verdict::Closed,
    }
}

/// The text goes on in the next request.
pub fn asked_on(alloc: Global, call: Call, progress: Progress) -> Answer
    requires { progress.turns < 32 }
    ensures value { result ≡ asked_on call progress }
    ensures size { IfSome result.pdu (λ p. length p.payload < 2 ^ 24) }
{
    let Progress {
        stage,
        who,
        auth,
        text,
        pairs,
        turns,
        stat: _,
    } = progress;
    Answer {
        progress: Progress {
            stage,
            who,
            auth,
            text,
            pairs,
            turns: turns + 1,
            stat: call.next_stat(),
        },
        pdu: Some(call.response(Status::SUCCESS, false, 0, Blob::new(alloc))),
        verdict: Verdict::Going,
    }
}

/// The login goes on with all pairs so far.
pub fn goes_on(
    alloc: Global,
    call: Call,
    who: Who,
    auth: Auth,
    all: Series<Pair>,
    text: Blob,
) -> Answer
    requires turns { call.turns < 32 }
    requires text { length text < 2 ^ 24 }
    ensures value { result ≡ goes_on call who auth all text }
    ensures size { IfSome result.pdu (λ p. length p.payload < 2 ^ 24) }
{
    let transit = is_granted(call.head, auth);
    Answer {
        progress: Progress {
            stage: stage_after(call.head, transit),
            who: Some(who),
            auth,
            text: Blob::new(alloc),
            pairs: all,
            turns: call.turns + 1,
            stat: call.next_stat(),
        },
        pdu: Some(call.response(Status::SUCCESS, transit, 0, text)),
        verdict: Verdict::Going,
    }
}

/// The session is opened.
pub fn opened(alloc: Global, call: Call, who: Who, params: Params, text: Blob) -> Answer
    requires { length text < 2 ^ 24 }
    ensures value { result ≡ opened call who params text }
    ensures size { IfSome result.pdu (λ p. length p.payload < 2 ^ 24) }
{
    let stat = call.next_stat();
    Answer {
        progress: Progress::fresh(alloc, stat),
        pdu: Some(call.response(Status::SUCCESS, true, call.handle, text)),
        verdict: Verdict::Done(NewSession {
            who,
            params,
            exp: call.head.cmdsn,
            stat,
        }),
    }
}
