ghost use Rattle.std.specs.Prelude.{◌≡◌, ◌++◌, IfOk};
ghost use Rattle.oi_target_login.specs.Chap.{is_passed};
ghost use Rattle.oi_target_login.specs.Logins.{ends_login, fresh, heard, is_beginning, is_due, is_granted, is_last, leads_on, stage_after, stage_number};

use oi_base::{Blob, Label, NoMemory, Serial, Series};
use oi_pdu::LoginRequest;
use oi_text::Pair;
use std::alloc::Global;

/// The stages of a login (RFC 7143, section 6.3).
#[derive(Clone, Copy, Debug, PartialEq, Eq)]
pub enum Stage {
    Security,
    Operational,
}

/// Where the authentication stands.
#[derive(Clone, Copy, Debug, PartialEq, Eq)]
pub enum Auth {
    /// No method was taken.
    Unasked,
    /// CHAP was taken.
    Chosen,
    /// The initiator was challenged.
    Challenged { id: u8, challenge: [u8; 16] },
    /// The initiator has shown who it is, or need not.
    Passed,
}

/// Who logs in.
#[derive(Debug, PartialEq, Eq, Drop)]
pub struct Who {
    /// The initiator's name.
    pub initiator: Label,
    /// The initiator's part of the session's name (RFC 7143, section 11.12.5).
    pub isid: [u8; 6],
    /// The session is a discovery.
    pub discovers: bool,
}

/// How far a login has come.
#[derive(Debug, Drop)]
pub struct Progress {
    pub stage: Stage,
    /// None before the first text.
    pub who: Option<Who>,
    pub auth: Auth,
    /// The text of the initiator whose end has not come yet.
    pub text: Blob,
    /// All pairs of the initiator.
    pub pairs: Series<Pair>,
    /// Requests so far.
    pub turns: u32,
    /// The StatSN of the next response.
    pub stat: Serial,
}

impl Progress {
    /// Nothing was said yet.
    pub fn fresh(alloc: Global, stat: Serial) -> Progress
        ensures { result ≡ fresh stat }
    {
        Progress {
            stage: Stage::Security,
            who: None,
            auth: Auth::Unasked,
            text: Blob::new(alloc),
            pairs: Series::new(alloc),
            turns: 0,
            stat,
        }
    }

    /// A request's text behind the text whose end has not come yet.
    pub fn heard(self, payload: &[u8]) -> Result<Progress, NoMemory>
        ensures { IfOk result (λ p. p ≡ heard self payload.now) }
    {
        let Progress {
            stage,
            who,
            auth,
            text,
            pairs,
            turns,
            stat,
        } = self;
        let mut text = text.into_vec();
        text.extend_from_slice(payload)?;
        Ok(Progress {
            stage,
            who,
            auth,
            text: Blob::from_vec(text),
            pairs,
            turns,
            stat,
        })
    }

    /// Whether so many requests came that no further one may.
    pub fn is_last(&self) -> bool
        ensures { result ≡ is_last self.now }
    {
        32 <= self.turns
    }

    /// Whether the stages of a request are those that may come.
    pub fn is_due(&self, head: LoginRequest) -> bool
        ensures { result ≡ is_due self.now head }
    {
        (head.csg == stage_number(self.stage) || (is_beginning(&self.who) && head.csg == 1))
            && (!head.transit || leads_on(head))
    }
}

fn stage_number(stage: Stage) -> u8
    ensures { result ≡ stage_number stage }
{
    match stage {
        Stage::Security => 0,
        Stage::Operational => 1,
    }
}

fn is_beginning(who: &Option<Who>) -> bool
    ensures { result ≡ is_beginning who.now }
{
    match who {
        None => true,
        Some(_) => false,
    }
}

fn leads_on(head: LoginRequest) -> bool
    ensures { result ≡ leads_on head }
{
    head.nsg == 3 || (head.csg == 0 && head.nsg == 1)
}

pub fn is_passed(auth: Auth) -> bool
    ensures { result ≡ is_passed auth }
{
    match auth {
        Auth::Passed => true,
        Auth::Unasked | Auth::Chosen | Auth::Challenged { .. } => false,
    }
}

/// Whether the next stage is granted.
pub fn is_granted(head: LoginRequest, auth: Auth) -> bool
    ensures { result ≡ is_granted head auth }
{
    head.transit && is_passed(auth)
}

/// Whether the full feature phase is granted.
pub fn ends_login(head: LoginRequest, auth: Auth) -> bool
    ensures { result ≡ ends_login head auth }
{
    is_granted(head, auth) && head.nsg == 3
}

/// The stage behind a request, where it was granted the next one or not.
pub fn stage_after(head: LoginRequest, transit: bool) -> Stage
    ensures { result ≡ stage_after head transit }
{
    if transit || head.csg == 1 {
        Stage::Operational
    } else {
        Stage::Security
    }
}
