ghost use Rattle.std.specs.Prelude.{◌≡◌, ◌++◌, IfOk, OnOk};
ghost use Rattle.oi_script.specs.Notices.{cause_text, is_of_link, lost_text, refusal_word, refused_text, stale_text, status_text, window_text};

use crate::printing::put;
use oi_base::{Blob, NoMemory, write_number};
use oi_history::LostCause;
use std::alloc::Global;

/// Why a line was refused.
#[derive(Clone, Copy, Debug, PartialEq, Eq)]
pub enum Refusal {
    /// The greatest number of submissions is not done.
    Full,
    /// There is no such submission.
    Unknown,
    /// It is done.
    TooLate,
    /// The error handler is at work.
    Busy,
    NotLoggedIn,
    LoggedIn,
    /// The session has ended.
    Ended,
    /// The daemon is down.
    Down,
    /// The daemon is up.
    Running,
    /// There are no more sessions to be had.
    Sessions,
}

impl Refusal {
    /// Its printed word.
    pub fn word(self) -> &'static str
        ensures { result.now ≡ refusal_word self }
    {
        match self {
            Refusal::Full => "full",
            Refusal::Unknown => "unknown",
            Refusal::TooLate => "toolate",
            Refusal::Busy => "busy",
            Refusal::NotLoggedIn => "notloggedin",
            Refusal::LoggedIn => "loggedin",
            Refusal::Ended => "ended",
            Refusal::Down => "down",
            Refusal::Running => "running",
            Refusal::Sessions => "sessions",
        }
    }
}

/// The line of a PDU that came on a connection that is no longer the current one.
pub fn stale_line(alloc: Global, current: u64) -> Result<Blob, NoMemory>
    ensures { IfOk result (λ b. b ≡ stale_text current) }
{
    let mut out = Vec::new(alloc);
    put(&mut out, b"stale ")?;
    write_number(current, &mut out)?;
    put(&mut out, b"\n")?;
    Ok(Blob::from_vec(out))
}

/// The line of the command window: the next CmdSN, ExpCmdSN and MaxCmdSN.
pub fn window_line(alloc: Global, next: u32, expected: u32, max: u32) -> Result<Blob, NoMemory>
    ensures { IfOk result (λ b. b ≡ window_text next expected max) }
{
    let mut out = Vec::new(alloc);
    put(&mut out, b"window ")?;
    write_number(next as u64, &mut out)?;
    put(&mut out, b" ")?;
    write_number(expected as u64, &mut out)?;
    put(&mut out, b" ")?;
    write_number(max as u64, &mut out)?;
    put(&mut out, b"\n")?;
    Ok(Blob::from_vec(out))
}

/// The line of a refusal, with the number of the input line that was refused.
pub fn refused_line(alloc: Global, line: u64, refusal: Refusal) -> Result<Blob, NoMemory>
    ensures { IfOk result (λ b. b ≡ refused_text line refusal) }
{
    let mut out = Vec::new(alloc);
    put(&mut out, b"refused ")?;
    write_number(line, &mut out)?;
    put(&mut out, b" ")?;
    put(&mut out, refusal.word().as_bytes())?;
    put(&mut out, b"\n")?;
    Ok(Blob::from_vec(out))
}

/// The line of a status after which the input goes on.
pub fn status_line(alloc: Global, line: u64, status: u8) -> Result<Blob, NoMemory>
    ensures { IfOk result (λ b. b ≡ status_text line status) }
{
    let mut out = Vec::new(alloc);
    put(&mut out, b"status ")?;
    write_number(line, &mut out)?;
    put(&mut out, b" ")?;
    write_number(status as u64, &mut out)?;
    put(&mut out, b"\n")?;
    Ok(Blob::from_vec(out))
}

// Whether the link itself gave the cause.
fn is_of_link(cause: LostCause) -> bool
    ensures { result ≡ is_of_link cause }
{
    match cause {
        LostCause::Read | LostCause::Write | LostCause::EndOfInput => true,
        _ => false,
    }
}

fn put_cause(out: &mut Vec<u8>, cause: LostCause) -> Result<(), NoMemory>
    ensures { OnOk result (out.new.items ≡ out.old.items ++ cause_text cause) }
{
    match cause {
        LostCause::Cut => put(out, b"cut"),
        LostCause::Ping => put(out, b"ping"),
        LostCause::Handler => put(out, b"handler"),
        LostCause::Asked(event) => {
            put(out, b"asked:")?;
            write_number(event as u64, out)
        }
        LostCause::Broken(rule) => {
            put(out, b"broken:")?;
            put(out, rule.word().as_bytes())
        }
        LostCause::Read | LostCause::Write | LostCause::EndOfInput => Ok(()),
    }
}

/// The line of a lost connection; nothing where the link itself gave the cause, which has no word.
pub fn lost_line(alloc: Global, generation: u64, cause: LostCause) -> Result<Blob, NoMemory>
    ensures { IfOk result (λ b. b ≡ lost_text generation cause) }
{
    if is_of_link(cause) {
        return Ok(Blob::new(alloc));
    }
    let mut out = Vec::new(alloc);
    put(&mut out, b"lost ")?;
    write_number(generation, &mut out)?;
    put(&mut out, b" ")?;
    put_cause(&mut out, cause)?;
    put(&mut out, b"\n")?;
    Ok(Blob::from_vec(out))
}
