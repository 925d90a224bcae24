ghost use Rattle.std.specs.Prelude.{◌≡◌, ◌≤◌, IfOk, IfSome, map};
ghost use Rattle.oi_base.specs.Limits.{most_kept};
ghost use Rattle.oi_script.specs.Lines.{IsValidLine, set_by, set_of};
ghost use Rattle.oi_script.specs.Settings.{IsValueOf, least, most, setting_of, value_in};

use crate::line::DriveLine;
use crate::numbers::{is_text, number};
use oi_base::{Label, NoMemory};
use std::alloc::Global;

/// A setting of the session that a line can give. Times are in seconds.
#[derive(Clone, Copy, Debug, PartialEq, Eq)]
pub enum Setting {
    /// How often a command is sent at most.
    Tries,
    /// How long submissions wait for a new connection.
    Replacement,
    NoopOutInterval,
    NoopOutTimeout,
    AbortTimeout,
    /// The time of a LOGICAL UNIT RESET.
    LuResetTimeout,
    /// The time of a TARGET WARM RESET.
    TgtResetTimeout,
    /// Initiator task tags for commands.
    CmdsMax,
    /// Entries of one half of the history.
    Steps,
    /// Payload bytes kept in one half of the history.
    Kept,
    /// Live commands of one logical unit.
    QueueDepth,
    /// Whether a loss of the connection uses up a try.
    CountDisrupted,
}

impl Setting {
    /// The setting of this name.
    pub fn named(name: &[u8]) -> Option<Setting>
        ensures { result ≡ setting_of name.now }
    {
        if is_text(name, b"tries") {
            Some(Setting::Tries)
        } else if is_text(name, b"replacement") {
            Some(Setting::Replacement)
        } else if is_text(name, b"noop_out_interval") {
            Some(Setting::NoopOutInterval)
        } else if is_text(name, b"noop_out_timeout") {
            Some(Setting::NoopOutTimeout)
        } else if is_text(name, b"abort_timeout") {
            Some(Setting::AbortTimeout)
        } else if is_text(name, b"lu_reset_timeout") {
            Some(Setting::LuResetTimeout)
        } else if is_text(name, b"tgt_reset_timeout") {
            Some(Setting::TgtResetTimeout)
        } else if is_text(name, b"cmds_max") {
            Some(Setting::CmdsMax)
        } else if is_text(name, b"steps") {
            Some(Setting::Steps)
        } else if is_text(name, b"kept") {
            Some(Setting::Kept)
        } else if is_text(name, b"queue_depth") {
            Some(Setting::QueueDepth)
        } else if is_text(name, b"count_disrupted") {
            Some(Setting::CountDisrupted)
        } else {
            None
        }
    }

    fn least(self) -> u64
        ensures { result ≡ least self }
    {
        match self {
            Setting::Replacement | Setting::NoopOutInterval | Setting::CountDisrupted => 0,
            Setting::Steps => 64,
            Setting::Kept => 4096,
            _ => 1,
        }
    }

    fn most(self) -> u64
        ensures value { result ≡ most self }
        ensures bound { result ≤ most_kept }
    {
        match self {
            Setting::Tries => 255,
            Setting::Replacement => 86_400,
            Setting::CmdsMax => 2048,
            Setting::Steps => 1_000_000,
            Setting::Kept => 134_217_728,
            Setting::QueueDepth => 1024,
            Setting::CountDisrupted => 1,
            _ => 3600,
        }
    }

    // Its value that the text is.
    fn value(self, text: &[u8]) -> Option<i64>
        ensures value { result ≡ value_in self text.now }
        ensures range { IfSome result (λ v. IsValueOf self v) }
    {
        if self == Setting::Replacement && is_text(text, b"-1") {
            return Some(-1);
        }
        match number(text, self.least(), self.most()) {
            Some(n) => Some(n as i64),
            None => None,
        }
    }
}

fn named(alloc: Global, name: &[u8], text: &[u8]) -> Result<Option<DriveLine>, NoMemory>
    ensures line { IfOk result (λ o. o ≡ set_by (setting_of name.now) name.now text.now) }
    ensures valid { IfOk result (λ o. IfSome o (λ l. IsValidLine l)) }
{
    let Some(setting) = Setting::named(name) else {
        return Ok(None);
    };
    let Some(value) = setting.value(text) else {
        return Ok(None);
    };
    let name = Label::from_slice(alloc, name)?;
    Ok(Some(DriveLine::Set { name, value }))
}

/// `set NAME N`.
pub fn set(alloc: Global, fields: &[&[u8]]) -> Result<Option<DriveLine>, NoMemory>
    ensures line { IfOk result (λ o. o ≡ set_of (map (λ w. w.now) fields.now)) }
    ensures valid { IfOk result (λ o. IfSome o (λ l. IsValidLine l)) }
{
    match fields {
        [name, text] => named(alloc, name, text),
        _ => Ok(None),
    }
}
