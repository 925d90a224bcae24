ghost use Rattle.std.specs.Prelude.{◌≡◌, ◌<◌, ◌+◌, ◌^◌, Some, None};
ghost use Rattle.std.specs.Option.{option_copied};
ghost use Rattle.oi_history.specs.Acceptance.{data_rule, known_rule, live_data_rule, numbers_of, r2t_rule, reject_rule, returned_tag, rule_of};
ghost use Rattle.oi_history.specs.Ledgers.{EndsWithin};
ghost use Rattle.oi_history.specs.Tags.{holder};
ghost use Rattle.oi_history.specs.Tasks.{held};

use crate::allocated::Allocated;
use crate::numbers::Numbers;
use crate::reply::is_live_on;
use crate::rule::Rule;
use crate::task::Task;
use oi_base::{Serial, Tag};
use oi_pdu::{DataIn, Header, R2t};

/// The submission of a tag in use.
pub fn holder_of(busy: &[Allocated], tag: Tag) -> Option<u64>
    ensures { result ≡ holder tag.0 busy.now }
{
    for a in busy {
        if a.tag.0 == tag.0 {
            return Some(a.id);
        }
    }
    None
}

pub fn held<'a>(busy: &[Allocated], tasks: &'a [Task], tag: Tag) -> Option<&'a Task>
    ensures { option_copied result ≡ held tag.0 busy.now tasks.now }
{
    let id = holder_of(busy, tag)?;
    tasks.get(id as usize)
}

fn own(exp: Serial, max: Serial, stat: Serial) -> Option<Numbers>
    ensures { result ≡ Some (record { exp = exp; max = max; stat = Some stat }) }
{
    Some(Numbers {
        exp,
        max,
        stat: Some(stat),
    })
}

fn not_own(exp: Serial, max: Serial) -> Option<Numbers>
    ensures { result ≡ Some (record { exp = exp; max = max; stat = None }) }
{
    Some(Numbers {
        exp,
        max,
        stat: None,
    })
}

/// The numbers that a PDU of the target carries.
pub fn numbers_of(head: &Header) -> Option<Numbers>
    ensures { result ≡ numbers_of head.now }
{
    match head {
        Header::NopIn(h) if h.tag.0 == 0xffff_ffff => not_own(h.exp, h.max),
        Header::NopIn(h) => own(h.exp, h.max, h.stat),
        Header::ScsiResponse(h) => own(h.exp, h.max, h.stat),
        Header::TaskResponse(h) => own(h.exp, h.max, h.stat),
        Header::DataIn(h) if h.ends => own(h.exp, h.max, h.stat),
        Header::DataIn(h) => not_own(h.exp, h.max),
        Header::LogoutResponse(h) => own(h.exp, h.max, h.stat),
        Header::R2t(h) => not_own(h.exp, h.max),
        Header::Async(h) => own(h.exp, h.max, h.stat),
        Header::Reject(h) => own(h.exp, h.max, h.stat),
        _ => None,
    }
}

fn live_data_rule(task: &Task, h: DataIn, payload: &[u8]) -> Option<Rule>
    ensures { result ≡ live_data_rule task.now h payload.now }
{
    if h.number != task.pieces {
        Some(Rule::DataNumber)
    } else if h.offset != task.got.count() {
        Some(Rule::DataOffset)
    } else if payload.len() > task.command.length as usize
        || h.offset as usize > task.command.length as usize - payload.len()
    {
        Some(Rule::DataRange)
    } else {
        None
    }
}

fn data_rule(task: Option<&Task>, h: DataIn, payload: &[u8]) -> Option<Rule>
    ensures { result ≡ data_rule (option_copied task.entry) h payload.now }
{
    match task {
        None => Some(Rule::UnknownTag),
        Some(task) if !task.command.reads => Some(Rule::WrongKind),
        Some(task) if is_live_on(&task.fate, h.tag) => live_data_rule(task, h, payload),
        Some(_) => None,
    }
}

fn r2t_rule(task: Option<&Task>, h: R2t) -> Option<Rule>
    ensures rule { result ≡ r2t_rule (option_copied task.entry) h }
    ensures within { result ≡ None → h.offset + h.length < 2 ^ 32 }
{
    match task {
        None => Some(Rule::UnknownTag),
        Some(task) if !task.command.writes => Some(Rule::WrongKind),
        Some(_) if h.length == 0 => Some(Rule::R2tRange),
        Some(task) if h.offset as u64 + h.length as u64 > task.command.length as u64 => Some(
            Rule::R2tRange,
        ),
        Some(_) => None,
    }
}

fn known_rule(task: Option<&Task>) -> Option<Rule>
    ensures { result ≡ known_rule (option_copied task.entry) }
{
    match task {
        None => Some(Rule::UnknownTag),
        Some(_) => None,
    }
}

fn reject_rule(busy: &[Allocated], tasks: &[Task], payload: &[u8]) -> Option<Rule>
    ensures { result ≡ reject_rule busy.now tasks.now payload.now }
{
    if payload.len() != 48 {
        return None;
    }
    let tag = Tag(u32::from_be_bytes([payload[16], payload[17], payload[18], payload[19]]));
    match held(busy, tasks, tag) {
        Some(task) if is_live_on(&task.fate, tag) => Some(Rule::Rejected),
        _ => None,
    }
}

/// The first rule that a PDU breaks.
pub fn rule_of(busy: &[Allocated], tasks: &[Task], head: &Header, payload: &[u8]) -> Option<Rule>
    ensures rule { result ≡ rule_of busy.now tasks.now head.now payload.now }
    ensures within { result ≡ None → EndsWithin head.now }
{
    match head {
        Header::DataIn(h) => data_rule(held(busy, tasks, h.tag), *h, payload),
        Header::ScsiResponse(h) => known_rule(held(busy, tasks, h.tag)),
        Header::R2t(h) => r2t_rule(held(busy, tasks, h.tag), *h),
        Header::NopIn(h) if h.tag.0 == 0xffff_ffff => None,
        Header::NopIn(_) | Header::TaskResponse(_) | Header::LogoutResponse(_) => Some(
            Rule::UnknownTag,
        ),
        Header::Async(_) => None,
        Header::Reject(_) => reject_rule(busy, tasks, payload),
        _ => Some(Rule::WrongOpcode),
    }
}
