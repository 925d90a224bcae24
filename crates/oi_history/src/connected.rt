ghost use Rattle.std.specs.Prelude.{◌≡◌, ◌++◌, ◌<◌, ◌+◌, ◌-◌, ◌^◌, ◌≤◌, ◌∷◌, [], None, drop, vec_len};
ghost use Rattle.std.specs.Vec.{vec_capacity};
ghost use Rattle.oi_base.specs.TagLayout.{age_after, management_tag};
ghost use Rattle.oi_history.specs.Connected.{asked_step, asked_told, echoes_step, echoes_told, given_rule, heard_step, is_given, is_its_tag, is_logout_response, leaving_step, logged_out_step, logout_step, managed_step, ping_step, ping_told, rule_on};
ghost use Rattle.oi_history.specs.Ledgers.{EndsWithin, heard_by};

use crate::acceptance::rule_of;
use crate::allocated::Allocated;
use crate::event::Event;
use crate::owed::{Echo, Ping};
use crate::rule::Rule;
use crate::task::Task;
use oi_base::{Tag, TagKind, age_of};
use oi_pdu::Header;

const RESERVED: u32 = u32::MAX;

/// How many management tags the connection gave after an event.
pub fn managed_step(event: &Event, before: u32) -> u32
    ensures { result ≡ managed_step event.now before }
{
    match event {
        Event::Login { .. } => 0,
        Event::Manage { .. } | Event::Logout { .. } => before.saturating_add(1),
        Event::Nop { tag, .. } if *tag != RESERVED => before.saturating_add(1),
        _ => before,
    }
}

/// The reading at the login or at the last PDU that counted.
pub fn heard_step(now: u64, accepted: bool, event: &Event, heard: u64) -> u64
    ensures { result ≡ heard_step now accepted event.now heard }
{
    match event {
        Event::Login { .. } => now,
        Event::PduIn { .. } if accepted => now,
        _ => heard,
    }
}

fn is_its_tag(tag: Tag, ping: Option<Ping>) -> bool
    ensures { result ≡ is_its_tag tag.0 ping }
{
    match ping {
        Some(ping) => ping.tag.0 == tag.0,
        None => false,
    }
}

fn ping_told(head: &Header, ping: Option<Ping>) -> Option<Ping>
    ensures { result ≡ ping_told head.now ping }
{
    match head {
        Header::NopIn(h) if is_its_tag(h.tag, ping) => None,
        _ => ping,
    }
}

/// The ping that is not answered yet.
pub fn ping_step(now: u64, accepted: bool, event: &Event, ping: Option<Ping>) -> Option<Ping>
    ensures { result ≡ ping_step now accepted event.now ping }
{
    match event {
        Event::Login { .. } | Event::Lost { .. } => None,
        Event::Nop { tag, .. } if *tag != RESERVED => Some(Ping {
            tag: Tag(*tag),
            sent: now,
        }),
        Event::PduIn { pdu, .. } if accepted => ping_told(&pdu.head, ping),
        _ => ping,
    }
}

/// A logout was asked for on the connection.
pub fn leaving_step(event: &Event, leaving: bool) -> bool
    ensures { result ≡ leaving_step event.now leaving }
{
    match event {
        Event::Leave => true,
        Event::Lost { .. } => false,
        _ => leaving,
    }
}

/// The Logout Request was sent.
pub fn logout_step(event: &Event, sent: bool) -> bool
    ensures { result ≡ logout_step event.now sent }
{
    match event {
        Event::Logout { .. } => true,
        Event::Lost { .. } | Event::Login { .. } => false,
        _ => sent,
    }
}

fn is_logout_response(head: &Header) -> bool
    ensures { result ≡ is_logout_response head.now }
{
    match head {
        Header::LogoutResponse(_) => true,
        _ => false,
    }
}

/// A Logout Response counted after the logout was asked for.
pub fn logged_out_step(accepted: bool, leaving: bool, event: &Event, done: bool) -> bool
    ensures { result ≡ logged_out_step accepted leaving event.now done }
{
    match event {
        Event::PduIn { pdu, .. } if accepted && leaving && is_logout_response(&pdu.head) => true,
        Event::Lost { .. } => false,
        _ => done,
    }
}

// The age of the tags of a connection; before the first one that of its tags to come.
fn age(generation: u64) -> u8
    ensures age { result ≡ age_after generation }
    ensures fits { result < 16 }
{
    if generation == 0 {
        0
    } else {
        age_of(generation)
    }
}

fn is_given(generation: u64, managed: u32, tag: Tag) -> bool
    ensures { result ≡ is_given generation managed tag.0 }
{
    let tag = u64::from(tag.0);
    next_number(generation, 0) <= tag && tag < next_number(generation, managed)
}

/// The management tag of a connection that gave so many before.
pub fn next_number(generation: u64, managed: u32) -> u64
    ensures { result ≡ management_tag (age_after generation) managed }
{
    u64::from(age(generation)) * 0x1000_0000 + 0x0800_0000 + u64::from(managed)
}

fn given_rule(generation: u64, managed: u32, tag: Tag) -> Option<Rule>
    ensures { result ≡ given_rule generation managed tag.0 }
{
    if is_given(generation, managed, tag) {
        None
    } else {
        Some(Rule::UnknownTag)
    }
}

/// The first rule that a PDU of the connection breaks.
pub fn rule_on(
    generation: u64,
    managed: u32,
    busy: &[Allocated],
    tasks: &[Task],
    head: &Header,
    payload: &[u8],
) -> Option<Rule>
    ensures rule { result ≡ rule_on generation managed busy.now tasks.now head.now payload.now }
    ensures within { result ≡ None → EndsWithin head.now }
{
    match head {
        Header::NopIn(h) if h.tag.0 == RESERVED => None,
        Header::NopIn(h) => given_rule(generation, managed, h.tag),
        Header::TaskResponse(h) => given_rule(generation, managed, h.tag),
        Header::LogoutResponse(h) => given_rule(generation, managed, h.tag),
        _ => rule_of(busy, tasks, head, payload),
    }
}

fn hear_echo(echoes: &mut Vec<Echo>, head: &Header)
    requires { vec_len echoes.old < vec_capacity echoes.old }
    ensures { echoes.new.items ≡ echoes_told head.now echoes.old.items }
{
    let Header::NopIn(h) = head else {
        return;
    };
    if h.tag.0 == RESERVED && h.ttt != RESERVED {
        echoes.push_reserved(Echo {
            ttt: h.ttt,
            lun: h.lun,
        });
    }
}

fn drop_first(echoes: &mut Vec<Echo>)
    ensures { echoes.new.items ≡ drop 1 echoes.old.items }
{
    if !echoes.is_empty() {
        let _ = echoes.remove(0);
    }
}

/// NOP-Ins that wait for their answer.
pub fn echoes_step(echoes: &mut Vec<Echo>, accepted: bool, event: &Event)
    requires { vec_len echoes.old + heard_by event.now ≤ vec_capacity echoes.old }
    ensures { echoes.new.items ≡ echoes_step accepted event.now echoes.old.items }
{
    match event {
        Event::Login { .. } | Event::Lost { .. } => echoes.clear(),
        Event::Nop { tag, .. } if *tag == RESERVED => drop_first(echoes),
        Event::PduIn { pdu, .. } if accepted => hear_echo(echoes, &pdu.head),
        _ => {}
    }
}

fn hear_async(asked: &mut Vec<u8>, head: &Header)
    requires { vec_len asked.old < vec_capacity asked.old }
    ensures { asked.new.items ≡ asked_told head.now asked.old.items }
{
    if let Header::Async(h) = head {
        asked.push_reserved(h.event);
    }
}

/// Events of Async Messages that counted on the connection.
pub fn asked_step(asked: &mut Vec<u8>, accepted: bool, event: &Event)
    requires { vec_len asked.old + heard_by event.now ≤ vec_capacity asked.old }
    ensures { asked.new.items ≡ asked_step accepted event.now asked.old.items }
{
    match event {
        Event::Login { .. } => asked.clear(),
        Event::PduIn { pdu, .. } if accepted => hear_async(asked, &pdu.head),
        _ => {}
    }
}
