ghost use Rattle.std.specs.Prelude.{◌≡◌};
ghost use Rattle.oi_history.specs.Courses.{clock_step, given_up, is_at_once, is_fail_fast, is_overdue, phase_step, without_connection};
ghost use Rattle.oi_history.specs.Phases.{ended_by, has_connection, is_ended, is_logged_in};

use crate::config::SessionConfig;
use crate::event::Event;
use crate::phase::{End, Phase};
use oi_timers::replacement;

/// The last reading of the clock after an event.
pub fn clock_step(event: &Event, before: u64) -> u64
    ensures { result ≡ clock_step event.now before }
{
    match event {
        Event::Tick { now } => *now,
        _ => before,
    }
}

/// No time is left for a replacement connection.
pub fn is_at_once(replacement: i32) -> bool
    ensures { result ≡ is_at_once replacement }
{
    replacement == 0
}

fn without_connection(replacement: i32, now: u64) -> Phase
    ensures { result ≡ without_connection replacement now }
{
    if is_at_once(replacement) {
        Phase::FailFast { since: now }
    } else {
        Phase::Recovering { since: now }
    }
}

/// The time for a replacement connection is over at this reading.
pub fn is_overdue(seconds: i32, now: u64, phase: Phase) -> bool
    ensures { result ≡ is_overdue seconds now phase }
{
    match phase {
        Phase::Recovering { since } => replacement(since, seconds, now),
        _ => false,
    }
}

fn given_up(seconds: i32, now: u64, phase: Phase) -> Phase
    ensures { result ≡ given_up seconds now phase }
{
    match phase {
        Phase::Recovering { since } if replacement(since, seconds, now) => Phase::FailFast {
            since,
        },
        other => other,
    }
}

pub fn is_fail_fast(phase: Phase) -> bool
    ensures { result ≡ is_fail_fast phase }
{
    match phase {
        Phase::FailFast { .. } => true,
        _ => false,
    }
}

fn ended_by(cause: End, phase: Phase) -> Phase
    ensures { result ≡ ended_by cause phase }
{
    match phase {
        Phase::Ended { cause: first } => Phase::Ended { cause: first },
        _ => Phase::Ended { cause },
    }
}

/// Where the session stands after an event; `now` is the last reading before it.
pub fn phase_step(config: &SessionConfig, now: u64, event: &Event, phase: Phase) -> Phase
    ensures { result ≡ phase_step config.now now event.now phase }
{
    match event {
        Event::Login { generation, .. } => Phase::LoggedIn {
            generation: *generation,
        },
        Event::Lost { .. } => without_connection(config.replacement, now),
        Event::Tick { now: reading } => given_up(config.replacement, *reading, phase),
        Event::Terminate { cause } => ended_by(*cause, phase),
        _ => phase,
    }
}

/// The session stands on a connection.
pub fn has_connection(phase: Phase) -> bool
    ensures { result ≡ has_connection phase }
{
    match phase {
        Phase::LoggedIn { .. } => true,
        _ => false,
    }
}

/// In the full feature phase of the connection with this generation.
pub fn is_logged_in(phase: Phase, generation: u64) -> bool
    ensures { result ≡ is_logged_in phase generation }
{
    match phase {
        Phase::LoggedIn { generation: live } => live == generation,
        _ => false,
    }
}

/// The session is over.
pub fn is_ended(phase: Phase) -> bool
    ensures { result ≡ is_ended phase }
{
    match phase {
        Phase::Ended { .. } => true,
        _ => false,
    }
}
