use crate::{Agenda, PingDue, past, ping, replacement};
use std::test::Fail;

#[test]
fn times_are_past_at_their_second(rt: HostRuntime) {
    for (since, seconds, now, want) in [
        (0, 0, 0, true),
        (1_000, 5, 5_999, false),
        (1_000, 5, 6_000, true),
        (1_000, 5, 6_001, true),
        (6_000, 0, 5_999, false),
        (u64::MAX, 1, u64::MAX, false),
    ] {
        assert_eq!(rt; past(since, seconds, now), want, "{since} {seconds} {now}");
    }
}

#[test]
fn replacement_time(rt: HostRuntime) {
    for (seconds, now, want) in [
        (120, 120_999, false),
        (120, 121_000, true),
        (0, 1_000, true),
        (-1, u64::MAX, false),
    ] {
        assert_eq!(rt; replacement(1_000, seconds, now), want, "{seconds} {now}");
    }
}

#[test]
fn pings(rt: HostRuntime) {
    for (heard, sent, interval, now, want) in [
        (0, None, 5, 4_999, PingDue::Nothing),
        (0, None, 5, 5_000, PingDue::Send),
        (0, None, 0, 5_000, PingDue::Nothing),
        (0, Some(5_000), 5, 14_999, PingDue::Nothing),
        (0, Some(5_000), 0, 15_000, PingDue::TimedOut),
    ] {
        assert_eq!(rt;
            ping(heard, sent, interval, 10, now),
            want,
            "{sent:?} at {now}"
        );
    }
}

#[test]
fn agenda_gives_the_least_pair(rt: HostRuntime) -> Result<(), Fail> {
    let mut agenda = Agenda::new(rt.alloc());
    assert_eq!(rt; agenda.earliest(), None);
    for (key, at) in [
        (7, 300),
        (3, 500),
        (9, 300),
        (5, 200),
        (5, 400),
        (8, 100),
        (1, 600),
    ] {
        agenda.set(key, at)?;
    }
    agenda.clear(8);
    agenda.clear(2);
    assert_eq!(rt; agenda.earliest(), Some(300));
    assert_eq!(rt; agenda.take_due(299), None);
    for key in [7, 9, 5, 3] {
        assert_eq!(rt; agenda.take_due(500), Some(key));
    }
    assert_eq!(rt; agenda.take_due(599), None);
    assert_eq!(rt; agenda.earliest(), Some(600));
    Ok(())
}
