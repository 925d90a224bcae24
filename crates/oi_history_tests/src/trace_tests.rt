use crate::tests::{config, cut, login, submit};
use oi_base::{Blob, Params, Serial, Tag};
use oi_history::*;
use oi_pdu::{Header, Pdu, ScsiResponse};
use oi_scsi::{Kind, Request};
use std::alloc::Global;
use std::process::Abort;
use std::test::Fail;

fn issue(id: u64, index: u32, cmdsn: u32) -> Event {
    Event::Issue {
        id,
        generation: 1,
        tag: Tag(index),
        cmdsn,
    }
}

fn push() -> Event {
    Event::Push {
        id: 0,
        generation: 1,
        ttt: u32::MAX,
        number: 0,
        offset: 0,
        length: 8192,
        last: false,
    }
}

fn logout(tag: u32) -> Event {
    Event::Logout {
        generation: 1,
        tag: Tag(tag),
    }
}

fn lost(cause: LostCause) -> Event {
    Event::Lost {
        generation: 1,
        cause,
    }
}

fn second_login(generation: u64) -> Event {
    Event::Login {
        generation,
        params: params(),
        cmdsn: 1,
        max: 32,
        exp_stat: 5,
    }
}

fn params() -> Params {
    Params {
        initial_r2t: false,
        immediate: false,
        max_send: 8192,
        max_recv: 262_144,
        max_burst: 262_144,
        first_burst: 65_536,
        outstanding: 1,
        time2wait: 2,
        time2retain: 20,
    }
}

// A write of 32 blocks.
fn write(alloc: Global, id: u64) -> Result<Event, Fail> {
    Ok(Event::Submit {
        id,
        request: Request {
            lun: 0,
            kind: Kind::Write {
                lba: 0,
                blocks: 32,
                payload: Blob::from_vec(vec![in alloc; 0xaau8; 16_384]?),
            },
        },
    })
}

// CHECK CONDITION without sense data.
fn check_condition(alloc: Global, tag: u32) -> Event {
    Event::PduIn {
        generation: 1,
        pdu: Pdu {
            head: Header::ScsiResponse(ScsiResponse {
                over: false,
                under: false,
                response: 0,
                status: 2,
                tag: Tag(tag),
                stat: Serial(5),
                exp: Serial(2),
                max: Serial(33),
                exp_number: 0,
                residual: 0,
            }),
            payload: Blob::new(alloc),
        },
    }
}

fn numbered(alloc: Global, events: Vec<Event>) -> Result<Vec<Numbered>, Fail> {
    let mut number = 0u32;
    let mut entries = Vec::new(alloc);
    for event in events {
        entries.push(Numbered {
            number: u64::from(number),
            event,
        })?;
        number = number.wrapping_add(1);
    }
    Ok(entries)
}

// The last entry breaks this rule, and no entry before it any; without a rule all are permitted.
pub(crate) fn judge(
    rt: &impl Abort,
    alloc: Global,
    events: Vec<Event>,
    rule: Option<u8>,
) -> Result<(), Fail> {
    let entries = numbered(alloc, events)?;
    let place = entries.len() as u64;
    let verdict = check_trace(alloc, &entries, &config(120));
    match rule {
        None => assert!(rt; verdict.is_ok(), "{place}"),
        Some(rule) => match verdict {
            Err(
                TraceFault::Illegal {
                    place: number,
                    rule: broken,
                },
            ) => {
                assert_eq!(rt; broken, rule);
                assert!(rt; number.checked_add(1) == Some(place));
            }
            _ => assert!(rt; false, "rule {rule} holds"),
        },
    }
    Ok(())
}

// Behind two reads and a login: an entry that breaks a rule, and one beside it that is permitted.
fn beside(
    rt: &impl Abort,
    alloc: Global,
    rule: u8,
    broken: Event,
    permitted: Event,
) -> Result<(), Fail> {
    let events = vec![in alloc; submit(0), submit(1), login(), broken]?;
    judge(rt, alloc, events, Some(rule))?;
    let events = vec![in alloc; submit(0), submit(1), login(), permitted]?;
    judge(rt, alloc, events, None)
}

// For each rule but the first a history whose last entry breaks it, and one that is permitted.
#[test]
fn rules_before_a_command(rt: HostRuntime) -> Result<(), Fail> {
    let a = rt.alloc();
    beside(&rt, a, 2, submit(3), submit(2))?;
    beside(&rt, a, 3, issue(1, 0, 1), issue(0, 0, 1))?;
    beside(&rt, a, 4, issue(0, 0, 2), issue(0, 0, 1))?;
    beside(&rt, a, 5, issue(0, 1, 1), issue(0, 0, 1))?;
    beside(&rt, a, 9, logout(0x0800_0000), Event::Leave)?;
    beside(
        &rt,
        a,
        10,
        Event::Tick { now: 1 << 53 },
        Event::Tick { now: 7 },
    )?;
    beside(&rt, a, 11, lost(LostCause::Ping), cut())?;
    beside(
        &rt,
        a,
        11,
        lost(LostCause::Broken(Rule::DataNumber)),
        lost(LostCause::Broken(Rule::Header)),
    )?;
    beside(&rt, a, 12, second_login(2), Event::Tick { now: 0 })?;
    beside(
        &rt,
        a,
        13,
        Event::Deliver { count: 0 },
        Event::Abort { id: 1 },
    )?;
    beside(
        &rt,
        a,
        14,
        Event::Abort { id: 2 },
        Event::ResetLun { lun: 0 },
    )?;
    Ok(())
}

#[test]
fn rules_behind_a_command(rt: HostRuntime) -> Result<(), Fail> {
    let a = rt.alloc();
    let events = vec![in a; submit(0), login(), issue(0, 0, 1), push()]?;
    judge(&rt, a, events, Some(6))?;
    let events = vec![in a; write(a, 0)?, second_login(1), issue(0, 0, 1), push()]?;
    judge(&rt, a, events, None)?;
    let events = vec![in a;
        submit(0),
        login(),
        issue(0, 0, 1),
        Event::Reap { tag: Tag(0) },
    ]?;
    judge(&rt, a, events, Some(7))?;
    let events = vec![in a;
        submit(0),
        login(),
        issue(0, 0, 1),
        check_condition(a, 0),
        Event::Reap { tag: Tag(0) },
    ]?;
    judge(&rt, a, events, None)?;
    let events = vec![in a;
        submit(0),
        login(),
        issue(0, 0, 1),
        Event::Draw { count: 1 },
    ]?;
    judge(&rt, a, events, Some(8))?;
    let events = vec![in a; login(), Event::Leave, logout(0x0800_0001)]?;
    judge(&rt, a, events, Some(9))?;
    let events = vec![in a; login(), Event::Leave, logout(0x0800_0000)]?;
    judge(&rt, a, events, None)?;
    let events = vec![in a; login(), cut(), second_login(1)]?;
    judge(&rt, a, events, Some(12))?;
    let events = vec![in a; login(), cut(), second_login(2)]?;
    judge(&rt, a, events, None)?;
    Ok(())
}

#[test]
fn rules_at_the_end(rt: HostRuntime) -> Result<(), Fail> {
    let a = rt.alloc();
    let end = || Event::Terminate { cause: End::Asked };
    let events = vec![in a;
        submit(0),
        Event::Abort { id: 0 },
        Event::Deliver { count: 2 },
    ]?;
    judge(&rt, a, events, Some(13))?;
    let events = vec![in a;
        submit(0),
        Event::Abort { id: 0 },
        Event::Deliver { count: 1 },
    ]?;
    judge(&rt, a, events, None)?;
    let events = vec![in a; submit(0), end(), submit(1)]?;
    judge(&rt, a, events, Some(2))?;
    let events = vec![in a; submit(0), end(), Event::Tick { now: 1 }]?;
    judge(&rt, a, events, Some(15))?;
    let events = vec![in a; submit(0), end(), Event::Deliver { count: 1 }]?;
    judge(&rt, a, events, None)?;
    Ok(())
}

fn at(number: u64, event: Event) -> Numbered {
    Numbered { number, event }
}

// Numbers ascend, with gaps.
#[test]
fn numbers_ascend(rt: HostRuntime) -> Result<(), Fail> {
    let a = rt.alloc();
    let entries = vec![in a; at(3, submit(0)), at(3, submit(1))]?;
    assert!(rt;
        check_trace(a, &entries, &config(120)) == Err(TraceFault::Illegal { place: 3, rule: 1 })
    );
    let entries = vec![in a; at(3, submit(0)), at(8, submit(1))]?;
    assert!(rt; check_trace(a, &entries, &config(120)).is_ok());
    Ok(())
}

// CHECK CONDITION before all data of a write were sent, and the next command on its tag, which was not released.
#[test]
fn early_status_drops_queued_data(rt: HostRuntime) -> Result<(), Fail> {
    let a = rt.alloc();
    let mut one = config(120);
    one.cmds_max = 1;
    let mut entries = vec![in a;
        at(0, second_login(1)),
        at(1, write(a, 0)?),
        at(2, submit(1)),
        at(3, issue(0, 0, 1)),
        at(4, push()),
        at(5, check_condition(a, 0)),
        at(6, Event::Deliver { count: 1 }),
    ]?;
    entries.push(at(8, issue(1, 0, 2)))?;
    assert!(rt; check_trace(a, &entries, &one) == Err(TraceFault::Illegal { place: 8, rule: 5 }));
    let _ = entries.pop();
    entries.push(at(7, Event::Reap { tag: Tag(0) }))?;
    entries.push(at(8, issue(1, 0, 2)))?;
    let verdict = check_trace(a, &entries, &one);
    match verdict {
        Ok(fates) => {
            assert_eq!(rt; fates.as_slice().len(), 2);
            assert!(rt;
                fates.as_slice().get(1)
                    == Some(&Fate::Live {
                        generation: 1,
                        tag: Tag(0),
                        tries: 1
                    })
            );
        }
        Err(_) => assert!(rt; false, "all are permitted"),
    }
    Ok(())
}
