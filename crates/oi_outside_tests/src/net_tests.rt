use oi_base::{Blob, Label, Series};
use oi_outside::*;
use std::alloc::Global;
use std::process::Abort;
use std::test::Fail;

/// No call of a link waits by the schedule, and a read gives all that it can.
const FREE: Schedule = Schedule {
    piece: 65_536,
    not_yet_every: 0,
};

const SLOW: Schedule = Schedule {
    piece: 1,
    not_yet_every: 3,
};

fn portal(alloc: Global) -> Result<PortalText, Fail> {
    Ok(Label::from_slice(alloc, b"127.0.0.1:3260")?)
}

fn net(alloc: Global) -> MemNet {
    MemNet::new(alloc, FREE, Series::new(alloc), Series::new(alloc))
}

fn slow_net(alloc: Global) -> MemNet {
    MemNet::new(alloc, SLOW, Series::new(alloc), Series::new(alloc))
}

fn failing_net(alloc: Global, calls: Vec<u64>) -> MemNet {
    MemNet::new(alloc, FREE, Series::from_vec(calls), Series::new(alloc))
}

fn net_with_failing_links(alloc: Global, fails: Vec<LinkFail>) -> MemNet {
    MemNet::new(alloc, FREE, Series::new(alloc), Series::from_vec(fails))
}

fn listens<N: Net>(rt: &impl Abort, net: &mut N, at: &PortalText) {
    assert_eq!(rt; net.listen(at), Ok(()));
}

fn dials<N: Net>(rt: &impl Abort, net: &mut N, at: &PortalText) -> (N::Read, N::Write) {
    match net.dial(at) {
        Ok(link) => link,
        Err(_) => panic!(rt; "no link"),
    }
}

fn accepts<N: Net>(rt: &impl Abort, net: &mut N, at: &PortalText) -> (N::Read, N::Write) {
    match net.accept(at) {
        Ok(Some(link)) => link,
        _ => panic!(rt; "nothing waits"),
    }
}

fn nothing_waits<N: Net>(rt: &impl Abort, net: &mut N, at: &PortalText) {
    match net.accept(at) {
        Ok(None) => {}
        _ => panic!(rt; "something waits"),
    }
}

fn dial_fails<N: Net>(rt: &impl Abort, net: &mut N, at: &PortalText) {
    match net.dial(at) {
        Err(NetError::Failed) => {}
        _ => panic!(rt; "no fault"),
    }
}

fn accept_fails<N: Net>(rt: &impl Abort, net: &mut N, at: &PortalText) {
    match net.accept(at) {
        Err(NetError::Failed) => {}
        _ => panic!(rt; "no fault"),
    }
}

fn writes<W: LinkWrite>(rt: &impl Abort, write: &mut W, piece: &[u8], turn: WriteTurn) {
    assert!(rt; !piece.is_empty());
    assert_eq!(rt; write.write(piece), turn);
}

fn gives<W: LinkWrite>(rt: &impl Abort, write: &mut W, piece: &[u8]) {
    writes(rt, write, piece, WriteTurn::Took(piece.len()));
}

fn takes<R: LinkRead>(rt: &impl Abort, read: &mut R, piece: &[u8]) {
    let mut buf = [0u8; 8];
    assert_eq!(rt; read.read(&mut buf), ReadTurn::Got(piece.len()));
    assert!(rt; piece.len() <= buf.len());
    assert_eq!(rt; &buf[..piece.len()], piece);
}

fn answers<R: LinkRead>(rt: &impl Abort, read: &mut R, turn: ReadTurn) {
    let mut buf = [7u8; 2];
    assert_eq!(rt; read.read(&mut buf), turn);
    assert_eq!(rt; buf, [7, 7]);
}

fn carries_both_ways<N: Net>(rt: &impl Abort, net: &mut N, here: &PortalText) {
    listens(rt, net, here);
    listens(rt, net, here);
    let (mut near_read, mut near_write) = dials(rt, net, here);
    let (mut far_read, mut far_write) = accepts(rt, net, here);
    answers(rt, &mut near_read, ReadTurn::NotYet);
    gives(rt, &mut near_write, b"abc");
    gives(rt, &mut far_write, b"12");
    gives(rt, &mut near_write, b"de");
    takes(rt, &mut near_read, b"12");
    takes(rt, &mut far_read, b"abcde");
    answers(rt, &mut far_read, ReadTurn::NotYet);
}

#[test]
fn link_carries_bytes_both_ways(rt: HostRuntime) -> Result<(), Fail> {
    carries_both_ways(&rt, &mut net(rt.alloc()), &portal(rt.alloc())?);
    Ok(())
}

fn accepts_in_order<N: Net>(rt: &impl Abort, net: &mut N, here: &PortalText, there: &PortalText) {
    dial_fails(rt, net, there);
    listens(rt, net, here);
    listens(rt, net, there);
    let (_read, mut write) = dials(rt, net, there);
    gives(rt, &mut write, b"t0");
    let (_read, mut write) = dials(rt, net, here);
    gives(rt, &mut write, b"h1");
    let (_read, mut write) = dials(rt, net, here);
    gives(rt, &mut write, b"h2");
    let (mut read, _write) = accepts(rt, net, here);
    takes(rt, &mut read, b"h1");
    let (mut read, _write) = accepts(rt, net, here);
    takes(rt, &mut read, b"h2");
    nothing_waits(rt, net, here);
    let (mut read, _write) = accepts(rt, net, there);
    takes(rt, &mut read, b"t0");
}

#[test]
fn first_dial_is_accepted_first(rt: HostRuntime) -> Result<(), Fail> {
    let there = Label::from_slice(rt.alloc(), b"127.0.0.1:3261")?;
    accepts_in_order(&rt, &mut net(rt.alloc()), &portal(rt.alloc())?, &there);
    Ok(())
}

fn holds_links_up<N: Net>(rt: &impl Abort, net: &mut N, here: &PortalText) {
    listens(rt, net, here);
    let (_read, mut write) = dials(rt, net, here);
    let (mut read, _write) = accepts(rt, net, here);
    gives(rt, &mut write, b"abcd");
    gives(rt, &mut write, b"e");
    writes(rt, &mut write, b"f", WriteTurn::NotYet);
    takes(rt, &mut read, b"a");
    takes(rt, &mut read, b"b");
    answers(rt, &mut read, ReadTurn::NotYet);
    takes(rt, &mut read, b"c");
    takes(rt, &mut read, b"d");
    answers(rt, &mut read, ReadTurn::NotYet);
    takes(rt, &mut read, b"e");
}

#[test]
fn schedule_holds_links_up(rt: HostRuntime) -> Result<(), Fail> {
    holds_links_up(&rt, &mut slow_net(rt.alloc()), &portal(rt.alloc())?);
    Ok(())
}

fn fails_by_number<N: Net>(rt: &impl Abort, net: &mut N, here: &PortalText) {
    assert_eq!(rt; net.listen(here), Err(NetError::Failed));
    listens(rt, net, here);
    dial_fails(rt, net, here);
    let (_read, mut write) = dials(rt, net, here);
    gives(rt, &mut write, b"abc");
    accept_fails(rt, net, here);
    let (mut read, _write) = accepts(rt, net, here);
    takes(rt, &mut read, b"abc");
}

#[test]
fn calls_of_a_net_fail_where_listed(rt: HostRuntime) -> Result<(), Fail> {
    let fails = vec![in rt.alloc(); 0u64, 2, 4]?;
    fails_by_number(
        &rt,
        &mut failing_net(rt.alloc(), fails),
        &portal(rt.alloc())?,
    );
    Ok(())
}

fn links_fail_by_number<N: Net>(rt: &impl Abort, net: &mut N, here: &PortalText) {
    listens(rt, net, here);
    let (mut near_read, mut near_write) = dials(rt, net, here);
    let (mut far_read, mut far_write) = accepts(rt, net, here);
    answers(rt, &mut near_read, ReadTurn::Failed);
    gives(rt, &mut near_write, b"ab");
    writes(rt, &mut near_write, b"cd", WriteTurn::Failed);
    gives(rt, &mut near_write, b"ef");
    takes(rt, &mut far_read, b"abef");
    answers(rt, &mut far_read, ReadTurn::Failed);
    writes(rt, &mut far_write, b"1", WriteTurn::Failed);
    gives(rt, &mut far_write, b"2");
    takes(rt, &mut near_read, b"2");
    let (_read, mut near_write) = dials(rt, net, here);
    let (mut far_read, _write) = accepts(rt, net, here);
    gives(rt, &mut near_write, b"gh");
    answers(rt, &mut far_read, ReadTurn::Failed);
    takes(rt, &mut far_read, b"gh");
}

fn fails_at(dial: u32, half: u8, call: u64) -> LinkFail {
    LinkFail { dial, half, call }
}

#[test]
fn calls_of_links_fail_where_listed(rt: HostRuntime) -> Result<(), Fail> {
    let fails = vec![in rt.alloc();
        fails_at(0, 0, 0),
        fails_at(0, 1, 1),
        fails_at(0, 2, 1),
        fails_at(0, 3, 0),
        fails_at(1, 2, 0),
    ]?;
    links_fail_by_number(
        &rt,
        &mut net_with_failing_links(rt.alloc(), fails),
        &portal(rt.alloc())?,
    );
    Ok(())
}

fn gives_back<N: Net>(rt: &impl Abort, net: &mut N, here: &PortalText) {
    listens(rt, net, here);
    let (near_read, mut near_write) = dials(rt, net, here);
    let (mut far_read, mut far_write) = accepts(rt, net, here);
    gives(rt, &mut near_write, b"abc");
    let name = LinkName {
        sid: 1,
        generation: 1,
    };
    net.give_back(name, near_read, near_write);
    gives(rt, &mut far_write, b"1");
    takes(rt, &mut far_read, b"abc");
    answers(rt, &mut far_read, ReadTurn::End);
    answers(rt, &mut far_read, ReadTurn::End);
}

#[test]
fn bytes_outlive_the_half_that_gave_them(rt: HostRuntime) -> Result<(), Fail> {
    gives_back(&rt, &mut net(rt.alloc()), &portal(rt.alloc())?);
    Ok(())
}

fn reads_all<R: LinkRead>(rt: &impl Abort, read: &mut R) {
    let mut buf = [0u8; 32];
    assert_eq!(rt; read.read(&mut buf), ReadTurn::Got(16));
    assert_eq!(rt; &buf[..16], b"0123456789abcdef".as_slice());
    assert_eq!(rt; read.read(&mut buf), ReadTurn::Got(3));
    assert_eq!(rt; &buf[..3], b"ghi".as_slice());
    assert_eq!(rt; read.read(&mut buf), ReadTurn::End);
    assert_eq!(rt; read.read(&mut buf), ReadTurn::End);
}

fn follows_scripts<N: Net>(rt: &impl Abort, net: &mut N, here: &PortalText) {
    let (mut read, mut write) = dials(rt, net, here);
    reads_all(rt, &mut read);
    gives(rt, &mut write, b"abc");
    let (mut read, write) = dials(rt, net, here);
    takes(rt, &mut read, b"12");
    answers(rt, &mut read, ReadTurn::End);
    let (mut last, _write) = dials(rt, net, here);
    answers(rt, &mut last, ReadTurn::End);
    listens(rt, net, here);
    nothing_waits(rt, net, here);
    let name = LinkName {
        sid: 1,
        generation: 2,
    };
    net.give_back(name, read, write);
}

#[test]
fn far_side_follows_scripts(rt: HostRuntime) -> Result<(), Fail> {
    let alloc = rt.alloc();
    let scripts = vec![in alloc;
        Blob::from_slice(alloc, b"0123456789abcdefghi")?,
        Blob::from_slice(alloc, b"12")?,
    ]?;
    let mut net = FarNet::new(alloc, Series::from_vec(scripts));
    follows_scripts(&rt, &mut net, &portal(alloc)?);
    Ok(())
}

#[test]
fn clock_counts_in_steps(rt: HostRuntime) {
    let mut clock = ListClock::new(5, 100);
    for reading in [5, 105, 205] {
        assert_eq!(rt; clock.now(), reading);
    }
    let mut clock = ListClock::new(u64::MAX - 1, 7);
    for _ in 0..3 {
        assert_eq!(rt; clock.now(), 9_007_199_254_740_991);
    }
}

fn passes<G: Gate>(gate: &G) {
    gate.pass(Place::ScriptLine);
}

#[test]
fn open_gate_holds_nobody(_rt: HostRuntime) {
    passes(&OpenGate);
}

#[test]
fn net_faults_are_told(rt: HostRuntime) -> Result<(), Fail> {
    assert_eq!(rt;
        format!(in rt.alloc(); "{}", NetError::Failed)?.as_str(),
        "the net failed"
    );
    assert_eq!(rt;
        format!(in rt.alloc(); "{}", NetError::Memory)?.as_str(),
        "out of memory"
    );
    Ok(())
}
