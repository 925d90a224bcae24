use oi_base::{Label, NoMemory};
use oi_net::*;
use oi_outside::{
    Clock, LinkName, LinkRead, LinkWrite, Net, NetError, PortalText, ReadTurn, WriteTurn,
};
use std::alloc::Global;
use std::process::Abort;
use std::rt::Clock as RuntimeClock;
use std::test::Fail;
use std::thread;
use std::time::Duration;

/// How often a test looks for what it waits for.
const LOOKS: u32 = 10_000_000;

/// How many bytes go each way.
const SIZE: u32 = 1_048_576;

fn cannot_dial<N: Net>(rt: &impl Abort, net: &mut N, at: &PortalText) {
    match net.dial(at) {
        Err(NetError::Failed) => {}
        _ => panic!(rt; "no fault"),
    }
}

fn nothing_waits<N: Net>(rt: &impl Abort, net: &mut N, at: &PortalText) {
    match net.accept(at) {
        Ok(None) => {}
        _ => panic!(rt; "something waits"),
    }
}

fn dials<N: Net>(rt: &impl Abort, net: &mut N, at: &PortalText) -> (N::Read, N::Write) {
    match net.dial(at) {
        Ok(link) => link,
        Err(_) => panic!(rt; "no link"),
    }
}

fn accepts<N: Net>(rt: &impl Abort, net: &mut N, at: &PortalText) -> (N::Read, N::Write) {
    for _ in 0..LOOKS {
        if let Ok(Some(link)) = net.accept(at) {
            return link;
        }
    }
    panic!(rt; "nothing waits")
}

fn writes<W: LinkWrite>(rt: &impl Abort, write: &mut W, piece: &[u8]) -> usize {
    if piece.is_empty() {
        return 0;
    }
    match write.write(piece) {
        WriteTurn::Took(count) => count,
        WriteTurn::NotYet => 0,
        WriteTurn::Failed => panic!(rt; "the write failed"),
    }
}

fn reads<R: LinkRead>(rt: &impl Abort, read: &mut R, taken: &mut Vec<u8>) -> Result<(), NoMemory> {
    let mut buf = [0u8; 16_384];
    match read.read(&mut buf) {
        ReadTurn::Got(count) => taken.extend_from_slice(&buf[..count])?,
        ReadTurn::NotYet => {}
        ReadTurn::End | ReadTurn::Failed => panic!(rt; "the read failed"),
    }
    Ok(())
}

// All bytes go through, in order.
fn carries<W: LinkWrite, R: LinkRead>(
    rt: &impl Abort,
    alloc: Global,
    write: &mut W,
    read: &mut R,
    bytes: &[u8],
) -> Result<(), NoMemory> {
    let mut given = 0usize;
    let mut taken = Vec::new(alloc);
    for _ in 0..LOOKS {
        let rest = bytes.get(given..).unwrap_or(&[]);
        given = given.saturating_add(writes(rt, write, rest));
        reads(rt, read, &mut taken)?;
        if taken.len() >= bytes.len() {
            break;
        }
    }
    assert!(rt; taken.as_slice() == bytes);
    Ok(())
}

fn comes_to_its_end<R: LinkRead>(rt: &impl Abort, read: &mut R) {
    let mut buf = [0u8; 8];
    for _ in 0..LOOKS {
        if read.read(&mut buf) == ReadTurn::End {
            return;
        }
    }
    panic!(rt; "no end");
}

fn links<N: Net>(
    rt: &impl Abort,
    alloc: Global,
    net: &mut N,
    here: &PortalText,
    bytes: &[u8],
) -> Result<(), NoMemory> {
    cannot_dial(rt, net, here);
    nothing_waits(rt, net, here);
    assert_eq!(rt; net.listen(here), Ok(()));
    assert_eq!(rt; net.listen(here), Ok(()));
    nothing_waits(rt, net, here);
    let (mut near_read, mut near_write) = dials(rt, net, here);
    let (mut far_read, mut far_write) = accepts(rt, net, here);
    carries(rt, alloc, &mut near_write, &mut far_read, bytes)?;
    carries(rt, alloc, &mut far_write, &mut near_read, bytes)?;
    let name = LinkName {
        sid: 1,
        generation: 1,
    };
    net.give_back(name, near_read, near_write);
    comes_to_its_end(rt, &mut far_read);
    Ok(())
}

fn some_bytes(alloc: Global) -> Result<Vec<u8>, NoMemory> {
    let mut bytes = Vec::new(alloc);
    for i in 0..SIZE {
        bytes.push((i % 251) as u8)?;
    }
    Ok(bytes)
}

#[test]
fn loopback_carries_bytes_both_ways(rt: HostRuntime) -> Result<(), Fail> {
    let here = Label::from_slice(rt.alloc(), b"10.0.0.1:3260")?;
    let bytes = some_bytes(rt.alloc())?;
    let mut net = LoopNet::new(rt);
    links(&rt, rt.alloc(), &mut net, &here, bytes.as_slice())?;
    Ok(())
}

fn goes_on<C: Clock, R: Abort + RuntimeClock>(rt: &R, clock: &mut C) {
    let first = clock.now();
    let second = clock.now();
    assert!(rt; first <= second);
    thread::sleep(rt, Duration::from_millis(5));
    assert!(rt; second.saturating_add(5) <= clock.now());
}

#[test]
fn system_clock_goes_on(rt: HostRuntime) {
    goes_on(&rt, &mut SystemClock::new(rt));
}
