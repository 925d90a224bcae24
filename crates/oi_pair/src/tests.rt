ghost use Rattle.std.specs.Prelude.{◌≡◌, ℕ, List, IfOk, IfSome};
ghost use Rattle.oi_pair.specs.Views.{opened, HoldsNone, IsWhole};
ghost use Rattle.oi_pair.specs.Seats.{seated};
ghost use Rattle.oi_pair.specs.Ledgers.{IsSameSeat};

use crate::ledger::{Ledger, enter_back, enter_both, enter_forward};
use crate::{Pair, PairSeat};
use oi_base::NoMemory;
use std::alloc::Global;
use std::process::Abort;
use std::sync::Wait;
use std::test::Fail;
use std::thread::{Threads, join};

type Ledgers = Pair<Ledger, Ledger>;

type Clerk = PairSeat<Ledger, Ledger>;

fn new_ledgers(alloc: Global) -> Result<(Ledgers, Clerk), NoMemory>
    ensures { IfOk result (λ made. made.1 ≡ seated made.0 opened) }
{
    let forward = Ledger {
        entries: Vec::new(alloc),
    };
    let back = Ledger {
        entries: Vec::new(alloc),
    };
    match Pair::new(alloc, forward, back) {
        Ok(made) => Ok(made),
        Err((wanting, _, _)) => Err(wanting),
    }
}

// Makes 500 joint entries and 500 of one half, and says whether there was room for all.
fn enter_all<R: Wait>(rt: &R, pair: &Ledgers, mut seat: Clerk, ahead: bool) -> (Clerk, bool)
    requires { (seat.pair ≡ pair.now) × HoldsNone seat.knows }
    ensures { IsSameSeat seat result.0 }
{
    let mut all = true;
    for value in 0..500 {
        let joint = enter_both(rt, pair, &mut seat, value);
        let own = if ahead {
            enter_forward(rt, pair, &mut seat, value)
        } else {
            enter_back(rt, pair, &mut seat, value)
        };
        all = all && joint.is_some() && own.is_some();
    }
    (seat, all)
}

// What two threads enter, or None where there was no room.
fn entered_by_two<R: Threads + Wait + Sync>(
    rt: &R,
    alloc: Global,
) -> Result<Option<(Ledger, Ledger)>, NoMemory>
    ensures { IfOk result (λ halves. IfSome halves (λ h. (numbers : List ℕ) × IsWhole numbers h.0.entries.items h.1.entries.items)) }
{
    let (pair, mut first) = new_ledgers(alloc)?;
    let second = pair.split(&mut first);
    let ((mut first, one), (second, two)) = join(
        rt,
        || -> (Clerk, bool)
            requires { (first.pair ≡ pair) × HoldsNone first.knows }
            ensures { IsSameSeat first result.0 }
        { enter_all(rt, &pair, first, true) },
        || -> (Clerk, bool)
            requires { (second.pair ≡ pair) × HoldsNone second.knows }
            ensures { IsSameSeat second result.0 }
        { enter_all(rt, &pair, second, false) },
    );
    pair.join(&mut first, second);
    let halves = pair.close(first);
    if one && two {
        Ok(Some(halves))
    } else {
        Ok(None)
    }
}

// The numbers of both halves in order, those of joint entries once.
fn numbers_of_both(alloc: Global, forward: &Ledger, back: &Ledger) -> Result<Vec<u64>, NoMemory> {
    let mut numbers = Vec::new(alloc);
    for entry in &forward.entries {
        numbers.push(entry.0)?;
    }
    for entry in &back.entries {
        if !entry.1.joint {
            numbers.push(entry.0)?;
        }
    }
    numbers.sort()?;
    Ok(numbers)
}

#[test]
fn joint_entries_of_two_threads(rt: HostRuntime) -> Result<(), Fail> {
    let Some((forward, back)) = entered_by_two(&rt, rt.alloc())? else {
        panic!(rt; "there was no room")
    };
    assert_eq!(rt; forward.entries.len(), 1500);
    assert_eq!(rt; back.entries.len(), 1500);
    let numbers = numbers_of_both(rt.alloc(), &forward, &back)?;
    assert!(rt; numbers.into_iter().eq(0..2000));
    let joint = back.entries.iter().filter(|entry| entry.1.joint);
    assert!(rt; joint.eq(forward.entries.iter().filter(|entry| entry.1.joint)));
    Ok(())
}

#[test]
fn none_while_another_seat_holds_the_back_half(rt: HostRuntime) -> Result<(), Fail> {
    let (pair, mut first) = new_ledgers(rt.alloc())?;
    let mut second = pair.split(&mut first);
    assert_eq!(rt; first.parts(), 65_535);
    assert_eq!(rt; second.parts(), 1);
    let forward = pair.take_forward(&rt, &mut first);
    let back = pair.take_back(&rt, &mut second);
    assert!(rt; pair.try_take_back(&mut first).is_none());
    pair.leave_back(&mut second, back);
    let Some(back) = pair.try_take_back(&mut first) else {
        panic!(rt; "no seat holds the back half")
    };
    pair.leave_back(&mut first, back);
    pair.leave_forward(&mut first, forward);
    pair.join(&mut first, second);
    assert_eq!(rt; first.parts(), 65_536);
    let (forward, back) = pair.close(first);
    assert!(rt; forward.entries.is_empty() && back.entries.is_empty());
    Ok(())
}
