ghost use Rattle.std.specs.Prelude.{◌≡◌, ◌<◌, length, position, remove, slice_get, IfOk, Some};
ghost use Rattle.oi_outside.specs.MemNets.{FarEnd, IsFresh, IsPlaceAt, is_at, is_listened};

use crate::calls::is_to_fail;
use crate::given_back::GivenBack;
use crate::history::History;
use crate::link_name::LinkName;
use crate::mem_read::MemRead;
use crate::mem_write::{ClosedWrite, MemWrite};
use crate::net::{Net, PortalText};
use crate::net_error::NetError;
use crate::schedule::{LinkFail, Schedule, calls_that_fail};
use crate::waiting_end::WaitingEnd;
use oi_base::{NoMemory, Series};
use oi_pipe::{PipeReader, PipeWriter, new_pipe};
use std::alloc::Global;
use std::marker::Model;

/// The room of each of the two pipes of a link, in bytes.
const LINK_ROOM: u32 = 65_536;

/// A network in memory. Its calls of `listen`, `dial` and `accept` are numbered together from 0, and those whose number
/// is listed fail; so does a dial to a portal that nobody listens to.
#[derive(Drop)]
pub struct MemNet {
    alloc: Global,
    schedule: Schedule,
    fails: Series<u64>,
    link_fails: Series<LinkFail>,
    calls: u64,
    faults: u64,
    accept_faults: u64,
    listens: Vec<PortalText>,
    dials: u64,
    dialled: History<PortalText>,
    accepted: History<u64>,
    waiting: Vec<WaitingEnd>,
    returned: History<GivenBack<MemRead, ClosedWrite>>,
}

impl Model for MemNet {
    ghost use Rattle.std.specs.Prelude.{◌≡◌, ◌<◌, ◌≤◌, length, All};
    ghost use Rattle.oi_outside.specs.MemNets.{MemNetwork};

    ghost Value = { MemNetwork };

    ghost view = { λ n. record {
      schedule = n.schedule;
      fails = n.fails;
      link_fails = n.link_fails;
      calls = n.calls;
      faults = n.faults;
      accept_faults = n.accept_faults;
      listens = n.listens.items;
      dialled = n.dialled;
      accepted = n.accepted;
      ends = n.waiting.items;
      returned = n.returned;
    } };

    ghost invariant = { λ n. (n.dials ≡ length n.dialled) × (1 ≤ n.schedule.piece) × All (λ e. e.dial < length n.dialled) n.waiting.items };
}

impl MemNet {
    ghost use Rattle.std.specs.Prelude.{◌≡◌, ◌≤◌, [], IfOk, OnErr, OnOk, MatchOption, Some};
    ghost use Rattle.oi_outside.specs.declared.net_error.NetError.TheVariants.{Failed};
    ghost use Rattle.oi_outside.specs.Calls.{one_more};
    ghost use Rattle.oi_outside.specs.Nets.{AreDialled};
    ghost use Rattle.oi_outside.specs.MemNets.{MemNetwork, Connects, TakesEnd, FindsNone, called, is_failing, mem_state, with_portal};

    /// A network without links, which holds each link up by the schedule; takes no memory.
    pub fn new(
        alloc: Global,
        schedule: Schedule,
        fails: Series<u64>,
        link_fails: Series<LinkFail>,
    ) -> MemNet
        requires { 1 ≤ schedule.piece }
        ensures { result ≡ record {
          schedule = schedule;
          fails = fails;
          link_fails = link_fails;
          calls = 0;
          faults = 0;
          accept_faults = 0;
          listens = [];
          dialled = [];
          accepted = [];
          ends = [];
          returned = [];
        } }
    {
        MemNet {
            alloc,
            schedule,
            fails,
            link_fails,
            calls: 0,
            faults: 0,
            accept_faults: 0,
            listens: Vec::new(alloc),
            dials: 0,
            dialled: History::new(),
            accepted: History::new(),
            waiting: Vec::new(alloc),
            returned: History::new(),
        }
    }

    // Numbers a call, and answers whether it is one that fails.
    fn takes_failing_number(&mut self) -> bool
        ensures fails { result ≡ is_failing self.old }
        ensures known { AreDialled (Some (mem_state self.old)) }
        ensures after { self.new ≡ called self.old }
    {
        let call = self.calls;
        self.calls = call.saturating_add(1);
        is_to_fail(self.fails.as_slice(), call)
    }

    // Counts that a listen or a dial failed.
    fn fail(&mut self) -> NetError
        ensures error { result ≡ Failed }
        ensures after { self.new ≡ record self.old { faults = one_more self.old.faults } }
    {
        self.faults = self.faults.saturating_add(1);
        NetError::Failed
    }

    // Counts that an accept failed.
    fn fail_accept(&mut self) -> NetError
        ensures error { result ≡ Failed }
        ensures after { self.new ≡ record self.old { accept_faults = one_more self.old.accept_faults } }
    {
        self.accept_faults = self.accept_faults.saturating_add(1);
        NetError::Failed
    }

    fn add_portal(&mut self, portal: &PortalText) -> Result<(), NoMemory>
        ensures ok { OnOk result (self.new ≡ record self.old { listens = with_portal self.old.listens portal.now }) }
        ensures err { OnErr result (self.new ≡ self.old) }
    {
        if is_listened(self.listens.as_slice(), portal) {
            return Ok(());
        }
        self.listens.push(portal.copy(self.alloc)?)?;
        Ok(())
    }

    // Makes a link, whose other end waits at the portal.
    fn connect(&mut self, portal: &PortalText) -> Result<(MemRead, MemWrite), NoMemory>
        ensures link { IfOk result (λ link. Connects portal.now self.old self.new link.0 link.1) }
        ensures err { OnErr result (self.new ≡ self.old) }
    {
        let dial = self.dials;
        let dials = dial.checked_add(1).ok_or(NoMemory)?;
        let (read, far_write) = new_pipe(self.alloc, LINK_ROOM)?;
        let (far_read, write) = new_pipe(self.alloc, LINK_ROOM)?;
        let link_fails = self.link_fails.as_slice();
        let read = MemRead::new(
            dial,
            false,
            read,
            self.schedule,
            calls_that_fail(self.alloc, link_fails, dial, 0)?,
        );
        let write = MemWrite::new(
            dial,
            false,
            write,
            self.schedule,
            calls_that_fail(self.alloc, link_fails, dial, 1)?,
        );
        self.waiting.push(WaitingEnd {
            portal: portal.copy(self.alloc)?,
            dial,
            read: far_read,
            write: far_write,
        })?;
        self.dials = dials;
        self.dialled.record(portal);
        Ok((read, write))
    }

    // Takes the first end that waits at the portal.
    fn take_end(&mut self, portal: &PortalText) -> Result<Option<(MemRead, MemWrite)>, NoMemory>
        ensures link { IfOk result (λ o. MatchOption o
            (FindsNone portal.now self.old self.new)
            (λ link. TakesEnd portal.now self.old self.new link.0 link.1)) }
        ensures err { OnErr result (self.new ≡ self.old) }
    {
        let Some(at) = place_of(self.waiting.as_slice(), portal) else {
            return Ok(None);
        };
        let dial = dial_at(self.waiting.as_slice(), at);
        let link_fails = self.link_fails.as_slice();
        let read_fails = calls_that_fail(self.alloc, link_fails, dial, 2)?;
        let write_fails = calls_that_fail(self.alloc, link_fails, dial, 3)?;
        let (read, write) = take_at(&mut self.waiting, at);
        self.accepted.record(&dial);
        Ok(Some((
            MemRead::new(dial, true, read, self.schedule, read_fails),
            MemWrite::new(dial, true, write, self.schedule, write_fails),
        )))
    }
}

impl Net for MemNet {
    ghost use Rattle.std.specs.Prelude.{◌≡◌, ◌||◌, not, Some, IfOk, OnErr, MatchOption};
    ghost use Rattle.std.specs.Option.{option_map};
    ghost use Rattle.oi_outside.specs.Nets.{after_return, net_failed, Dials, Accepts, NoneWaits, AreDialled, IsNetCounted};
    ghost use Rattle.oi_outside.specs.MemLinks.{read_half};
    ghost use Rattle.oi_outside.specs.MemWrites.{write_half};
    ghost use Rattle.oi_outside.specs.MemNets.{mem_state, after_listen, after_give_back, is_failing, is_listened, IsDialled, IsAccepted};

    type Read = MemRead;

    type Write = MemWrite;

    ghost state = { λ n. Some (mem_state n) };

    ghost faults = { λ n. n.faults };

    ghost accept_faults = { λ n. n.accept_faults };

    fn listen(&mut self, portal: &PortalText) -> Result<(), NetError>
        ensures state { Some (mem_state self.new) ≡ Some (mem_state self.old) }
        ensures count { IsNetCounted result self.old.faults self.new.faults }
        ensures accepts_count { self.new.accept_faults ≡ self.old.accept_faults }
        ensures fails { net_failed result ≡ is_failing self.old }
        ensures after { self.new ≡ after_listen result portal.now self.old }
    {
        if self.takes_failing_number() {
            return Err(self.fail());
        }
        Ok(self.add_portal(portal)?)
    }

    fn dial(&mut self, portal: &PortalText) -> Result<(MemRead, MemWrite), NetError>
        ensures known { AreDialled (Some (mem_state self.old)) }
        ensures link { IfOk result (λ link. Dials (Some (read_half link.0)) (Some (write_half link.1)) portal.now (Some (mem_state self.old)) (Some (mem_state self.new))) }
        ensures fresh { IfOk result (λ link. (link.0.faults ≡ 0) × (link.1.faults ≡ 0)) }
        ensures err { OnErr result (Some (mem_state self.new) ≡ Some (mem_state self.old)) }
        ensures count { IsNetCounted result self.old.faults self.new.faults }
        ensures accepts_count { self.new.accept_faults ≡ self.old.accept_faults }
        ensures fails { net_failed result ≡ (is_failing self.old || not (is_listened self.old.listens portal.now)) }
        ensures after { IsDialled result portal.now self.old self.new }
    {
        if self.takes_failing_number() {
            return Err(self.fail());
        }
        if !is_listened(self.listens.as_slice(), portal) {
            return Err(self.fail());
        }
        Ok(self.connect(portal)?)
    }

    fn accept(&mut self, portal: &PortalText) -> Result<Option<(MemRead, MemWrite)>, NetError>
        ensures known { AreDialled (Some (mem_state self.old)) }
        ensures link { IfOk result (λ o. MatchOption o
            (NoneWaits portal.now (Some (mem_state self.old)) × (Some (mem_state self.new) ≡ Some (mem_state self.old)))
            (λ link. Accepts (Some (read_half link.0)) (Some (write_half link.1)) portal.now (Some (mem_state self.old)) (Some (mem_state self.new)))) }
        ensures fresh { IfOk result (λ o. MatchOption o (Unit {0}) (λ link. (link.0.faults ≡ 0) × (link.1.faults ≡ 0))) }
        ensures err { OnErr result (Some (mem_state self.new) ≡ Some (mem_state self.old)) }
        ensures count { IsNetCounted result self.old.accept_faults self.new.accept_faults }
        ensures calls_count { self.new.faults ≡ self.old.faults }
        ensures fails { net_failed result ≡ is_failing self.old }
        ensures after { IsAccepted result portal.now self.old self.new }
    {
        if self.takes_failing_number() {
            return Err(self.fail_accept());
        }
        Ok(self.take_end(portal)?)
    }

    fn give_back(&mut self, link: LinkName, read: MemRead, write: MemWrite)
        ensures returned { Some (mem_state self.new) ≡ option_map (after_return link (Some (read_half read)) (Some (write_half write))) (Some (mem_state self.old)) }
        ensures count { self.new.faults ≡ self.old.faults }
        ensures accepts_count { self.new.accept_faults ≡ self.old.accept_faults }
        ensures after { self.new ≡ after_give_back link read write self.old }
    {
        let write = write.close();
        self.returned.record(&GivenBack { link, read, write });
    }
}

fn is_listened(listens: &[PortalText], portal: &PortalText) -> bool
    ensures { result ≡ is_listened listens.now portal.now }
{
    listens.contains(portal)
}

// The place of the first end that waits at the portal.
fn place_of(ends: &[WaitingEnd], portal: &PortalText) -> Option<usize>
    ensures { IsPlaceAt portal.now ends.now result }
{
    first_place(ends, portal)
}

fn first_place(ends: &[WaitingEnd], portal: &PortalText) -> Option<usize>
    ensures { result ≡ position (is_at portal.now) ends.now }
{
    ends.iter().position(|end| end.portal == *portal)
}

// The number of the dial whose other end stands there.
fn dial_at(ends: &[WaitingEnd], at: usize) -> u64
    requires { at < length ends.now }
    ensures { (end : FarEnd) → slice_get ends.now at ≡ Some end → result ≡ end.dial }
{
    let end = &ends[at];
    end.dial
}

// Takes the end out that stands there.
fn take_at(ends: &mut Vec<WaitingEnd>, at: usize) -> (PipeReader, PipeWriter)
    requires { at < length ends.old.items }
    ensures halves { (end : FarEnd) → slice_get ends.old.items at ≡ Some end → (result.0 ≡ end.read) × (result.1 ≡ end.write) × IsFresh end }
    ensures rest { ends.new.items ≡ remove ends.old.items at }
{
    let WaitingEnd {
        portal: _,
        dial: _,
        read,
        write,
    } = ends.remove(at);
    (read, write)
}
