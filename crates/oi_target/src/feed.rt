ghost use Rattle.std.specs.Prelude.{◌≡◌, ◌++◌, [], IfNone, IfOk, OnErr, OnOk};
ghost use Rattle.std.specs.List.{prefix_len};
ghost use Rattle.oi_target.specs.Feeding.{Feeds, IsCutBy, cut_of, put_back, taken, taken_by, taken_ended, taken_open, wire};
ghost use Rattle.oi_target.specs.Steps.{faulted_fed, faulted_standing, step_of};
ghost use Rattle.oi_target.specs.Targets.{aside, is_other, link_of, placed, without};
ghost use Rattle.oi_target_login.specs.Grown.{IsGrown};
ghost use Rattle.oi_target_session.specs.declared.fed.Fed.TheVariants as feds;

use crate::link::{Link, Standing};
use crate::steps::Outcome;
use crate::target::{SEGMENT, Target};
use oi_base::NoMemory;
use oi_pdu::Pdu;
use oi_stream::{Splitter, StreamFault};
use oi_target_session::Fed;
use std::alloc::Global;
use std::mem;

// The place of a connection among all; their count where there is none of this number.
fn place_of(links: &[Link], connection: u32) -> usize
    ensures { result ≡ prefix_len (is_other connection) links.now }
{
    links
        .iter()
        .take_while(|link| link.number != connection)
        .count()
}

/// Drops a connection, where there is one of this number.
pub fn remove_link(links: &mut Vec<Link>, connection: u32)
    ensures { links.new.items ≡ without connection links.old.items }
{
    let at = place_of(links.as_slice(), connection);
    if at < links.len() {
        let _link = links.remove(at);
    }
}

// Puts a connection in the place of the one with its number, which it gives back; None where there is none.
fn replace(links: &mut Vec<Link>, link: Link) -> Option<Link>
    ensures link { result ≡ link_of link.number links.old.items }
    ensures links { links.new.items ≡ placed link links.old.items }
    ensures none { IfNone result (links.new.items ≡ links.old.items) }
{
    let at = place_of(links.as_slice(), link.number);
    if at < links.len() {
        Some(mem::replace(&mut links[at], link))
    } else {
        None
    }
}

// Whether a malformed PDU follows those that the splitter handed out.
fn is_fault(answer: Result<(), StreamFault>) -> Result<bool, NoMemory>
    ensures { IfOk result (λ fault. IsCutBy answer fault) }
{
    match answer {
        Ok(()) => Ok(false),
        Err(StreamFault::Memory) => Err(NoMemory),
        Err(StreamFault::BadHeader { .. }) => Ok(true),
        Err(StreamFault::TooLong { .. }) => Ok(true),
        Err(StreamFault::Ended { .. }) => Ok(true),
    }
}

// Cuts a piece into PDUs, and tells whether a malformed one follows them, behind which no bytes are kept.
fn cut(
    alloc: Global,
    splitter: &mut Splitter,
    piece: &[u8],
    pdus: &mut Vec<Pdu>,
) -> Result<bool, NoMemory>
    requires { pdus.old.items ≡ [] }
    ensures splitter { OnOk result (splitter.new ≡ (cut_of splitter.old piece.now).state) }
    ensures pdus { OnOk result (pdus.new.items ≡ (cut_of splitter.old piece.now).pdus) }
    ensures fault { IfOk result (λ fault. fault ≡ (cut_of splitter.old piece.now).fault) }
{
    let answer = splitter.feed(piece, pdus);
    let fault = is_fault(answer)?;
    if fault {
        *splitter = Splitter::new(alloc, SEGMENT);
    }
    Ok(fault)
}

// A malformed PDU closes the connection behind those before it.
fn faulted(outcome: Outcome, fault: bool) -> Outcome
    ensures standing { result.standing ≡ faulted_standing fault outcome.standing }
    ensures fed { result.fed ≡ faulted_fed fault outcome.fed }
{
    if fault {
        Outcome {
            standing: Standing::Closed,
            fed: Fed::Closed,
        }
    } else {
        outcome
    }
}

impl Target {
    // A connection, in whose place a closed one stands from now on; None where there is none of this number.
    fn set_aside(&mut self, connection: u32) -> Option<Link>
        ensures link { result ≡ link_of connection self.old.links }
        ensures target { self.new ≡ aside connection self.old }
        ensures none { IfNone result (self.new ≡ self.old) }
    {
        let closed = Link {
            number: connection,
            splitter: Splitter::new(self.alloc, SEGMENT),
            standing: Standing::Closed,
        };
        replace(&mut self.links, closed)
    }

    fn put_back(&mut self, number: u32, splitter: Splitter, standing: Standing)
        ensures { self.new ≡ put_back number splitter (step_of self.old standing [] feds.Going) }
    {
        let link = Link {
            number,
            splitter,
            standing,
        };
        replace(&mut self.links, link);
    }

    // The bytes of a connection that is open, and aside.
    fn take_open(
        &mut self,
        number: u32,
        link: Link,
        piece: &[u8],
        out: &mut Vec<u8>,
    ) -> Result<Fed, NoMemory>
        ensures target { OnOk result (self.new ≡ (taken_open self.old number link.standing (cut_of link.splitter piece.now)).target) }
        ensures out { OnOk result (out.new.items ≡ out.old.items ++ wire (taken_open self.old number link.standing (cut_of link.splitter piece.now)).sent) }
        ensures fed { IfOk result (λ fed. fed ≡ (taken_open self.old number link.standing (cut_of link.splitter piece.now)).fed) }
        ensures kept { OnErr result (IsGrown out.old.items out.new.items) }
    {
        let Link {
            number: _,
            splitter,
            standing,
        } = link;
        let mut splitter = splitter;
        let mut pdus = Vec::new(self.alloc);
        let fault = cut(self.alloc, &mut splitter, piece, &mut pdus)?;
        let outcome = self.steps(standing, pdus, out)?;
        let outcome = faulted(outcome, fault);
        self.put_back(number, splitter, outcome.standing);
        Ok(outcome.fed)
    }

    // The bytes of a connection of which the session was ended.
    fn take_ended(&mut self, number: u32, link: Link, piece: &[u8]) -> Fed
        ensures target { self.new ≡ (taken_ended self.old number link.splitter piece.now).target }
        ensures fed { result ≡ (taken_ended self.old number link.splitter piece.now).fed }
        ensures sent { (taken_ended self.old number link.splitter piece.now).sent ≡ [] }
    {
        let Link {
            number: _,
            splitter,
            standing: _,
        } = link;
        if piece.is_empty() {
            self.put_back(number, splitter, Standing::Ended);
            Fed::Going
        } else {
            Fed::Closed
        }
    }

    // The bytes of a connection that is aside.
    fn take_in(
        &mut self,
        number: u32,
        link: Link,
        piece: &[u8],
        out: &mut Vec<u8>,
    ) -> Result<Fed, NoMemory>
        ensures target { OnOk result (self.new ≡ (taken_by self.old number link.splitter link.standing piece.now).target) }
        ensures out { OnOk result (out.new.items ≡ out.old.items ++ wire (taken_by self.old number link.splitter link.standing piece.now).sent) }
        ensures fed { IfOk result (λ fed. fed ≡ (taken_by self.old number link.splitter link.standing piece.now).fed) }
        ensures kept { OnErr result (IsGrown out.old.items out.new.items) }
    {
        match link.standing {
            Standing::Ended => Ok(self.take_ended(number, link, piece)),
            Standing::Closed => Ok(Fed::Closed),
            Standing::LoggingIn(_) | Standing::Serving(_) => self.take_open(
                number, link, piece, out,
            ),
        }
    }

    fn feed_into(
        &mut self,
        connection: u32,
        piece: &[u8],
        out: &mut Vec<u8>,
    ) -> Result<Fed, NoMemory>
        ensures target { OnOk result (self.new ≡ (taken self.old connection piece.now).target) }
        ensures out { OnOk result (out.new.items ≡ out.old.items ++ wire (taken self.old connection piece.now).sent) }
        ensures fed { IfOk result (λ fed. fed ≡ (taken self.old connection piece.now).fed) }
        ensures kept { OnErr result (IsGrown out.old.items out.new.items) }
    {
        let Some(link) = self.set_aside(connection) else {
            return Ok(Fed::Closed);
        };
        self.take_in(connection, link, piece, out)
    }

    /// Takes the bytes that came on a connection, and appends what is to be written on it. `Closed` says that it is to be closed
    /// then; a number of no connection is answered so too.
    ///
    /// # Errors
    ///
    /// Want of memory, after which every further call of this and of `connected` answers it.
    pub fn feed(
        &mut self,
        connection: u32,
        piece: &[u8],
        out: &mut Vec<u8>,
    ) -> Result<Fed, NoMemory>
        ensures { Feeds self.old connection piece.now out.old.items out.new.items result self.new }
    {
        if self.broken {
            return Err(NoMemory);
        }
        let before = out.len();
        let Ok(fed) = self.feed_into(connection, piece, out) else {
            out.truncate(before);
            self.broken = true;
            return Err(NoMemory);
        };
        Ok(fed)
    }
}
