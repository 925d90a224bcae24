ghost use Rattle.std.specs.Prelude.{◌≡◌, ◌++◌, [], bytes_eq, map, IfOk, OnErr, OnOk};
ghost use Rattle.oi_target.specs.Feeding.{wire};
ghost use Rattle.oi_target.specs.Steps.{Step, logged_in, logged_in_by, opening, served_as, stepped, steps, with_words};
ghost use Rattle.oi_target.specs.Targets.{ended_by, ended_standing, learned, limits_of, link_at, next_handle, nexus_of, reset_each, reset_links, session_of, with_links};
ghost use Rattle.oi_target.specs.Turns.{in_turn, received, told, turn_of};
ghost use Rattle.oi_target_login.specs.Grown.{IsGrown};
ghost use Rattle.oi_target_session.specs.Arrivals.{advanced};
ghost use Rattle.oi_target_session.specs.Sessions.{without_resets};

use crate::link::{Debts, Held, Link, Serving, Standing};
use crate::target::Target;
use oi_base::{Blob, NoMemory, Params};
use oi_pdu::Pdu;
use oi_reserve::Nexus;
use oi_target_login::{NewSession, TargetLogin, Verdict, Who};
use oi_target_session::{Fed, Limits, Numbers, Place, Reset, Session, hold, place_of};
use oi_units::Units;
use std::alloc::Global;
use std::collections::VecDeque;

/// Where a connection stands after PDUs, and whether it stays.
#[derive(Debug, Drop)]
pub struct Outcome {
    pub standing: Standing,
    pub fed: Fed,
}

fn next_handle(handle: u16) -> u16
    ensures { result ≡ next_handle handle }
{
    if handle == 65_535 { 1 } else { handle + 1 }
}

fn nexus_of(alloc: Global, who: &Who) -> Result<Nexus, NoMemory>
    ensures { IfOk result (λ n. n.bytes ≡ nexus_of who.now) }
{
    let mut bytes = Vec::from_slice(alloc, who.initiator.as_slice())?;
    bytes.extend_from_slice(&who.isid)?;
    Ok(Nexus {
        bytes: Blob::from_vec(bytes),
    })
}

fn limits_of(params: Params) -> Limits
    ensures { result ≡ limits_of params }
{
    Limits {
        max_send: params.max_send,
        max_burst: params.max_burst,
        first_burst: params.first_burst,
    }
}

fn is_of(session: &Session, nexus: &[u8]) -> bool
    ensures { result ≡ bytes_eq session.now.nexus nexus.now }
{
    session.nexus().bytes.as_slice() == nexus
}

fn end_link(link: &mut Link, nexus: &[u8])
    ensures { link.new ≡ ended_by nexus.now link.old }
{
    if let Standing::Serving(serving) = &link.standing {
        if is_of(&serving.session, nexus) {
            link.standing = Standing::Ended;
        }
    }
}

// Ends the session of this initiator port.
fn end_links(links: &mut Vec<Link>, nexus: &[u8])
    ensures { links.new.items ≡ map (ended_by nexus.now) links.old.items }
{
    for link in links.iter_mut() {
        end_link(link, nexus);
    }
}

// Ends the tasks that a reset ends, and executes the commands behind them.
fn reset_link(link: &mut Link, units: &mut Units, reset: Reset) -> Result<(), NoMemory>
    ensures units { OnOk result (units.new ≡ (learned reset units.old link.old.standing).units) }
    ensures link { OnOk result (link.new ≡ link_at link.old.number link.old.splitter (learned reset units.old link.old.standing).standing) }
{
    if let Standing::Serving(serving) = &mut link.standing {
        serving.session.reset_by(reset);
        serving
            .session
            .execute_ready(units, &mut serving.owed.replies)?;
    }
    Ok(())
}

fn reset_each(links: &mut Vec<Link>, units: &mut Units, reset: Reset) -> Result<(), NoMemory>
    ensures units { OnOk result (units.new ≡ (reset_each reset units.old links.old.items).units) }
    ensures links { OnOk result (links.new.items ≡ (reset_each reset units.old links.old.items).links) }
{
    for link in links.iter_mut() {
        reset_link(link, units, reset)?;
    }
    Ok(())
}

// Tells the other sessions of resets, in order.
fn reset_links(links: &mut Vec<Link>, units: &mut Units, resets: &[Reset]) -> Result<(), NoMemory>
    ensures units { OnOk result (units.new ≡ (reset_links resets.now units.old links.old.items).units) }
    ensures links { OnOk result (links.new.items ≡ (reset_links resets.now units.old links.old.items).links) }
{
    for reset in resets {
        reset_each(links, units, *reset)?;
    }
    Ok(())
}

impl Target {
    // The session that a login opened.
    fn open(&mut self, session: NewSession) -> Result<Serving, NoMemory>
        ensures target { OnOk result (self.new ≡ opening self.old session) }
        ensures session { IfOk result (λ v. v.session ≡ session_of session) }
        ensures held { IfOk result (λ v. v.held ≡ []) }
        ensures owed { IfOk result (λ v. v.owed ≡ []) }
    {
        let nexus = nexus_of(self.alloc, &session.who)?;
        end_links(&mut self.links, nexus.bytes.as_slice());
        self.handle = next_handle(self.handle);
        let numbers = Numbers {
            exp: session.exp,
            stat: session.stat,
        };
        let limits = limits_of(session.params);
        Ok(Serving {
            session: Session::new(self.alloc, nexus, session.who.discovers, limits, numbers),
            held: Held {
                pdus: VecDeque::new(self.alloc),
            },
            owed: Debts {
                replies: Vec::new(self.alloc),
            },
        })
    }

    // A PDU of a login.
    fn log_in(
        &mut self,
        login: TargetLogin,
        pdu: &Pdu,
        out: &mut Vec<u8>,
    ) -> Result<Outcome, NoMemory>
        ensures target { OnOk result (self.new ≡ (stepped self.old (Standing.LoggingIn login) pdu.now).target) }
        ensures standing { IfOk result (λ o. o.standing ≡ (stepped self.old (Standing.LoggingIn login) pdu.now).standing) }
        ensures fed { IfOk result (λ o. o.fed ≡ (stepped self.old (Standing.LoggingIn login) pdu.now).fed) }
        ensures out { OnOk result (out.new.items ≡ out.old.items ++ wire (stepped self.old (Standing.LoggingIn login) pdu.now).sent) }
        ensures kept { OnErr result (IsGrown out.old.items out.new.items) }
    {
        let mut login = login;
        match login.serve(&self.rules, self.handle, &mut self.words, pdu, out)? {
            Verdict::Going => Ok(Outcome {
                standing: Standing::LoggingIn(login),
                fed: Fed::Going,
            }),
            Verdict::Closed => Ok(Outcome {
                standing: Standing::Closed,
                fed: Fed::Closed,
            }),
            Verdict::Done(session) => Ok(Outcome {
                standing: Standing::Serving(self.open(session)?),
                fed: Fed::Going,
            }),
        }
    }

    // A PDU whose turn it is, and the other sessions are told of its reset.
    fn turn(&mut self, session: &mut Session, pdu: Pdu, out: &mut Vec<u8>) -> Result<Fed, NoMemory>
        ensures target { OnOk result (self.new ≡ told self.old (turn_of self.old session.old pdu)) }
        ensures session { OnOk result (session.new ≡ without_resets (turn_of self.old session.old pdu).session) }
        ensures fed { IfOk result (λ f. f ≡ (turn_of self.old session.old pdu).fed) }
        ensures out { OnOk result (out.new.items ≡ out.old.items ++ wire (turn_of self.old session.old pdu).sent) }
        ensures kept { OnErr result (IsGrown out.old.items out.new.items) }
    {
        let fed = session.serve(&mut self.units, self.listing.as_slice(), pdu, out)?;
        let resets = session.take_resets();
        reset_links(&mut self.links, &mut self.units, &resets)?;
        Ok(fed)
    }

    // A PDU with the number that is expected, and those that were held and follow it at once.
    fn serve_in_turn(
        &mut self,
        session: &mut Session,
        held: &mut VecDeque<Option<Pdu>>,
        pdu: Pdu,
        out: &mut Vec<u8>,
    ) -> Result<Fed, NoMemory>
        ensures target { OnOk result (self.new ≡ (in_turn self.old session.old pdu held.old.items).target) }
        ensures session { OnOk result (session.new ≡ (in_turn self.old session.old pdu held.old.items).session) }
        ensures held { OnOk result (held.new.items ≡ (in_turn self.old session.old pdu held.old.items).held) }
        ensures fed { IfOk result (λ f. f ≡ (in_turn self.old session.old pdu held.old.items).fed) }
        ensures out { OnOk result (out.new.items ≡ out.old.items ++ wire (in_turn self.old session.old pdu held.old.items).sent) }
        ensures kept { OnErr result (IsGrown out.old.items out.new.items) }
    {
        session.advance();
        let slot = held.pop_front();
        match self.turn(session, pdu, out)? {
            Fed::Closed => Ok(Fed::Closed),
            Fed::Going => match slot {
                Some(Some(next)) => self.serve_in_turn(session, held, next, out),
                _ => Ok(Fed::Going),
            },
        }
    }

    // A PDU, by its place in the order of commands.
    fn receive(
        &mut self,
        session: &mut Session,
        held: &mut VecDeque<Option<Pdu>>,
        pdu: Pdu,
        out: &mut Vec<u8>,
    ) -> Result<Fed, NoMemory>
        ensures target { OnOk result (self.new ≡ (received self.old session.old held.old.items pdu).target) }
        ensures session { OnOk result (session.new ≡ (received self.old session.old held.old.items pdu).session) }
        ensures held { OnOk result (held.new.items ≡ (received self.old session.old held.old.items pdu).held) }
        ensures fed { IfOk result (λ f. f ≡ (received self.old session.old held.old.items pdu).fed) }
        ensures out { OnOk result (out.new.items ≡ out.old.items ++ wire (received self.old session.old held.old.items pdu).sent) }
        ensures kept { OnErr result (IsGrown out.old.items out.new.items) }
    {
        match place_of(session.discovers(), session.expected(), pdu.head) {
            Place::Now => self.turn(session, pdu, out),
            Place::InTurn => self.serve_in_turn(session, held, pdu, out),
            Place::Early(at) => hold(held, at, pdu),
            Place::Outside => Ok(Fed::Closed),
        }
    }

    // A PDU of a session.
    fn serve(&mut self, serving: Serving, pdu: Pdu, out: &mut Vec<u8>) -> Result<Outcome, NoMemory>
        ensures target { OnOk result (self.new ≡ (stepped self.old (Standing.Serving serving) pdu).target) }
        ensures standing { IfOk result (λ o. o.standing ≡ (stepped self.old (Standing.Serving serving) pdu).standing) }
        ensures fed { IfOk result (λ o. o.fed ≡ (stepped self.old (Standing.Serving serving) pdu).fed) }
        ensures out { OnOk result (out.new.items ≡ out.old.items ++ wire (stepped self.old (Standing.Serving serving) pdu).sent) }
        ensures kept { OnErr result (IsGrown out.old.items out.new.items) }
    {
        let Serving {
            session,
            held,
            owed,
        } = serving;
        let mut session = session;
        let mut pdus = held.pdus;
        session.pay(owed.replies, out)?;
        let fed = self.receive(&mut session, &mut pdus, pdu, out)?;
        let standing = match fed {
            Fed::Going => Standing::Serving(Serving {
                session,
                held: Held { pdus },
                owed: Debts {
                    replies: Vec::new(self.alloc),
                },
            }),
            Fed::Closed => Standing::Closed,
        };
        Ok(Outcome { standing, fed })
    }

    // One PDU of a connection that was taken out.
    fn step(&mut self, standing: Standing, pdu: Pdu, out: &mut Vec<u8>) -> Result<Outcome, NoMemory>
        ensures target { OnOk result (self.new ≡ (stepped self.old standing pdu).target) }
        ensures standing { IfOk result (λ o. o.standing ≡ (stepped self.old standing pdu).standing) }
        ensures fed { IfOk result (λ o. o.fed ≡ (stepped self.old standing pdu).fed) }
        ensures out { OnOk result (out.new.items ≡ out.old.items ++ wire (stepped self.old standing pdu).sent) }
        ensures kept { OnErr result (IsGrown out.old.items out.new.items) }
    {
        match standing {
            Standing::LoggingIn(login) => self.log_in(login, &pdu, out),
            Standing::Serving(serving) => self.serve(serving, pdu, out),
            Standing::Ended | Standing::Closed => Ok(Outcome {
                standing: Standing::Closed,
                fed: Fed::Closed,
            }),
        }
    }

    /// PDUs of a connection that was taken out, up to the one that closes it.
    pub(crate) fn steps(
        &mut self,
        standing: Standing,
        pdus: Vec<Pdu>,
        out: &mut Vec<u8>,
    ) -> Result<Outcome, NoMemory>
        ensures target { OnOk result (self.new ≡ (steps self.old standing pdus.items).target) }
        ensures standing { IfOk result (λ o. o.standing ≡ (steps self.old standing pdus.items).standing) }
        ensures fed { IfOk result (λ o. o.fed ≡ (steps self.old standing pdus.items).fed) }
        ensures out { OnOk result (out.new.items ≡ out.old.items ++ wire (steps self.old standing pdus.items).sent) }
        ensures kept { OnErr result (IsGrown out.old.items out.new.items) }
    {
        let mut standing = standing;
        for pdu in pdus {
            let outcome = self.step(standing, pdu, out)?;
            match outcome.fed {
                Fed::Closed => return Ok(outcome),
                Fed::Going => standing = outcome.standing,
            }
        }
        Ok(Outcome {
            standing,
            fed: Fed::Going,
        })
    }
}
