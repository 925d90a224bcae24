ghost use Rattle.std.specs.Prelude.{◌≡◌, ◌≤◌, ◌<◌, ◌+◌, ◌++◌, ◌^◌, Some, None, false, true, [], ◌∷◌, IfOk, IfNone, IfSome, OnErr, OnOk, MatchOption, length, slice_get, slice_index_or, take};
ghost use Rattle.oi_target_login.specs.Grown.{IsGrown};
ghost use Rattle.oi_target_session.specs.Answers.{bytes_of};
ghost use Rattle.oi_target_session.specs.Arrivals.{advanced};
ghost use Rattle.oi_target_session.specs.Sequences.{AreLimits, data_pdus};
ghost use Rattle.oi_target_session.specs.Sessions.{and_drained, asking, behind, commanded, counted, data_out, drained, handled, filled_from, handled_discovering, handled_normally, is_unfit, logged_out, new_session, pinged, queued, reply_pdus, served, with_tasks, without_resets};
ghost use Rattle.oi_target_tasks.specs.Tasks.{grown, is_busy, is_stuck, is_waiting, waiting_in};
ghost use Rattle.oi_target_session.specs.declared.fed.Fed.TheVariants.{Going};
ghost use Rattle.oi_units.specs.Units.{executed};

use crate::answers::{NO_TAG, echo_pdu, logout_pdu, r2t_pdu, response_pdu};
use crate::data::{Source, write_data};
use crate::fed::Fed;
use crate::limits::{Limits, Numbers};
use crate::reset::Reset;
use oi_base::{Blob, NoMemory, Serial, Tag};
use oi_pdu::{DataOut, Header, LogoutRequest, NopOut, Pdu, ScsiCommand, write_pdu};
use oi_recovery::Residual;
use oi_reserve::Nexus;
use oi_sendtargets::Found;
use oi_target_tasks::{Task, Tasks};
use oi_units::{UnitReply, Units};
use std::alloc::Global;
use std::marker::Model;
use std::mem;

/// A session in its full feature phase, on its one connection.
#[derive(Debug, Drop)]
pub struct Session {
    pub(crate) alloc: Global,
    pub(crate) nexus: Nexus,
    discovers: bool,
    pub(crate) limits: Limits,
    pub(crate) numbers: Numbers,
    transfer: u32,
    pub(crate) tasks: Tasks,
    pub(crate) resets: Vec<Reset>,
    pub(crate) text: Blob,
    pub(crate) left: Blob,
}

impl Model for Session {
    ghost use Rattle.oi_target_session.specs.Sequences.{AreLimits};
    ghost use Rattle.oi_target_session.specs.Sessions as specs;

    ghost Value = { specs.Session };

    ghost view = { λ s. record {
      nexus = s.nexus.bytes;
      discovers = s.discovers;
      limits = s.limits;
      numbers = s.numbers;
      transfer = s.transfer;
      tasks = s.tasks;
      resets = s.resets.items;
      text = s.text;
      left = s.left;
    } };

    ghost invariant = { λ s. AreLimits s.limits };
}

impl Session {
    /// A session at its first command, as its login opened it.
    pub fn new(
        alloc: Global,
        nexus: Nexus,
        discovers: bool,
        limits: Limits,
        numbers: Numbers,
    ) -> Session
        ensures { result ≡ new_session nexus.bytes discovers limits numbers }
    {
        Session {
            alloc,
            nexus,
            discovers,
            limits: limits.usable(),
            numbers,
            transfer: 1,
            tasks: Tasks::new(alloc),
            resets: Vec::new(alloc),
            text: Blob::new(alloc),
            left: Blob::new(alloc),
        }
    }

    /// Whether it is a discovery.
    pub fn discovers(&self) -> bool
        ensures { result ≡ self.now.discovers }
    {
        self.discovers
    }

    /// ExpCmdSN.
    pub fn expected(&self) -> Serial
        ensures { result ≡ self.now.numbers.exp }
    {
        self.numbers.exp
    }

    /// The initiator port.
    pub fn nexus(&self) -> &Nexus
        ensures { result.now.bytes ≡ self.now.nexus }
    {
        &self.nexus
    }

    /// Takes the resets that other sessions of the target have to learn of, in order.
    pub fn take_resets(&mut self) -> Vec<Reset>
        ensures resets { result.items ≡ self.old.resets }
        ensures session { self.new ≡ without_resets self.old }
    {
        mem::replace(&mut self.resets, Vec::new(self.alloc))
    }

    /// The number that is expected came.
    pub fn advance(&mut self)
        ensures { self.new ≡ advanced self.old }
    {
        self.numbers.exp = self.numbers.exp.next();
    }

    fn is_unfit(&self, h: ScsiCommand, payload: &[u8]) -> bool
        ensures { result ≡ is_unfit self.now h payload.now }
    {
        self.tasks.is_busy(h.tag.0)
            || (0 < payload.len() && !h.writes)
            || (h.length as usize) < payload.len()
            || (self.limits.first_burst as usize) < payload.len()
    }

    fn queue(&mut self, task: Task, out: &mut Vec<u8>) -> Result<(), NoMemory>
        requires { is_busy task.tag.0 self.old.tasks ≡ false }
        ensures session { OnOk result (self.new ≡ (queued self.old task).session) }
        ensures out { OnOk result (out.new.items ≡ out.old.items ++ bytes_of (queued self.old task).sent) }
        ensures kept { OnErr result (IsGrown out.old.items out.new.items) }
    {
        let mut task = task;
        if task.is_waiting() {
            task.ask(self.transfer, self.limits.max_burst);
            let pdu = r2t_pdu(self.alloc, self.numbers, &task, task.end);
            write_pdu(&pdu, out)?;
            self.transfer = self.transfer.wrapping_add(1);
        }
        self.tasks.push(task)?;
        Ok(())
    }

    fn command(&mut self, h: ScsiCommand, payload: Blob, out: &mut Vec<u8>) -> Result<Fed, NoMemory>
        ensures session { OnOk result (self.new ≡ (commanded self.old h payload).session) }
        ensures out { OnOk result (out.new.items ≡ out.old.items ++ bytes_of (commanded self.old h payload).sent) }
        ensures fed { IfOk result (λ f. f ≡ (commanded self.old h payload).fed) }
        ensures kept { OnErr result (IsGrown out.old.items out.new.items) }
    {
        if self.is_unfit(h, payload.as_slice()) {
            return Ok(Fed::Closed);
        }
        self.queue(Task::new(h, payload), out)?;
        Ok(Fed::Going)
    }

    fn ping(&mut self, h: NopOut, payload: &[u8], out: &mut Vec<u8>) -> Result<Fed, NoMemory>
        ensures session { OnOk result (self.new ≡ (pinged self.old h payload.now).session) }
        ensures out { OnOk result (out.new.items ≡ out.old.items ++ bytes_of (pinged self.old h payload.now).sent) }
        ensures fed { IfOk result (λ f. f ≡ (pinged self.old h payload.now).fed) }
        ensures kept { OnErr result (IsGrown out.old.items out.new.items) }
    {
        if h.tag.0 == NO_TAG {
            return Ok(Fed::Going);
        }
        let echoed = echoed(self.alloc, payload, self.limits)?;
        write_pdu(&echo_pdu(self.numbers, h.tag, echoed), out)?;
        self.numbers = self.numbers.after_status();
        Ok(Fed::Going)
    }

    fn log_out(&mut self, h: LogoutRequest, out: &mut Vec<u8>) -> Result<Fed, NoMemory>
        ensures session { OnOk result (self.new ≡ (logged_out self.old h).session) }
        ensures out { OnOk result (out.new.items ≡ out.old.items ++ bytes_of (logged_out self.old h).sent) }
        ensures fed { IfOk result (λ f. f ≡ (logged_out self.old h).fed) }
        ensures kept { OnErr result (IsGrown out.old.items out.new.items) }
    {
        write_pdu(&logout_pdu(self.alloc, self.numbers, h.tag), out)?;
        self.numbers = self.numbers.after_status();
        Ok(Fed::Closed)
    }

    fn data_out(&mut self, h: DataOut, payload: &[u8], out: &mut Vec<u8>) -> Result<Fed, NoMemory>
        ensures session { OnOk result (self.new ≡ (data_out self.old h payload.now).session) }
        ensures out { OnOk result (out.new.items ≡ out.old.items ++ bytes_of (data_out self.old h payload.now).sent) }
        ensures fed { IfOk result (λ f. f ≡ (data_out self.old h payload.now).fed) }
        ensures kept { OnErr result (IsGrown out.old.items out.new.items) }
    {
        let Some(task) = self.tasks.waiting(h.tag.0) else {
            return Ok(Fed::Going);
        };
        if task.is_stray(h, payload) {
            return Ok(Fed::Closed);
        }
        self.fill(h.tag.0, payload, out)?;
        Ok(Fed::Going)
    }

    // The task that waits under this tag takes its data.
    fn fill(&mut self, tag: u32, payload: &[u8], out: &mut Vec<u8>) -> Result<(), NoMemory>
        ensures session { OnOk result (self.new ≡ (filled_from self.old payload.now (waiting_in tag self.old.tasks)).session) }
        ensures out { OnOk result (out.new.items ≡ out.old.items ++ bytes_of (filled_from self.old payload.now (waiting_in tag self.old.tasks)).sent) }
        ensures fed { (filled_from self.old payload.now (waiting_in tag self.old.tasks)).fed ≡ Going }
        ensures kept { OnErr result (IsGrown out.old.items out.new.items) }
    {
        let burst = self.limits.max_burst;
        let asked = self
            .tasks
            .fill(self.alloc, tag, payload, self.transfer, burst)?;
        if !asked {
            return Ok(());
        }
        let Some(task) = self.tasks.waiting(tag) else {
            return Ok(());
        };
        let pdu = r2t_pdu(self.alloc, self.numbers, task, task.end);
        write_pdu(&pdu, out)?;
        self.transfer = self.transfer.wrapping_add(1);
        Ok(())
    }

    // Writes the data of a reply with status GOOD.
    fn send(
        &mut self,
        tag: Tag,
        residual: Residual,
        bytes: &[u8],
        out: &mut Vec<u8>,
    ) -> Result<(), NoMemory>
        requires { length bytes.now < 2 ^ 32 }
        ensures session { OnOk result (self.new ≡ counted self.old) }
        ensures out { OnOk result (out.new.items ≡ out.old.items ++ bytes_of (data_pdus self.old.limits self.old.numbers tag residual (length bytes.now) 0 0 bytes.now)) }
        ensures kept { OnErr result (IsGrown out.old.items out.new.items) }
    {
        let source = Source {
            limits: self.limits,
            numbers: self.numbers,
            tag,
            residual,
        };
        write_data(self.alloc, source, bytes, out)?;
        self.numbers = self.numbers.after_status();
        Ok(())
    }

    // Writes the reply to a task.
    pub(crate) fn reply(
        &mut self,
        task: &Task,
        reply: &UnitReply,
        out: &mut Vec<u8>,
    ) -> Result<(), NoMemory>
        requires { length reply.now.sent < 2 ^ 32 }
        ensures session { OnOk result (self.new ≡ counted self.old) }
        ensures out { OnOk result (out.new.items ≡ out.old.items ++ bytes_of (reply_pdus self.old task.now reply.now)) }
        ensures kept { OnErr result (IsGrown out.old.items out.new.items) }
    {
        if reply.sent.as_slice().is_empty() {
            write_pdu(&response_pdu(self.alloc, self.numbers, task, reply)?, out)?;
            self.numbers = self.numbers.after_status();
            Ok(())
        } else {
            self.send(task.tag, reply.residual, reply.sent.as_slice(), out)
        }
    }

    // Executes a task, and writes the reply to it. What a disk sends is copied once, from there to what is written.
    fn execute(&mut self, units: &mut Units, task: &Task, out: &mut Vec<u8>) -> Result<(), NoMemory>
        ensures session { OnOk result (self.new ≡ counted self.old) }
        ensures units { OnOk result (units.new ≡ (executed units.old self.old.nexus task.now.command task.now.payload).units) }
        ensures out { OnOk result (out.new.items ≡ out.old.items ++ bytes_of (reply_pdus self.old task.now (executed units.old self.old.nexus task.now.command task.now.payload).reply)) }
        ensures kept { OnErr result (IsGrown out.old.items out.new.items) }
    {
        if let Some(data) = units.lend(&self.nexus, task.command) {
            self.send(task.tag, data.residual, data.bytes, out)?;
            return Ok(());
        }
        let reply = units.execute(
            self.alloc,
            &self.nexus,
            task.command,
            task.payload.as_slice(),
        )?;
        self.reply(task, &reply, out)
    }

    // The first task, where it is to be executed.
    pub(crate) fn next_ready(&mut self) -> Option<Task>
        ensures none { IfNone result (self.new ≡ self.old) }
        ensures stuck { IfNone result (is_stuck self.old.tasks ≡ true) }
        ensures some { IfSome result (λ t. (is_waiting t ≡ false) × (self.old.tasks ≡ t ∷ self.new.tasks) × (self.new ≡ with_tasks self.old self.new.tasks)) }
    {
        self.tasks.next_ready()
    }

    /// Executes commands in order, up to the first one whose data are not complete.
    pub fn drain(&mut self, units: &mut Units, out: &mut Vec<u8>) -> Result<(), NoMemory>
        ensures session { OnOk result (self.new ≡ (drained self.old units.old self.old.tasks).session) }
        ensures units { OnOk result (units.new ≡ (drained self.old units.old self.old.tasks).units) }
        ensures out { OnOk result (out.new.items ≡ out.old.items ++ bytes_of (drained self.old units.old self.old.tasks).sent) }
        ensures kept { OnErr result (IsGrown out.old.items out.new.items) }
    {
        while let Some(task) = self.next_ready() {
            self.execute(units, &task, out)?;
        }
        Ok(())
    }

    fn handle_normally(
        &mut self,
        units: &Units,
        pdu: Pdu,
        out: &mut Vec<u8>,
    ) -> Result<Fed, NoMemory>
        ensures session { OnOk result (self.new ≡ (handled_normally self.old units.now pdu.head pdu.payload).session) }
        ensures out { OnOk result (out.new.items ≡ out.old.items ++ bytes_of (handled_normally self.old units.now pdu.head pdu.payload).sent) }
        ensures fed { IfOk result (λ f. f ≡ (handled_normally self.old units.now pdu.head pdu.payload).fed) }
        ensures kept { OnErr result (IsGrown out.old.items out.new.items) }
    {
        let Pdu { head, payload } = pdu;
        match head {
            Header::ScsiCommand(h) => self.command(h, payload, out),
            Header::DataOut(h) => self.data_out(h, payload.as_slice(), out),
            Header::NopOut(h) => self.ping(h, payload.as_slice(), out),
            Header::TaskManagement(h) => self.manage(units, h, out),
            Header::LogoutRequest(h) => self.log_out(h, out),
            _ => Ok(Fed::Closed),
        }
    }

    fn handle_discovering(
        &mut self,
        listing: &[Found],
        pdu: Pdu,
        out: &mut Vec<u8>,
    ) -> Result<Fed, NoMemory>
        ensures session { OnOk result (self.new ≡ (handled_discovering self.old listing.now pdu.head pdu.payload).session) }
        ensures out { OnOk result (out.new.items ≡ out.old.items ++ bytes_of (handled_discovering self.old listing.now pdu.head pdu.payload).sent) }
        ensures fed { IfOk result (λ f. f ≡ (handled_discovering self.old listing.now pdu.head pdu.payload).fed) }
        ensures kept { OnErr result (IsGrown out.old.items out.new.items) }
    {
        let Pdu { head, payload } = pdu;
        match head {
            Header::TextRequest(h) => self.text(listing, h, payload.as_slice(), out),
            Header::NopOut(h) => self.ping(h, payload.as_slice(), out),
            Header::LogoutRequest(h) => self.log_out(h, out),
            _ => Ok(Fed::Closed),
        }
    }

    fn handle(
        &mut self,
        units: &Units,
        listing: &[Found],
        pdu: Pdu,
        out: &mut Vec<u8>,
    ) -> Result<Fed, NoMemory>
        ensures session { OnOk result (self.new ≡ (handled self.old units.now listing.now pdu.head pdu.payload).session) }
        ensures out { OnOk result (out.new.items ≡ out.old.items ++ bytes_of (handled self.old units.now listing.now pdu.head pdu.payload).sent) }
        ensures fed { IfOk result (λ f. f ≡ (handled self.old units.now listing.now pdu.head pdu.payload).fed) }
        ensures kept { OnErr result (IsGrown out.old.items out.new.items) }
    {
        if self.discovers {
            self.handle_discovering(listing, pdu, out)
        } else {
            self.handle_normally(units, pdu, out)
        }
    }

    /// What becomes of a PDU whose turn it is.
    pub fn serve(
        &mut self,
        units: &mut Units,
        listing: &[Found],
        pdu: Pdu,
        out: &mut Vec<u8>,
    ) -> Result<Fed, NoMemory>
        ensures session { OnOk result (self.new ≡ (served self.old units.old listing.now pdu).session) }
        ensures units { OnOk result (units.new ≡ (served self.old units.old listing.now pdu).units) }
        ensures out { OnOk result (out.new.items ≡ out.old.items ++ bytes_of (served self.old units.old listing.now pdu).sent) }
        ensures fed { IfOk result (λ f. f ≡ (served self.old units.old listing.now pdu).fed) }
        ensures kept { OnErr result (IsGrown out.old.items out.new.items) }
    {
        match self.handle(units, listing, pdu, out)? {
            Fed::Closed => Ok(Fed::Closed),
            Fed::Going => {
                self.drain(units, out)?;
                Ok(Fed::Going)
            }
        }
    }
}

// So much of ping data as the initiator takes.
fn echoed(alloc: Global, payload: &[u8], limits: Limits) -> Result<Blob, NoMemory>
    requires { AreLimits limits }
    ensures value { IfOk result (λ b. b ≡ take limits.max_send payload.now) }
    ensures size { IfOk result (λ b. length b < 2 ^ 24) }
{
    let count = payload.len().min(limits.max_send as usize);
    Blob::from_slice(alloc, &payload[..count])
}
