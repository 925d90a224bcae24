use crate::acceptance::holder_of;
use crate::allocated::Allocated;
use crate::command::Command;
use crate::config::SessionConfig;
use crate::course::{is_at_once, is_overdue};
use crate::event::Event;
use crate::fate::{Delivered, Fate};
use crate::handling::{live_at, sent_under};
use crate::index::Index;
use crate::owed::Queued;
use crate::phase::{Handler, Phase};
use crate::recovering::{Blow, submitted};
use crate::rules::are_over;
use crate::striking::{data_for, response_for, send_at, strike_all, strike_at};
use crate::tables::{count_due, due_within, fates_of, tell_within};
use crate::tally::Tally;
use crate::task::Task;
use oi_base::{NoMemory, Series, Tag};
use oi_pdu::{DataIn, Header, ScsiResponse};
use oi_recovery::Hit;
use oi_scsi::Request;
use std::alloc::Global;
use std::collections::VecDeque;
use std::marker::Model;

/// The submissions in order of id, the tags that they left, and what is counted of them.
#[derive(Debug, Drop)]
pub struct Submissions {
    alloc: Global,
    allowed: u8,
    tasks: Vec<Task>,
    tally: Tally,
    /// Tags that are live or wait for their release, or more.
    places: usize,
    index: Index,
}

impl Model for Submissions {
    ghost use Rattle.std.specs.Prelude.{◌-◌};
    ghost use Rattle.std.specs.VecDeque.{deque_capacity};
    ghost use Rattle.oi_history.specs.Indices.{IsIndexed};
    ghost use Rattle.oi_history.specs.Submitted.{AreKept, SubmissionsView};

    ghost Value = { SubmissionsView };

    ghost view = { λ s. record {
      allowed = s.allowed;
      tasks = s.tasks.items;
      ended = s.tally.ended.items;
      takes = deque_capacity s.tally.ended - s.places;
    } };

    ghost invariant = { λ s. AreKept s.allowed s.places s.tally s.tasks.items × IsIndexed s.index s.tasks.items };
}

impl Submissions {
    ghost use Rattle.std.specs.Prelude.{◌≡◌, ◌≤◌, ◌<◌, ◌+◌, ◌++◌, ◌∷◌, ◌==◌, ◌↔◌, ℕ, [], Some, true, false, IsTrue, IsOk, IfOk, OnOk, OnErr, count_by, drop, map, not, slice_get, if◌then◌else◌};
    ghost use Rattle.oi_history.specs.Blows.{blow_by};
    ghost use Rattle.oi_history.specs.Commands.{command_of};
    ghost use Rattle.oi_history.specs.Judging.{are_over};
    ghost use Rattle.oi_history.specs.Meanings.{ended_step, tags_over};
    ghost use Rattle.oi_history.specs.Courses.{is_overdue};
    ghost use Rattle.oi_history.specs.Owing.{sendable};
    ghost use Rattle.oi_pdu.specs.declared.header.Header.TheVariants.{DataIn as DataInPdu, ScsiResponse as ResponsePdu};
    ghost use Rattle.oi_recovery.specs.declared.hit.Hit.TheVariants.{ReplacementPast};
    ghost use Rattle.oi_history.specs.Recovering.{carried_out, hit_by, lost_by, map_from, submitted_in, tasks_heard, tasks_step};
    ghost use Rattle.oi_history.specs.Submitted.{AreMoved, AreStepped, Waits, brings, taken_by};
    ghost use Rattle.oi_history.specs.Tasks.{changed, due_in, is_done, is_due, is_waiting, issued, told_task};
    ghost use Rattle.oi_history.specs.declared.task.Task.{Task};

    /// None yet; each may use so many tries.
    pub fn new(alloc: Global, allowed: u8) -> Result<Submissions, NoMemory>
        requires { 1 ≤ allowed }
        ensures allowed { IfOk result (λ s. s.allowed ≡ allowed) }
        ensures tasks { IfOk result (λ s. s.tasks ≡ []) }
        ensures ended { IfOk result (λ s. s.ended ≡ []) }
    {
        let index = Index::new(alloc)?;
        Ok(Submissions {
            alloc,
            allowed,
            tasks: Vec::new(alloc),
            tally: Tally {
                ended: VecDeque::new(alloc),
                pending: 0,
            },
            places: 0,
            index,
        })
    }

    pub fn tasks(&self) -> &[Task]
        ensures { result.now ≡ self.now.tasks }
    {
        self.tasks.as_slice()
    }

    /// How many are not done.
    pub fn pending(&self) -> usize
        ensures { result ≡ count_by (λ t. not (is_done t.fate)) self.now.tasks }
    {
        self.tally.pending
    }

    /// The least that waits and whose logical unit has room for one more, where so many may be live on each.
    pub fn sendable(&self, depth: u16) -> Option<usize>
        ensures { result ≡ sendable depth self.now.tasks }
    {
        self.index.sendable(depth)
    }

    /// Copies of the outcomes that are due, in ascending id.
    pub fn due(&self) -> Result<Vec<Delivered>, NoMemory>
        ensures { IfOk result (λ v. v.items ≡ due_in self.now.tasks) }
    {
        due_within(self.alloc, &self.tasks, self.index.low, self.index.high)
    }

    /// How many are due.
    pub fn count_due(&self) -> usize
        ensures { result ≡ count_by is_due self.now.tasks }
    {
        count_due(&self.tasks, self.index.low, self.index.high)
    }

    pub fn alloc(&self) -> Global {
        self.alloc
    }

    /// The tags that wait for their release, in the order in which they ended.
    pub fn ended(&self) -> &VecDeque<Tag>
        ensures { result.now.items ≡ self.now.ended }
    {
        &self.tally.ended
    }

    /// The tag that ended first.
    pub fn first_ended(&self) -> Option<Tag>
        ensures { result ≡ slice_get self.now.ended 0 }
    {
        self.tally.ended.front().copied()
    }

    /// No tag waits for its release.
    pub fn none_ended(&self) -> bool
        ensures { IsTrue result ↔ (self.now.ended ≡ []) }
    {
        self.tally.ended.is_empty()
    }

    /// No data wait but those of tags that ended.
    pub fn are_over(&self, queue: &VecDeque<Queued>) -> bool
        ensures { result ≡ are_over self.now.ended queue.now.items }
    {
        are_over(&self.tally.ended, queue)
    }

    /// Makes room for one command more.
    pub fn reserve(&mut self) -> Result<(), NoMemory>
        ensures allowed { self.new.allowed ≡ self.old.allowed }
        ensures tasks { self.new.tasks ≡ self.old.tasks }
        ensures ended { self.new.ended ≡ self.old.ended }
        ensures takes { self.old.takes ≤ self.new.takes }
        ensures room { OnOk result (1 ≤ self.new.takes) }
        ensures succeeds { 1 ≤ self.old.takes → IsOk result }
    {
        let used = self.places - self.tally.ended.len();
        let wanted = used.checked_add(1).ok_or(NoMemory)?;
        self.tally.ended.reserve(wanted)?;
        Ok(())
    }

    // What befalls the submission with this id.
    fn strike(&mut self, at: u64, blow: Blow, id: u64)
        ensures { AreMoved self.old self.new (changed id (blow_by self.old.allowed at blow id) self.old.tasks) }
    {
        let was_live = live_at(id, &self.tasks);
        strike_at(
            &mut self.tasks,
            &mut self.tally,
            self.alloc,
            self.allowed,
            at,
            blow,
            id,
        );
        self.index.note(&self.tasks, id, was_live);
    }

    // What befalls all.
    fn strike_each(&mut self, at: u64, blow: Blow)
        ensures { AreMoved self.old self.new (map_from 0 (blow_by self.old.allowed at blow) self.old.tasks) }
    {
        strike_all(
            &mut self.tasks,
            &mut self.tally,
            self.alloc,
            self.allowed,
            at,
            blow,
        );
        self.index.build(&self.tasks);
    }

    // The request of the error handler was carried out.
    fn carry_out(&mut self, at: u64, handler: Handler)
        ensures { AreMoved self.old self.new (carried_out self.old.allowed at handler self.old.tasks) }
    {
        match handler {
            Handler::Aborting { id, .. } => self.strike(at, Blow::Struck(Hit::AbortDone), id),
            Handler::ResettingLun { lun, .. } => self.strike_each(at, Blow::Reset { lun }),
            Handler::ResettingTarget { .. } => {
                self.strike_each(at, Blow::Struck(Hit::ResetDone));
            }
            _ => {}
        }
    }

    // A Data-In for the submission in use of its tag.
    fn hear_data(
        &mut self,
        busy: &[Allocated],
        at: u64,
        handler: Handler,
        h: DataIn,
        payload: &[u8],
    ) -> Result<(), NoMemory>
        ensures ok { OnOk result (AreMoved self.old self.new (tasks_heard self.old.allowed at handler busy.now (DataInPdu h) payload.now self.old.tasks)) }
        ensures err { OnErr result (self.new ≡ self.old) }
    {
        let Some(id) = holder_of(busy, h.tag) else {
            return Ok(());
        };
        let was_live = live_at(id, &self.tasks);
        data_for(
            &mut self.tasks,
            &mut self.tally,
            self.alloc,
            self.allowed,
            at,
            handler,
            id,
            h,
            payload,
        )?;
        self.index.note(&self.tasks, id, was_live);
        Ok(())
    }

    // A SCSI Response for the submission in use of its tag.
    fn hear_response(
        &mut self,
        busy: &[Allocated],
        at: u64,
        handler: Handler,
        h: ScsiResponse,
        payload: &[u8],
    ) -> Result<(), NoMemory>
        ensures ok { OnOk result (AreMoved self.old self.new (tasks_heard self.old.allowed at handler busy.now (ResponsePdu h) payload.now self.old.tasks)) }
        ensures err { OnErr result (self.new ≡ self.old) }
    {
        let Some(id) = holder_of(busy, h.tag) else {
            return Ok(());
        };
        let was_live = live_at(id, &self.tasks);
        response_for(
            &mut self.tasks,
            &mut self.tally,
            self.alloc,
            self.allowed,
            at,
            handler,
            id,
            h,
            payload,
        )?;
        self.index.note(&self.tasks, id, was_live);
        Ok(())
    }

    // A PDU that counts.
    fn hear(
        &mut self,
        busy: &[Allocated],
        at: u64,
        handler: Handler,
        head: &Header,
        payload: &[u8],
    ) -> Result<(), NoMemory>
        ensures ok { OnOk result (AreMoved self.old self.new (tasks_heard self.old.allowed at handler busy.now head.now payload.now self.old.tasks)) }
        ensures err { OnErr result (self.new ≡ self.old) }
    {
        match head {
            Header::DataIn(h) => self.hear_data(busy, at, handler, *h, payload),
            Header::ScsiResponse(h) => self.hear_response(busy, at, handler, *h, payload),
            Header::TaskResponse(h) if sent_under(h.tag, handler) && h.response == 0 => {
                self.carry_out(at, handler);
                Ok(())
            }
            _ => Ok(()),
        }
    }

    // A request comes in.
    fn take_in(&mut self, phase: Phase, at: u64, request: &Request) -> Result<(), NoMemory>
        ensures ok { OnOk result (AreMoved self.old self.new (self.old.tasks ++ submitted_in phase at (command_of request.now) ∷ [])) }
        ensures err { OnErr result (self.new ≡ self.old) }
    {
        let command = Command::new(self.alloc, request)?;
        let task = submitted(self.alloc, phase, at, command);
        self.tasks.reserve(1)?;
        self.tally.add(&task.fate);
        let count = self.tasks.len();
        self.tasks.push_reserved(task);
        self.index.add(&self.tasks, count);
        Ok(())
    }

    // The command of the submission with this id goes out.
    fn issue(&mut self, id: u64, generation: u64, tag: Tag)
        requires room { 1 ≤ self.old.takes }
        requires waits { (t : Task) → slice_get self.old.tasks id ≡ Some t → is_waiting t.fate ≡ true }
        ensures allowed { self.new.allowed ≡ self.old.allowed }
        ensures tasks { self.new.tasks ≡ changed id (issued generation tag) self.old.tasks }
        ensures ended { self.new.ended ≡ self.old.ended ++ tags_over self.old.tasks (changed id (issued generation tag) self.old.tasks) }
        ensures takes { self.new.takes + 1 ≡ self.old.takes }
    {
        let was_live = live_at(id, &self.tasks);
        send_at(&mut self.tasks, self.allowed, id, generation, tag);
        self.index.note(&self.tasks, id, was_live);
        self.places += 1;
    }

    // All that are done are handed out.
    fn tell(&mut self)
        ensures { AreMoved self.old self.new (map told_task self.old.tasks) }
    {
        tell_within(&mut self.tasks, self.index.low, self.index.high);
        self.index.settle();
    }

    // The connection is lost: no command is live, and no tag waits for its release.
    fn lose(&mut self, at: u64, handler: Handler, at_once: bool, counted: bool)
        ensures allowed { self.new.allowed ≡ self.old.allowed }
        ensures tasks { self.new.tasks ≡ map_from 0 (lost_by self.old.allowed at handler at_once counted) self.old.tasks }
        ensures ended { self.new.ended ≡ [] }
        ensures takes { self.old.takes ≤ self.new.takes }
    {
        let loss = Blow::Loss {
            handler,
            at_once,
            counted,
        };
        strike_all(
            &mut self.tasks,
            &mut self.tally,
            self.alloc,
            self.allowed,
            at,
            loss,
        );
        self.index.build(&self.tasks);
        self.tally.ended.clear();
        self.places = 0;
    }

    // No tag waits for its release.
    fn forget(&mut self)
        ensures allowed { self.new.allowed ≡ self.old.allowed }
        ensures tasks { self.new.tasks ≡ self.old.tasks }
        ensures ended { self.new.ended ≡ [] }
        ensures takes { self.old.takes ≤ self.new.takes }
    {
        self.places -= self.tally.ended.len();
        self.tally.ended.clear();
    }

    // The tag that ended first is released.
    fn release(&mut self)
        ensures allowed { self.new.allowed ≡ self.old.allowed }
        ensures tasks { self.new.tasks ≡ self.old.tasks }
        ensures ended { self.new.ended ≡ drop 1 self.old.ended }
        ensures takes { self.old.takes ≤ self.new.takes }
    {
        if self.tally.ended.pop_front().is_some() {
            self.places -= 1;
        }
    }

    // What goes on in the time for a replacement connection.
    fn pass(&mut self, at: u64, replacement: i32, now: u64, phase: Phase)
        ensures { AreMoved self.old self.new (if is_overdue replacement now phase then map (hit_by self.old.allowed at ReplacementPast) self.old.tasks else self.old.tasks) }
    {
        if is_overdue(replacement, now, phase) {
            self.strike_each(at, Blow::Struck(Hit::ReplacementPast));
        }
    }

    /// One entry more.
    pub fn step(
        &mut self,
        busy: &[Allocated],
        config: &SessionConfig,
        at: u64,
        accepted: bool,
        phase: Phase,
        handler: Handler,
        event: &Event,
    ) -> Result<(), NoMemory>
        requires allowed { self.old.allowed ≡ config.now.tries }
        requires room { taken_by event.now ≤ self.old.takes }
        requires waits { Waits event.now self.old.tasks }
        ensures ok { OnOk result (AreStepped self.old self.new event.now (tasks_step config.now at accepted phase handler busy.now event.now self.old.tasks)) }
        ensures err { OnErr result (self.new ≡ self.old) }
        ensures succeeds { brings event.now ≡ false → IsOk result }
    {
        match event {
            Event::Submit { request, .. } => return self.take_in(phase, at, request),
            Event::PduIn { pdu, .. } if accepted => {
                return self.hear(busy, at, handler, &pdu.head, pdu.payload.as_slice());
            }
            Event::Login { .. } => self.forget(),
            Event::Issue {
                id,
                generation,
                tag,
                ..
            } => self.issue(*id, *generation, *tag),
            Event::Reap { .. } => self.release(),
            Event::Lost { .. } => self.lose(
                at,
                handler,
                is_at_once(config.replacement),
                config.count_disrupted,
            ),
            Event::Tick { now } => self.pass(at, config.replacement, *now, phase),
            Event::Abort { id } => self.strike(at, Blow::Struck(Hit::Aborted), *id),
            Event::Deliver { .. } => self.tell(),
            Event::Terminate { .. } => self.strike_each(at, Blow::Struck(Hit::Ended)),
            _ => {}
        }
        Ok(())
    }

    /// Where they stand, by id.
    pub fn into_fates(self) -> Result<Series<Fate>, NoMemory>
        ensures { IfOk result (λ found. found ≡ map (λ t. t.fate) self.tasks) }
    {
        let Submissions { alloc, tasks, .. } = self;
        fates_of(alloc, tasks)
    }
}
