use crate::acceptance::holder_of;
use crate::allocated::Allocated;
use crate::config::SessionConfig;
use crate::connected::{asked_step, echoes_step, next_number, rule_on};
use crate::course::{has_connection, is_ended, is_fail_fast, is_logged_in};
use crate::event::{Event, Numbered, Subject};
use crate::fate::Fate;
use crate::handling::{is_live, is_spent};
use crate::ledger_steps::{
    broken_step, busy_step, counts, free_step, generation_step, is_joint, params_step, queue_step,
    solicited_step, stat_step, task_at, told_step, window_step,
};
use crate::owed::{Echo, Queued, Solicited, Told};
use crate::phase::{Handler, LostCause, Phase};
use crate::reply::is_done;
use crate::rule::Rule;
use crate::rules::{
    asked_by, asks_for, asks_nothing, drawable, first_broken, first_echo, first_queued, is_above,
    is_answer, is_broken_by, is_front, is_held, is_place, is_send, is_tag, is_timed_out, is_whole,
    rests, sends,
};
use crate::submissions::Submissions;
use crate::tables::fresh_tags;
use crate::task::Task;
use crate::tracker::Tracker;
use oi_base::{NoMemory, Params, Serial, Series, Tag};
use oi_timers::{PingDue, ping};
use oi_window::Window;
use std::alloc::Global;
use std::collections::VecDeque;
use std::marker::Model;

/// All meanings of a session, kept entry by entry: the plain program beside the words of a whole session.
#[derive(Debug, Drop)]
pub struct Ledger {
    pub(crate) config: SessionConfig,
    pub(crate) tracker: Tracker,
    pub(crate) generation: u64,
    pub(crate) params: Option<Params>,
    pub(crate) window: Window,
    pub(crate) stat: u32,
    pub(crate) told: Told,
    pub(crate) broken: Option<Rule>,
    pub(crate) echoes: Vec<Echo>,
    pub(crate) asked: Vec<u8>,
    pub(crate) free: VecDeque<Tag>,
    pub(crate) busy: Vec<Allocated>,
    pub(crate) queue: VecDeque<Queued>,
    pub(crate) solicited: Vec<Solicited>,
    pub(crate) submissions: Submissions,
}

impl Model for Ledger {
    ghost use Rattle.std.specs.Prelude.{◌≡◌, ◌-◌, min, vec_len};
    ghost use Rattle.std.specs.Vec.{vec_capacity};
    ghost use Rattle.std.specs.VecDeque.{deque_capacity, deque_len};
    ghost use Rattle.oi_history.specs.Configs.{IsValidConfig};
    ghost use Rattle.oi_history.specs.Ledgers.{AreWithin, HasSegment, LedgerView};

    ghost Value = { LedgerView };

    ghost view = { λ l. record {
      config = l.config;
      now = record {
        clock = l.tracker.clock;
        phase = l.tracker.phase;
        generation = l.generation;
        params = l.params;
        window = l.window;
        stat = l.stat;
        told = l.told;
        broken = l.broken;
        managed = l.tracker.managed;
        heard = l.tracker.heard;
        ping = l.tracker.ping;
        echoes = l.echoes.items;
        asked = l.asked.items;
        leaving = l.tracker.leaving;
        logout_sent = l.tracker.logout_sent;
        logged_out = l.tracker.logged_out;
        handler = l.tracker.handler;
        free = l.free.items;
        busy = l.busy.items;
        ended = l.submissions.ended;
        queue = l.queue.items;
        solicited = l.solicited.items;
        tasks = l.submissions.tasks;
      };
      releases = deque_capacity l.free - deque_len l.free;
      takes = min (vec_capacity l.busy - vec_len l.busy) l.submissions.takes;
      pieces = deque_capacity l.queue - deque_len l.queue;
      hears = min (vec_capacity l.solicited - vec_len l.solicited) (min (vec_capacity l.echoes - vec_len l.echoes) (vec_capacity l.asked - vec_len l.asked));
    } };

    ghost invariant = { λ l. IsValidConfig l.config × HasSegment l.params × AreWithin l.solicited.items × (l.submissions.allowed ≡ l.config.tries) };
}

impl Ledger {
    ghost use Rattle.std.specs.Prelude.{◌≡◌, ◌≤◌, ◌<◌, ◌+◌, ◌==◌, ◌↔◌, ◌⊎◌, ◌∷◌, [], IfOk, IsOk, IsTrue, OnErr, false, true, length, List, None, OnOk, Some, is_some, map, slice_get};
    ghost use Rattle.std.specs.List.{position};
    ghost use Rattle.std.specs.Option.{option_copied, option_map_or};
    ghost use Rattle.oi_base.specs.Limits.{most_management_tags};
    ghost use Rattle.oi_base.specs.TagLayout.{reserved_tag};
    ghost use Rattle.oi_history.specs.Judging.{IsJudged, last_number, may_ask};
    ghost use Rattle.oi_history.specs.Owing.{echo_next, next_management, or_else, owed_in, ping_next};
    ghost use Rattle.oi_history.specs.declared.event.Event.TheVariants.{Logout, Manage, Nop};
    ghost use Rattle.oi_history.specs.declared.event.Numbered.{Numbered};
    ghost use Rattle.oi_history.specs.Losses.{is_cause};
    ghost use Rattle.oi_history.specs.Permitted.{Comes, DrawsAll, GoesOn, HandsOut, HasCause, IsAsked, IsFirstEnded, IsHeeded, IsNextCommand, IsNextData, IsNextLogin, IsNumbered, IsTagged, StandsBehind};
    ghost use Rattle.oi_timers.specs.Ping.{ping_due};
    ghost use Rattle.oi_history.specs.Configs.{IsValidConfig};
    ghost use Rattle.oi_base.specs.declared.tag.Tag.{Tag};
    ghost use Rattle.oi_history.specs.Connected.{asked_step, echoes_step};
    ghost use Rattle.oi_history.specs.Ledgers.{CanStep, IsLogin, IsWithin, LeavesRoom, NeedsNoMemory, freed_by, heard_by, is_login, queued_in, released_by};
    ghost use Rattle.oi_history.specs.Meanings.{allocated_step, ended_step, first_meanings, is_current_in, meanings, rule_in, step};
    ghost use Rattle.oi_history.specs.Queues.{queue_step, solicited_step};
    ghost use Rattle.oi_history.specs.Submitted.{Waits, brings, taken_by};
    ghost use Rattle.oi_history.specs.Recovering.{tasks_step};
    ghost use Rattle.oi_history.specs.Tags.{free_after};

    /// Before the first entry.
    pub fn new(alloc: Global, config: SessionConfig) -> Result<Ledger, NoMemory>
        requires { IsValidConfig config }
        ensures config { IfOk result (λ l. l.config ≡ config) }
        ensures now { IfOk result (λ l. l.now ≡ first_meanings config) }
    {
        let free = fresh_tags(alloc, 0, config.cmds_max)?;
        let submissions = Submissions::new(alloc, config.tries)?;
        Ok(Ledger {
            config,
            tracker: Tracker {
                clock: 0,
                phase: Phase::First,
                managed: 0,
                heard: 0,
                ping: None,
                leaving: false,
                logout_sent: false,
                logged_out: false,
                handler: Handler::Idle,
            },
            generation: 0,
            params: None,
            window: Window::at(Serial(0), Serial(0)),
            stat: 0,
            told: Told {
                stat: 0,
                pending: 0,
            },
            broken: None,
            echoes: Vec::new(alloc),
            asked: Vec::new(alloc),
            free,
            busy: Vec::new(alloc),
            queue: VecDeque::new(alloc),
            solicited: Vec::new(alloc),
            submissions,
        })
    }

    pub fn phase(&self) -> Phase
        ensures { result ≡ self.now.now.phase }
    {
        self.tracker.phase
    }

    pub fn handler(&self) -> Handler
        ensures { result ≡ self.now.now.handler }
    {
        self.tracker.handler
    }

    pub fn window(&self) -> Window
        ensures { result ≡ self.now.now.window }
    {
        self.window
    }

    /// The rule by which the target broke the connection.
    pub fn broken(&self) -> Option<Rule>
        ensures { result ≡ self.now.now.broken }
    {
        self.broken
    }

    /// The submission with this id.
    pub fn task(&self, id: u64) -> Option<&Task>
        ensures { option_copied result ≡ slice_get self.now.now.tasks id }
    {
        task_at(self.submissions.tasks(), id)
    }

    // The PDU of an event is on the live connection, unbroken so far.
    fn is_current(&self, event: &Event) -> bool
        ensures { result ≡ is_current_in event.now self.now.now }
    {
        match event {
            Event::PduIn { generation, .. } => match self.tracker.phase {
                Phase::LoggedIn { generation: live } => {
                    live == *generation && self.broken.is_none()
                }
                _ => false,
            },
            _ => false,
        }
    }

    // The rule that the PDU of an event breaks.
    fn rule(&self, event: &Event) -> Option<Rule>
        ensures rule { result ≡ rule_in event.now self.now.now }
        ensures within { result ≡ None → IsWithin event.now }
    {
        match event {
            Event::PduIn { pdu, .. } => rule_on(
                self.generation,
                self.tracker.managed,
                &self.busy,
                self.submissions.tasks(),
                &pdu.head,
                pdu.payload.as_slice(),
            ),
            _ => None,
        }
    }

    /// One entry more. Without memory nothing changes.
    pub fn step(&mut self, entry: &Numbered) -> Result<(), NoMemory>
        requires { CanStep self.old.now entry.now.event }
        ensures config { self.new.config ≡ self.old.config }
        ensures now { OnOk result (self.new.now ≡ step self.old.config entry.now.event entry.now.number self.old.now) }
        ensures room { OnOk result (LeavesRoom self.old self.new entry.now.event) }
        ensures err { OnErr result (self.new.now ≡ self.old.now) }
        ensures succeeds { NeedsNoMemory self.old entry.now.event → IsOk result }
    {
        let event = &entry.event;
        let current = self.is_current(event);
        let rule = self.rule(event);
        let accepted = counts(current, rule);
        let tracker = self
            .tracker
            .step(&self.config, accepted, self.submissions.tasks(), event);
        let stat = stat_step(accepted, event, self.stat);
        let told = self.told;
        let joint = is_joint(is_fail_fast(self.tracker.phase), told.pending, event);
        let window = window_step(accepted, event, self.window);
        let broken = broken_step(current, rule, event, self.broken);
        let generation = generation_step(event, self.generation);
        let params = params_step(event, self.params);
        self.reserve(event)?;
        self.step_submissions(accepted, entry)?;
        self.step_queue(event);
        self.step_heard(accepted, event);
        self.step_free(event);
        self.told = told_step(joint, event, stat, self.submissions.pending(), told);
        self.window = window;
        self.broken = broken;
        self.generation = generation;
        self.params = params;
        self.stat = stat;
        self.tracker = tracker;
        Ok(())
    }

    // Submissions, the tags that they leave, and the tags in use.
    fn step_submissions(&mut self, accepted: bool, entry: &Numbered) -> Result<(), NoMemory>
        requires room { taken_by entry.now.event ≤ self.old.takes }
        requires waits { Waits entry.now.event self.old.now.tasks }
        ensures config { self.new.config ≡ self.old.config }
        ensures now { OnOk result (self.new.now ≡ record self.old.now {
          tasks = tasks_step self.old.config entry.now.number accepted self.old.now.phase self.old.now.handler self.old.now.busy entry.now.event self.old.now.tasks;
          ended = ended_step entry.now.event self.old.now.tasks
              (tasks_step self.old.config entry.now.number accepted self.old.now.phase self.old.now.handler self.old.now.busy entry.now.event self.old.now.tasks) self.old.now.ended;
          busy = allocated_step entry.now.event self.old.now.busy;
        }) }
        ensures err { OnErr result (self.new.now ≡ self.old.now) }
        ensures succeeds { brings entry.now.event ≡ false → IsOk result }
        ensures releases { self.new.releases ≡ self.old.releases }
        ensures takes { OnOk result (self.old.takes ≤ self.new.takes + taken_by entry.now.event) }
        ensures pieces { self.new.pieces ≡ self.old.pieces }
        ensures hears { self.new.hears ≡ self.old.hears }
    {
        self.submissions.step(
            &self.busy,
            &self.config,
            entry.number,
            accepted,
            self.tracker.phase,
            self.tracker.handler,
            &entry.event,
        )?;
        busy_step(&mut self.busy, &entry.event);
        Ok(())
    }

    // Data that wait.
    fn step_queue(&mut self, event: &Event)
        requires { queued_in self.old.now event.now ≤ self.old.pieces }
        ensures config { self.new.config ≡ self.old.config }
        ensures now { self.new.now ≡ record self.old.now {
          queue = queue_step self.old.now.params self.old.now.busy self.old.now.tasks self.old.now.solicited event.now self.old.now.queue;
        } }
        ensures releases { self.new.releases ≡ self.old.releases }
        ensures takes { self.new.takes ≡ self.old.takes }
        ensures pieces { self.old.pieces ≤ self.new.pieces + queued_in self.old.now event.now }
        ensures hears { self.new.hears ≡ self.old.hears }
    {
        queue_step(
            &mut self.queue,
            self.params,
            &self.busy,
            self.submissions.tasks(),
            &self.solicited,
            event,
        );
    }

    // R2Ts, answers that are owed, and Async Messages.
    fn step_heard(&mut self, accepted: bool, event: &Event)
        requires room { heard_by event.now ≤ self.old.hears }
        requires within { accepted ≡ true → IsWithin event.now }
        ensures config { self.new.config ≡ self.old.config }
        ensures now { self.new.now ≡ record self.old.now {
          solicited = solicited_step accepted event.now self.old.now.solicited;
          echoes = echoes_step accepted event.now self.old.now.echoes;
          asked = asked_step accepted event.now self.old.now.asked;
        } }
        ensures releases { self.new.releases ≡ self.old.releases }
        ensures takes { self.new.takes ≡ self.old.takes }
        ensures pieces { self.new.pieces ≡ self.old.pieces }
    {
        solicited_step(&mut self.solicited, accepted, event);
        echoes_step(&mut self.echoes, accepted, event);
        asked_step(&mut self.asked, accepted, event);
    }

    // Tags that are free.
    fn step_free(&mut self, event: &Event)
        requires room { freed_by self.old.config.cmds_max event.now ≤ self.old.releases }
        requires login { IsLogin event.now }
        ensures config { self.new.config ≡ self.old.config }
        ensures now { self.new.now ≡ record self.old.now { free = free_after self.old.config.cmds_max event.now self.old.now.free } }
        ensures releases { is_login event.now ≡ false → self.old.releases ≤ self.new.releases + released_by event.now }
        ensures takes { self.new.takes ≡ self.old.takes }
        ensures pieces { self.new.pieces ≡ self.old.pieces }
    {
        free_step(&mut self.free, self.config.cmds_max, event);
    }

    // Rule 2.
    fn comes(&self, event: &Event) -> bool
        ensures { IsTrue result ↔ Comes self.now.now event.now }
    {
        match event {
            Event::Submit { id, request } => {
                *id == self.submissions.tasks().len() as u64
                    && request.kind.is_valid()
                    && !is_ended(self.tracker.phase)
            }
            _ => true,
        }
    }

    // Rule 3.
    fn is_next_command(&self, event: &Event) -> bool
        ensures { IsTrue result ↔ IsNextCommand self.now.config self.now.now event.now }
    {
        match event {
            Event::Issue { id, generation, .. } => {
                is_place(self.submissions.sendable(self.config.queue_depth), *id)
                    && is_logged_in(self.tracker.phase, *generation)
                    && rests(self.tracker.handler)
                    && !self.tracker.leaving
                    && is_whole(self.broken)
            }
            _ => true,
        }
    }

    // Rule 4.
    fn is_numbered(&self, event: &Event) -> bool
        ensures { IsTrue result ↔ IsNumbered self.now.now event.now }
    {
        match event {
            Event::Issue { cmdsn, .. } => {
                *cmdsn == self.window.next().0 && self.window.is_open()
            }
            _ => true,
        }
    }

    // Rule 5.
    fn is_tagged(&self, event: &Event) -> bool
        ensures { IsTrue result ↔ IsTagged self.now.now event.now }
    {
        match event {
            Event::Issue { tag, .. } => {
                is_front(&self.free, *tag) && self.submissions.none_ended()
            }
            _ => true,
        }
    }

    // Rule 6.
    fn is_next_data(&self, event: &Event) -> bool
        ensures { IsTrue result ↔ IsNextData self.now.now event.now }
    {
        match event {
            Event::Push { id, .. } => match first_queued(&self.queue) {
                Some(queued) => {
                    sends(event, self.generation, queued)
                        && is_held(holder_of(&self.busy, queued.tag), *id)
                }
                None => false,
            },
            _ => true,
        }
    }

    // Rule 7.
    fn is_first_ended(&self, event: &Event) -> bool
        ensures { IsTrue result ↔ IsFirstEnded self.now.now event.now }
    {
        match event {
            Event::Reap { tag } => is_tag(self.submissions.first_ended(), *tag),
            _ => true,
        }
    }

    // Rule 8.
    fn draws_all(&self, event: &Event) -> bool
        ensures { IsTrue result ↔ DrawsAll self.now.now event.now }
    {
        match event {
            Event::Draw { count } => {
                *count >= 1
                    && *count as usize
                        == drawable(&self.busy, self.submissions.tasks(), &self.solicited)
            }
            _ => true,
        }
    }

    // Rule 10.
    fn goes_on(&self, event: &Event) -> bool
        ensures { IsTrue result ↔ GoesOn self.now.now event.now }
    {
        match event {
            Event::Tick { now } => self.tracker.clock <= *now && *now < 1 << 53,
            _ => true,
        }
    }

    pub(crate) fn ping_due(&self) -> PingDue
        ensures { result ≡ ping_due self.now.now.heard (option_map_or (λ p. Some p.sent) self.now.now.ping None)
            self.now.config.noop_interval self.now.config.noop_timeout self.now.now.clock }
    {
        let sent = self.tracker.ping.map(|p| p.sent);
        ping(
            self.tracker.heard,
            sent,
            self.config.noop_interval,
            self.config.noop_timeout,
            self.tracker.clock,
        )
    }

    // The target asked by this event.
    fn was_asked(&self, event: u8) -> bool
        ensures { result ≡ is_some (position (λ e. e == event) self.now.now.asked) }
    {
        asked_by(&self.asked, event)
    }

    /// The cause of a loss holds, as far as the history can tell.
    pub fn is_cause(&self, cause: &LostCause) -> bool
        ensures { result ≡ is_cause self.now.config self.now.now cause.now }
    {
        match cause {
            LostCause::Broken(rule) => is_broken_by(*rule, self.broken),
            LostCause::Ping => is_timed_out(self.ping_due()),
            LostCause::Handler => is_spent(self.tracker.handler),
            LostCause::Asked(event) => self.was_asked(*event),
            _ => true,
        }
    }

    // Rule 11.
    fn has_cause(&self, event: &Event) -> bool
        ensures { IsTrue result ↔ HasCause self.now.config self.now.now event.now }
    {
        match event {
            Event::Lost { generation, cause } => {
                is_logged_in(self.tracker.phase, *generation) && self.is_cause(cause)
            }
            _ => true,
        }
    }

    // Rule 12.
    fn is_next_login(&self, event: &Event) -> bool
        ensures { IsTrue result ↔ IsNextLogin self.now.now event.now }
    {
        match event {
            Event::Login {
                generation,
                params,
                ..
            } => {
                *generation > self.generation
                    && *generation - self.generation == 1
                    && params.max_send >= 1
                    && !has_connection(self.tracker.phase)
                    && !is_ended(self.tracker.phase)
            }
            _ => true,
        }
    }

    // Rule 13.
    #[tactic(auto, using(crate::proofs::Judged::due_counted))]
    fn hands_out(&self, event: &Event) -> bool
        ensures { IsTrue result ↔ HandsOut self.now.now event.now }
    {
        match event {
            Event::Deliver { count } => *count >= 1
                && *count as usize == self.submissions.count_due(),
            _ => true,
        }
    }

    // Rule 14.
    fn is_heeded(&self, event: &Event) -> bool
        ensures { IsTrue result ↔ IsHeeded self.now.now event.now }
    {
        match event {
            Event::Abort { id } => match self.task(*id) {
                Some(task) => {
                    !is_done(&task.fate) && (!is_live(&task.fate) || rests(self.tracker.handler))
                }
                None => false,
            },
            Event::ResetLun { .. } | Event::ResetTarget => {
                has_connection(self.tracker.phase) && rests(self.tracker.handler)
            }
            Event::Leave => has_connection(self.tracker.phase),
            _ => true,
        }
    }

    // Rule 15.
    fn stands_behind(&self, event: &Event) -> bool
        ensures { IsTrue result ↔ StandsBehind self.now.now event.now }
    {
        match event {
            Event::PduIn { .. } | Event::Deliver { .. } => true,
            _ => !is_ended(self.tracker.phase),
        }
    }

    // The connection can take a further request.
    fn may_ask(&self) -> bool
        ensures { result ≡ may_ask self.now.now }
    {
        !(self.tracker.logout_sent || !has_connection(self.tracker.phase))
            && self.broken.is_none()
            && self.submissions.are_over(&self.queue)
    }

    // On the present connection, with its next management tag.
    fn is_its_next(&self, generation: u64, tag: u32) -> bool
        ensures { IsTrue result ↔ ((generation ≡ self.now.now.generation) × (tag ≡ (next_management self.now.now).0)) }
    {
        generation == self.generation
            && u64::from(tag) == next_number(self.generation, self.tracker.managed)
    }

    // A management tag is left, or none is asked for.
    fn has_tag(&self, tag: u32) -> bool
        ensures { IsTrue result ↔ (tag ≡ reserved_tag ⊎ self.now.now.managed < most_management_tags) }
    {
        tag == u32::MAX || self.tracker.managed < 1_000_000
    }

    // A NOP-Out that is next behind data, the wish to leave and the error handler.
    fn is_next_nop(&self, generation: u64, tag: u32, ttt: u32, lun: &[u8; 8]) -> bool
        ensures { IsTrue result ↔ (or_else (echo_next self.now.now.generation self.now.now.echoes)
            (ping_next self.now.config self.now.now.generation self.now.now) ≡ Nop generation tag ttt lun.now ∷ []) }
    {
        match first_echo(&self.echoes) {
            Some(echo) => {
                generation == self.generation && tag == u32::MAX && is_answer(echo, ttt, lun)
            }
            None => {
                is_send(self.ping_due())
                    && self.is_its_next(generation, tag)
                    && ttt == u32::MAX
                    && *lun == [0; 8]
            }
        }
    }

    #[tactic(auto, using(crate::proofs::Asked::logout_owed))]
    fn owes_logout(&self, generation: u64, tag: Tag) -> bool
        ensures { IsTrue result ↔ (owed_in self.now.config self.now.now ≡ Logout generation tag ∷ []) }
    {
        if !self.may_ask() || !self.tracker.leaving {
            return false;
        }
        self.is_its_next(generation, tag.0)
    }

    #[tactic(auto, using(crate::proofs::Asked::manage_owed))]
    fn owes_request(&self, generation: u64, tag: Tag, function: u8, subject: Subject) -> bool
        ensures { IsTrue result ↔ (owed_in self.now.config self.now.now ≡ Manage generation tag function subject ∷ []) }
    {
        if !self.may_ask() || self.tracker.leaving || !self.is_its_next(generation, tag.0) {
            return false;
        }
        asks_for(self.tracker.handler, function, subject)
    }

    #[tactic(auto, using(crate::proofs::Asked::nop_owed))]
    fn owes_nop(&self, generation: u64, tag: u32, ttt: u32, lun: &[u8; 8]) -> bool
        ensures { IsTrue result ↔ (owed_in self.now.config self.now.now ≡ Nop generation tag ttt lun.now ∷ []) }
    {
        if !self.may_ask() || self.tracker.leaving || !asks_nothing(self.tracker.handler) {
            return false;
        }
        self.is_next_nop(generation, tag, ttt, lun)
    }

    // Rule 9.
    fn is_asked(&self, event: &Event) -> bool
        ensures { IsTrue result ↔ IsAsked self.now.config self.now.now event.now }
    {
        match event {
            Event::Manage {
                generation,
                tag,
                function,
                subject,
            } => {
                self.owes_request(*generation, *tag, *function, *subject) && self.has_tag(tag.0)
            }
            Event::Nop {
                generation,
                tag,
                ttt,
                lun,
            } => self.owes_nop(*generation, *tag, *ttt, lun) && self.has_tag(*tag),
            Event::Logout { generation, tag } => {
                self.owes_logout(*generation, *tag) && self.has_tag(tag.0)
            }
            _ => true,
        }
    }

    /// The first rule that an entry breaks behind those so far, by its number, where it breaks one; `last` is the number
    /// of the newest of them.
    pub fn broken_rule(&self, last: Option<u64>, entry: &Numbered) -> Option<u8>
        ensures steps { result ≡ None → CanStep self.now.now entry.now.event }
        ensures judged { (H : List Numbered) → self.now.now ≡ meanings self.now.config H → last ≡ last_number H → IsJudged result self.now.config H entry.now }
    {
        let event = &entry.event;
        first_broken(&[
            is_above(last, entry.number),
            self.comes(event),
            self.is_next_command(event),
            self.is_numbered(event),
            self.is_tagged(event),
            self.is_next_data(event),
            self.is_first_ended(event),
            self.draws_all(event),
            self.is_asked(event),
            self.goes_on(event),
            self.has_cause(event),
            self.is_next_login(event),
            self.hands_out(event),
            self.is_heeded(event),
            self.stands_behind(event),
        ])
    }

    /// Where the submissions stand, by id.
    pub fn into_fates(self) -> Result<Series<Fate>, NoMemory>
        ensures { IfOk result (λ found. found ≡ map (λ t. t.fate) self.now.tasks) }
    {
        let Ledger { submissions, .. } = self;
        submissions.into_fates()
    }
}
