use crate::allocated::Allocated;
use crate::connected::next_number;
use crate::course::has_connection;
use crate::event::{Event, Subject};
use crate::handling::is_idle;
use crate::ledger::Ledger;
use crate::ledger_steps::task_at;
use crate::owed::Queued;
use crate::owing::{
    Owed, count_left, drawn_owed, echo_owed, first_drawn, first_left, issue_owed, managed_owed,
    queued_owed,
};
use crate::requests::{data_out, logout_pdu, management_pdu, nop_pdu, referenced, subject_lun};
use crate::rules::is_send;
use crate::sending::command_pdu;
use oi_base::{NoMemory, Tag};
use oi_pdu::Pdu;

impl Ledger {
    ghost use Rattle.std.specs.Prelude.{◌≡◌, ◌≤◌, ◌+◌, ◌++◌, ◌∷◌, ◌||◌, ℕ, [], not, IfOk, IfSome, OnOk, Option, None, Some, filter, length, slice_get, if◌then◌else◌, is_some};
    ghost use Rattle.std.specs.List.{flat_map};
    ghost use Rattle.std.specs.Option.{option_copied, option_map_or};
    ghost use Rattle.oi_history.specs.Ledgers.{IsRoomier};
    ghost use Rattle.oi_history.specs.Meanings.{Meanings};
    ghost use Rattle.oi_history.specs.Owing.{data_out, drawn_next, echo_next, issue_next, logout_next, managed_next, management_pdu, next_management, or_else, owed_in, pdu_in, ping_next, queued_next, referenced, subject_lun};
    ghost use Rattle.oi_history.specs.Phases.{has_connection};
    ghost use Rattle.oi_history.specs.Queues.{drawn_by, unasked};
    ghost use Rattle.oi_history.specs.Releasing.{HasTurn, Names, Sends, counts_left, data_left, draw_of, entries_of, list_of, next_left, pieces_of, ready, released, told_stat};
    ghost use Rattle.oi_history.specs.Sending.{command_pdu};
    ghost use Rattle.oi_history.specs.declared.allocated.Allocated.{Allocated};
    ghost use Rattle.oi_history.specs.declared.event.Subject.TheVariants.{Task as OneTask};

    /// The tag that ended first.
    pub fn first_ended(&self) -> Option<Tag>
        ensures { result ≡ slice_get self.now.now.ended 0 }
    {
        self.submissions.first_ended()
    }

    /// How many tags wait for their release.
    pub fn ended_len(&self) -> usize
        ensures { result ≡ length self.now.now.ended }
    {
        self.submissions.ended().len()
    }

    // The data that wait first once all ended tags are released.
    fn first_left(&self) -> Option<&Queued>
        ensures { option_copied result ≡ slice_get (data_left self.now.now.ended self.now.now.queue) 0 }
    {
        first_left(self.submissions.ended(), &self.queue)
    }

    fn queued_owed(&self) -> Option<Owed>
        ensures { entries_of result ≡ queued_next self.now.now.generation (data_left self.now.now.ended self.now.now.queue) }
    {
        queued_owed(self.generation, self.first_left())
    }

    // The next management tag, where it is a tag.
    fn next_tag(&self) -> Option<Tag>
        ensures { IfSome result (λ t. t ≡ next_management self.now.now) }
    {
        let number = next_number(self.generation, self.tracker.managed);
        match u32::try_from(number) {
            Ok(number) => Some(Tag(number)),
            Err(_) => None,
        }
    }

    fn logout_owed(&self, tag: Tag) -> Option<Owed>
        requires { tag ≡ next_management self.now.now }
        ensures { entries_of result ≡ logout_next self.now.now.generation self.now.now }
    {
        if !self.tracker.leaving {
            return None;
        }
        Some(Owed {
            draw: None,
            send: Event::Logout {
                generation: self.generation,
                tag,
            },
        })
    }

    fn managed_owed(&self, tag: Tag) -> Option<Owed>
        requires { tag ≡ next_management self.now.now }
        ensures { entries_of result ≡ managed_next self.now.now.generation (next_management self.now.now) self.now.now.handler }
    {
        managed_owed(self.generation, tag, self.tracker.handler)
    }

    fn echo_owed(&self) -> Option<Owed>
        ensures { entries_of result ≡ echo_next self.now.now.generation self.now.now.echoes }
    {
        echo_owed(self.generation, &self.echoes)
    }

    fn ping_owed(&self, tag: Tag) -> Option<Owed>
        requires { tag ≡ next_management self.now.now }
        ensures { entries_of result ≡ ping_next self.now.config self.now.now.generation self.now.now }
    {
        if !is_send(self.ping_due()) {
            return None;
        }
        Some(Owed {
            draw: None,
            send: Event::Nop {
                generation: self.generation,
                tag: tag.0,
                ttt: u32::MAX,
                lun: [0; 8],
            },
        })
    }

    // The first piece that R2Ts ask for which count once all ended tags are released.
    fn first_drawn(&self) -> Option<Queued>
        ensures { result ≡ slice_get (flat_map (drawn_by self.now.now.params self.now.now.busy) (filter (counts_left self.now.now.ended self.now.now.busy self.now.now.tasks) self.now.now.solicited)) 0 }
    {
        first_drawn(
            self.params,
            self.submissions.ended(),
            &self.busy,
            self.submissions.tasks(),
            &self.solicited,
        )
    }

    // How many count.
    fn count_left(&self) -> usize
        ensures { result ≡ length (filter (counts_left self.now.now.ended self.now.now.busy self.now.now.tasks) self.now.now.solicited) }
    {
        count_left(
            self.submissions.ended(),
            &self.busy,
            self.submissions.tasks(),
            &self.solicited,
        )
    }

    #[tactic(auto, using(crate::proofs::Turning::drawn_is))]
    fn drawn_owed(&self) -> Result<Option<Owed>, NoMemory>
        ensures { IfOk result (λ o. entries_of o ≡ drawn_next self.now.now.generation (released self.now.config self.now.now)) }
    {
        let Ok(count) = u32::try_from(self.count_left()) else {
            return Err(NoMemory);
        };
        Ok(drawn_owed(self.generation, count, self.first_drawn()))
    }

    // The tag that is free first once all ended tags are released.
    fn first_tag(&self) -> Option<Tag>
        ensures { result ≡ slice_get (self.now.now.free ++ self.now.now.ended) 0 }
    {
        match self.free.front() {
            Some(tag) => Some(*tag),
            None => self.submissions.first_ended(),
        }
    }

    #[tactic(auto, using(crate::proofs::Turning::issue_is))]
    fn issue_owed(&self) -> Option<Owed>
        ensures { entries_of result ≡ issue_next self.now.config self.now.now.generation (released self.now.config self.now.now) }
    {
        if !is_idle(self.tracker.handler) || self.tracker.leaving || !self.window.is_open() {
            return None;
        }
        let tag = self.first_tag();
        if tag.is_none() {
            return None;
        }
        let id = self.submissions.sendable(self.config.queue_depth);
        issue_owed(self.generation, self.window.next().0, id, tag)
    }

    // What is owed behind the data that wait.
    fn owed_behind(&self) -> Result<Option<Owed>, NoMemory>
        ensures { IfOk result (λ o. entries_of o ≡ next_left self.now.config self.now.now) }
    {
        let Some(tag) = self.next_tag() else {
            return Err(NoMemory);
        };
        if let Some(owed) = self.logout_owed(tag) {
            return Ok(Some(owed));
        }
        if let Some(owed) = self.managed_owed(tag) {
            return Ok(Some(owed));
        }
        if let Some(owed) = self.echo_owed() {
            return Ok(Some(owed));
        }
        if let Some(owed) = self.ping_owed(tag) {
            return Ok(Some(owed));
        }
        self.owed_last()
    }

    // R2Ts, then commands.
    fn owed_last(&self) -> Result<Option<Owed>, NoMemory>
        ensures { IfOk result (λ o. entries_of o ≡ or_else (drawn_next self.now.now.generation (released self.now.config self.now.now)) (issue_next self.now.config self.now.now.generation (released self.now.config self.now.now))) }
    {
        let Ok(drawn) = self.drawn_owed() else {
            return Err(NoMemory);
        };
        if let Some(owed) = drawn {
            return Ok(Some(owed));
        }
        Ok(self.issue_owed())
    }

    // Nothing can be sent.
    fn is_off(&self) -> bool
        ensures { result ≡ (self.now.now.logout_sent || not (has_connection self.now.now.phase)) }
    {
        self.tracker.logout_sent || !has_connection(self.tracker.phase)
    }

    /// What is sent next, once all ended tags are released: data that wait, the Logout, the request of the error handler,
    /// answers to NOP-Ins, a ping, data that R2Ts ask for, and commands, in this order.
    pub fn owed(&self) -> Result<Option<Owed>, NoMemory>
        ensures { IfOk result (λ o. entries_of o ≡ owed_in self.now.config self.now.now) }
    {
        if self.is_off() {
            return Ok(None);
        }
        let queued = self.queued_owed();
        if queued.is_some() {
            return Ok(queued);
        }
        if self.broken.is_some() {
            return Ok(None);
        }
        self.owed_behind()
    }

    // The data that are sent next, where R2Ts were taken up before it and where not.
    #[tactic(auto, using(crate::proofs::Released::first_front, crate::proofs::Released::first_later))]
    fn first_ready(&self, drawn: bool) -> Option<Queued>
        ensures { result ≡ slice_get (data_left self.now.now.ended self.now.now.queue
            ++ (if drawn then flat_map (drawn_by self.now.now.params self.now.now.busy) (filter (counts_left self.now.now.ended self.now.now.busy self.now.now.tasks) self.now.now.solicited) else [])) 0 }
    {
        match self.first_left() {
            Some(queued) => Some(*queued),
            None if drawn => self.first_drawn(),
            None => None,
        }
    }

    // The StatSN that Data-Outs tell then.
    fn told_ready(&self, drawn: bool) -> u32
        ensures { result ≡ (if drawn then self.now.now.stat else told_stat self.now.now.ended self.now.now) }
    {
        if drawn || self.submissions.first_ended().is_some() {
            self.stat
        } else {
            self.told.stat
        }
    }

    fn issue_pdu(&self, id: u64, tag: Tag, cmdsn: u32) -> Result<Option<Pdu>, NoMemory>
        ensures { IfOk result (λ p. option_map_or (λ t. command_pdu self.now.now.params self.now.now.stat t.command tag cmdsn ∷ []) (slice_get self.now.now.tasks id) [] ≡ list_of p) }
    {
        let Some(task) = task_at(self.submissions.tasks(), id) else {
            return Ok(None);
        };
        let Ok(pdu) = command_pdu(
            self.submissions.alloc(),
            self.params,
            self.stat,
            &task.command,
            tag,
            cmdsn,
        ) else {
            return Err(NoMemory);
        };
        Ok(Some(pdu))
    }

    #[tactic(auto, using(crate::proofs::Turning::data_is))]
    fn data_pdu(
        &self,
        told: u32,
        first: Option<Queued>,
        id: u64,
        ttt: u32,
        number: u32,
        offset: u32,
        length: u32,
        last: bool,
    ) -> Result<Option<Pdu>, NoMemory>
        ensures { (r : Meanings) → r.told.stat ≡ told → IfOk result (λ p. data_out r id ttt number offset length last (option_map_or (λ q. Some q.tag) first None) (slice_get self.now.now.tasks id) ≡ list_of p) }
    {
        let Some(queued) = first else {
            return Ok(None);
        };
        let Some(task) = task_at(self.submissions.tasks(), id) else {
            return Ok(None);
        };
        let alloc = self.submissions.alloc();
        let Ok(pdu) = data_out(
            alloc,
            told,
            &task.command,
            queued.tag,
            ttt,
            number,
            offset,
            length,
            last,
        ) else {
            return Err(NoMemory);
        };
        Ok(Some(pdu))
    }

    #[tactic(auto, using(crate::proofs::Turning::serial_is))]
    fn manage_pdu(&self, tag: Tag, function: u8, subject: Subject, issue: Option<Allocated>) -> Pdu
        ensures { (r : Meanings) (last : ℕ → Option Allocated) → r.window ≡ self.now.now.window → r.stat ≡ self.now.now.stat → ((id : ℕ) → subject ≡ OneTask id → issue ≡ last id)
            → result ≡ management_pdu r tag function (subject_lun self.now.now.tasks subject) (referenced last subject) }
    {
        management_pdu(
            self.submissions.alloc(),
            self.window.next(),
            self.stat,
            tag,
            function,
            subject_lun(self.submissions.tasks(), subject),
            referenced(subject, issue),
        )
    }

    // The PDU of an entry that sends.
    #[tactic(auto, using(crate::proofs::Turning::serial_is))]
    fn pdu_of(
        &self,
        told: u32,
        first: Option<Queued>,
        send: &Event,
        issue: Option<Allocated>,
    ) -> Result<Option<Pdu>, NoMemory>
        ensures { (r : Meanings) (last : ℕ → Option Allocated) → Sends self.now.now r told first → Names send.now issue last → IfOk result (λ p. pdu_in r last send.now ≡ list_of p) }
    {
        let alloc = self.submissions.alloc();
        match send {
            Event::Issue { id, tag, cmdsn, .. } => self.issue_pdu(*id, *tag, *cmdsn),
            Event::Push {
                id,
                ttt,
                number,
                offset,
                length,
                last,
                ..
            } => self.data_pdu(told, first, *id, *ttt, *number, *offset, *length, *last),
            Event::Manage {
                tag,
                function,
                subject,
                ..
            } => Ok(Some(self.manage_pdu(*tag, *function, *subject, issue))),
            Event::Nop { tag, ttt, lun, .. } => {
                Ok(Some(nop_pdu(alloc, self.window.next(), self.stat, *tag, *ttt, *lun)))
            }
            Event::Logout { tag, .. } => {
                Ok(Some(logout_pdu(alloc, self.window.next(), self.stat, *tag)))
            }
            _ => Ok(None),
        }
    }

    /// The PDU of what is owed. `issue` is the last command of the task that a task management request names.
    #[tactic(auto, using(crate::proofs::Turning::sends))]
    pub fn owed_pdu(&self, owed: &Owed, issue: Option<Allocated>) -> Result<Option<Pdu>, NoMemory>
        ensures { (last : ℕ → Option Allocated) → Names owed.now.send issue last → IfOk result (λ p. pdu_in (ready self.now.config owed.now self.now.now) last owed.now.send ≡ list_of p) }
    {
        let drawn = owed.draw.is_some();
        self.pdu_of(
            self.told_ready(drawn),
            self.first_ready(drawn),
            &owed.send,
            issue,
        )
    }

    // How many Data-Outs the taking up of R2Ts queues, or more.
    #[tactic(auto, using(crate::proofs::Turning::drawing_room))]
    fn count_drawing(&self, draw: Option<u32>) -> Option<usize>
        ensures { IfSome result (λ n. pieces_of (released self.now.config self.now.now) (draw_of draw) ≤ n) }
    {
        if draw.is_none() {
            return Some(0);
        }
        let Some(count) = self.count_drawn() else {
            return None;
        };
        Some(count)
    }

    // And the entry that sends.
    #[tactic(auto, using(crate::proofs::Turning::issuing_room, crate::proofs::Turning::taking_room))]
    fn count_sending(&self, send: &Event) -> Option<usize>
        ensures { IfSome result (λ n. pieces_of (released self.now.config self.now.now) (send.now ∷ []) ≤ n) }
    {
        match send {
            Event::Issue { id, .. } => Some(self.count_unasked(*id)),
            Event::Draw { .. } => {
                let Some(count) = self.count_drawn() else {
                    return None;
                };
                Some(count)
            }
            _ => Some(0),
        }
    }

    #[tactic(auto, using(crate::proofs::Turning::owing_room))]
    fn count_owed(&self, owed: &Owed) -> Option<usize>
        ensures { IfSome result (λ n. pieces_of (released self.now.config self.now.now) (entries_of (Some owed.now)) ≤ n) }
    {
        let (Some(drawing), Some(sending)) = (
            self.count_drawing(owed.draw),
            self.count_sending(&owed.send),
        ) else {
            return None;
        };
        drawing.checked_add(sending)
    }

    fn reserve_owed(&mut self, owed: &Option<Owed>) -> Result<(), NoMemory>
        ensures roomier { IsRoomier self.old self.new }
        ensures ok { OnOk result (pieces_of (released self.old.config self.old.now) (entries_of owed.now) ≤ self.new.pieces) }
    {
        let Some(owed) = owed else {
            return Ok(());
        };
        let Some(count) = self.count_owed(owed) else {
            return Err(NoMemory);
        };
        self.reserve_pieces(count)
    }

    /// Makes room for the release of all ended tags, and for what is owed behind it.
    pub fn make_room(&mut self, owed: &Option<Owed>) -> Result<(), NoMemory>
        ensures config { self.new.config ≡ self.old.config }
        ensures now { self.new.now ≡ self.old.now }
        ensures room { OnOk result (HasTurn self.new (entries_of owed.now)) }
    {
        let ended = self.ended_len();
        self.reserve_tags(ended)?;
        self.reserve_take()?;
        self.reserve_owed(owed)
    }
}
