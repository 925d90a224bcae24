use crate::event::Event;
use crate::ledger::Ledger;
use crate::ledger_steps::task_at;
use crate::queueing::{count_drawn, count_unasked};
use oi_base::NoMemory;

impl Ledger {
    ghost use Rattle.std.specs.Prelude.{◌≡◌, ◌≤◌, ◌<◌, None, IfSome, IsOk, OnOk, length, slice_get};
    ghost use Rattle.oi_base.specs.declared.tag.Tag.{Tag};
    ghost use Rattle.oi_history.specs.Ledgers.{HasRoom, IsRoomier, NeedsNoMemory, freed_by, heard_by, queued_in};
    ghost use Rattle.oi_history.specs.Queues.{drawn, unasked};
    ghost use Rattle.oi_history.specs.Submitted.{taken_by};

    // Room for what an entry moves, and for what it brings in.
    #[tactic(auto, using(crate::proofs::Reserved::freed_quiet, crate::proofs::Reserved::heard_quiet))]
    pub(crate) fn reserve(&mut self, event: &Event) -> Result<(), NoMemory>
        ensures roomier { IsRoomier self.old self.new }
        ensures ok { OnOk result (HasRoom self.new event.now) }
        ensures succeeds { NeedsNoMemory self.old event.now → IsOk result }
    {
        self.reserve_releases(event)?;
        self.reserve_takes(event)?;
        self.reserve_queued(event)?;
        self.reserve_hears(event)
    }

    // Room for the tags that it frees.
    fn reserve_releases(&mut self, event: &Event) -> Result<(), NoMemory>
        ensures roomier { IsRoomier self.old self.new }
        ensures ok { OnOk result (freed_by self.old.config.cmds_max event.now ≤ self.new.releases) }
        ensures succeeds { freed_by self.old.config.cmds_max event.now ≤ self.old.releases → IsOk result }
    {
        match event {
            Event::Login { .. } => self.reserve_tags(self.config.cmds_max as usize),
            Event::Reap { .. } => self.reserve_tags(1),
            _ => Ok(()),
        }
    }

    // Room for a command.
    fn reserve_takes(&mut self, event: &Event) -> Result<(), NoMemory>
        ensures roomier { IsRoomier self.old self.new }
        ensures ok { OnOk result (taken_by event.now ≤ self.new.takes) }
        ensures succeeds { taken_by event.now ≤ self.old.takes → IsOk result }
    {
        match event {
            Event::Issue { .. } => self.reserve_take(),
            _ => Ok(()),
        }
    }

    // Room for the data that it queues.
    fn reserve_queued(&mut self, event: &Event) -> Result<(), NoMemory>
        ensures roomier { IsRoomier self.old self.new }
        ensures ok { OnOk result (queued_in self.old.now event.now ≤ self.new.pieces) }
        ensures succeeds { queued_in self.old.now event.now ≤ self.old.pieces → IsOk result }
    {
        match event {
            Event::Issue { id, .. } => self.reserve_pieces(self.count_unasked(*id)),
            Event::Draw { .. } => self.reserve_drawn(),
            _ => Ok(()),
        }
    }

    // Room for what it may bring in.
    fn reserve_hears(&mut self, event: &Event) -> Result<(), NoMemory>
        ensures roomier { IsRoomier self.old self.new }
        ensures ok { OnOk result (heard_by event.now ≤ self.new.hears) }
        ensures succeeds { heard_by event.now ≡ 0 → IsOk result }
    {
        match event {
            Event::PduIn { .. } => self.reserve_heard(),
            _ => Ok(()),
        }
    }

    // Room for the release of so many tags.
    pub(crate) fn reserve_tags(&mut self, count: usize) -> Result<(), NoMemory>
        ensures roomier { IsRoomier self.old self.new }
        ensures ok { OnOk result (count ≤ self.new.releases) }
        ensures succeeds { count ≤ self.old.releases → IsOk result }
    {
        self.free.reserve(count)?;
        Ok(())
    }

    // Room for so many Data-Outs.
    pub(crate) fn reserve_pieces(&mut self, count: usize) -> Result<(), NoMemory>
        ensures roomier { IsRoomier self.old self.new }
        ensures ok { OnOk result (count ≤ self.new.pieces) }
        ensures succeeds { count ≤ self.old.pieces → IsOk result }
    {
        self.queue.reserve(count)?;
        Ok(())
    }

    // Room for one command more.
    pub(crate) fn reserve_take(&mut self) -> Result<(), NoMemory>
        ensures roomier { IsRoomier self.old self.new }
        ensures ok { OnOk result (1 ≤ self.new.takes) }
        ensures succeeds { 1 ≤ self.old.takes → IsOk result }
    {
        self.busy.reserve(1)?;
        self.submissions.reserve()
    }

    // The pieces that follow the command of a submission unasked.
    pub(crate) fn count_unasked(&self, id: u64) -> usize
        ensures { (tag : Tag) → result ≡ length (unasked self.now.now.params id tag (slice_get self.now.now.tasks id)) }
    {
        count_unasked(self.params, task_at(self.submissions.tasks(), id))
    }

    // The pieces that all R2Ts ask for which still count, where the number fits.
    pub(crate) fn count_drawn(&self) -> Option<usize>
        ensures some { IfSome result (λ n. n ≡ length (drawn self.now.now.params self.now.now.busy self.now.now.tasks self.now.now.solicited)) }
        ensures none { result ≡ None → self.now.pieces < length (drawn self.now.now.params self.now.now.busy self.now.now.tasks self.now.now.solicited) }
    {
        count_drawn(
            self.params,
            &self.busy,
            self.submissions.tasks(),
            &self.solicited,
        )
    }

    // Room for the data that they ask for.
    pub(crate) fn reserve_drawn(&mut self) -> Result<(), NoMemory>
        ensures roomier { IsRoomier self.old self.new }
        ensures ok { OnOk result (length (drawn self.old.now.params self.old.now.busy self.old.now.tasks self.old.now.solicited) ≤ self.new.pieces) }
        ensures succeeds { length (drawn self.old.now.params self.old.now.busy self.old.now.tasks self.old.now.solicited) ≤ self.old.pieces → IsOk result }
    {
        let Some(count) = self.count_drawn() else {
            return Err(NoMemory);
        };
        self.reserve_pieces(count)
    }

    // Room for an R2T, a NOP-In and an Async Message.
    fn reserve_heard(&mut self) -> Result<(), NoMemory>
        ensures roomier { IsRoomier self.old self.new }
        ensures ok { OnOk result (1 ≤ self.new.hears) }
    {
        self.solicited.reserve(1)?;
        self.echoes.reserve(1)?;
        self.asked.reserve(1)?;
        Ok(())
    }
}
