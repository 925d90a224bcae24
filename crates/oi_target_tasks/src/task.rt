ghost use Rattle.std.specs.Prelude.{◌≡◌, ◌≤◌, IfOk, OnErr, OnOk, length, true, if◌then◌else◌};
ghost use Rattle.oi_target_tasks.specs.Tasks.{asking_by, grown, is_asking, is_stray, is_waiting, new_task, waits_as};

use oi_base::{Blob, NoMemory, Tag};
use oi_pdu::{DataOut, ScsiCommand};
use oi_units::UnitCommand;
use std::alloc::Global;
use std::mem;

/// A command that came and was not executed yet.
#[derive(Debug, Drop)]
pub struct Task {
    pub tag: Tag,
    pub command: UnitCommand,
    /// The data that came for it so far.
    pub payload: Blob,
    /// The target transfer tag of its last R2T.
    pub transfer: u32,
    /// Where the data that this R2T asked for end.
    pub end: u32,
    /// How many R2Ts it had.
    pub asked: u32,
}

impl Task {
    /// A command with its immediate data.
    pub fn new(h: ScsiCommand, payload: Blob) -> Task
        ensures { result ≡ new_task h payload }
    {
        let lun = h.lun;
        let cdb = h.cdb;
        Task {
            tag: h.tag,
            command: UnitCommand {
                lun,
                cdb,
                reads: h.reads,
                writes: h.writes,
                length: h.length,
            },
            payload,
            transfer: 0,
            end: 0,
            asked: 0,
        }
    }

    /// Whether its data are not complete.
    pub fn is_waiting(&self) -> bool
        ensures { result ≡ is_waiting self.now }
    {
        self.command.writes && self.payload.as_slice().len() < self.command.length as usize
    }

    /// Whether it waits for data under this tag.
    pub fn waits_as(&self, tag: u32) -> bool
        ensures { result ≡ waits_as tag self.now }
    {
        self.tag.0 == tag && self.is_waiting()
    }

    /// Whether these data are not what its R2T asked for.
    pub fn is_stray(&self, h: DataOut, payload: &[u8]) -> bool
        ensures { result ≡ is_stray self.now h payload.now }
    {
        let place = self.payload.as_slice().len();
        h.ttt != self.transfer
            || h.offset as usize != place
            || (self.end as usize) < place + payload.len()
    }

    /// Whether its R2T is answered, and more is missing.
    pub fn is_asking(&self) -> bool
        ensures { result ≡ is_asking self.now }
    {
        self.payload.as_slice().len() == self.end as usize && self.is_waiting()
    }

    /// Asks for the next part.
    pub fn ask(&mut self, transfer: u32, burst: u32)
        ensures { self.new ≡ asking_by transfer burst self.old }
    {
        let end = self.payload.as_slice().len() + burst as usize;
        self.transfer = transfer;
        self.end = end.min(self.command.length as usize) as u32;
        self.asked = self.asked.wrapping_add(1);
    }

    /// Takes more data.
    pub fn grow(&mut self, alloc: Global, payload: &[u8]) -> Result<(), NoMemory>
        ensures ok { OnOk result (self.new ≡ grown self.old payload.now) }
        ensures err { OnErr result (self.new ≡ self.old) }
    {
        let mut joined = mem::replace(&mut self.payload, Blob::new(alloc)).into_vec();
        let extended = joined.extend_from_slice(payload);
        self.payload = Blob::from_vec(joined);
        extended?;
        Ok(())
    }

    /// Takes more data, and asks for the next part where its R2T is answered and more is missing. Tells whether it asked.
    pub fn fill(
        &mut self,
        alloc: Global,
        payload: &[u8],
        transfer: u32,
        burst: u32,
    ) -> Result<bool, NoMemory>
        ensures asked { IfOk result (λ asked. asked ≡ is_asking (grown self.old payload.now)) }
        ensures task { IfOk result (λ asked. self.new ≡ (if asked then asking_by transfer burst (grown self.old payload.now) else grown self.old payload.now)) }
        ensures end { IfOk result (λ asked. asked ≡ true → length self.new.payload ≤ self.new.end) }
        ensures err { OnErr result (self.new ≡ self.old) }
    {
        self.grow(alloc, payload)?;
        if !self.is_asking() {
            return Ok(false);
        }
        self.ask(transfer, burst);
        Ok(true)
    }
}
