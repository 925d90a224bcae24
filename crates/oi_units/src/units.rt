ghost use Rattle.std.specs.Prelude.{◌≡◌, ◌≤◌, ◌<◌, ◌^◌, [], IfNone, IfOk, IfSome, None, OnOk, Some, All, is_some, map, length};
ghost use Rattle.oi_disk.specs.Disks.{least_disk, most_disk};
ghost use Rattle.oi_units.specs.Units.{executed, fresh_unit, lent, most_units, unit_named};

use crate::command::UnitCommand;
use crate::reply::{Lent, UnitReply, lent_part, reply_of};
use crate::unit::LogicalUnit;
use oi_base::NoMemory;
use oi_disk::illegal_request;
use oi_reserve::Nexus;
use oi_scsi::lun_bytes;
use std::alloc::Global;
use std::marker::Model;

const UNKNOWN_UNIT: u8 = 0x25;

/// The logical units of a target, numbered from 0.
#[derive(Debug, Drop)]
pub struct Units {
    units: Vec<LogicalUnit>,
}

impl Model for Units {
    ghost use Rattle.std.specs.Prelude.{List, ◌≤◌, vec_len};
    ghost use Rattle.oi_units.specs.Units.{most_units};
    ghost use Rattle.oi_units.specs.declared.unit.LogicalUnit.{LogicalUnit};

    ghost Value = { List LogicalUnit };

    ghost view = { λ u. u.units.items };

    ghost invariant = { λ u. vec_len u.units ≤ most_units };
}

impl Units {
    /// Fresh units of so many blocks of 512 bytes each.
    pub fn new(alloc: Global, blocks: &[u32]) -> Result<Units, NoMemory>
        requires count { length blocks.now ≤ most_units }
        requires sizes { All (λ n. (least_disk ≤ n) × (n ≤ most_disk)) blocks.now }
        ensures { IfOk result (λ u. u ≡ map fresh_unit blocks.now) }
    {
        let mut units = Vec::new(alloc);
        for count in blocks {
            units.push(LogicalUnit::new(alloc, *count)?)?;
        }
        Ok(Units { units })
    }

    /// Whether there is a unit with this number.
    pub fn has(&self, lun: [u8; 8]) -> bool
        ensures { result ≡ is_some (unit_named self.now lun) }
    {
        lun == lun_bytes(lun[1]) && (lun[1] as usize) < self.units.len()
    }

    /// What a command of this nexus is answered that is sent data of a disk: such a command needs no `execute`, since it changes
    /// nothing. None for any other command.
    pub fn lend(&self, nexus: &Nexus, command: UnitCommand) -> Option<Lent<'_>>
        ensures some { IfSome result (λ l. lent self.now nexus.now.bytes command ≡ Some (record { status = 0; sense = []; residual = l.residual; sent = l.bytes.now })) }
        ensures none { IfNone result (lent self.now nexus.now.bytes command ≡ None) }
        ensures size { IfSome result (λ l. (0 < length l.bytes.now) × (length l.bytes.now < 2 ^ 32)) }
    {
        let place = command.lun[1] as usize;
        if command.lun != lun_bytes(command.lun[1]) || place >= self.units.len() {
            return None;
        }
        match self.units[place].lend(nexus, &command.cdb) {
            Some(bytes) => lent_part(command, bytes),
            None => None,
        }
    }

    /// Executes one command of this nexus with the data that came for it.
    ///
    /// # Errors
    ///
    /// Memory for the data that are sent, for sense data, or for a registration. The command may then be executed or not.
    pub fn execute(
        &mut self,
        alloc: Global,
        nexus: &Nexus,
        command: UnitCommand,
        payload: &[u8],
    ) -> Result<UnitReply, NoMemory>
        ensures reply { IfOk result (λ r. r ≡ (executed self.old nexus.now.bytes command payload.now).reply) }
        ensures size { IfOk result (λ r. length r.sent < 2 ^ 32) }
        ensures units { OnOk result (self.new ≡ (executed self.old nexus.now.bytes command payload.now).units) }
    {
        let place = command.lun[1] as usize;
        if command.lun != lun_bytes(command.lun[1]) || place >= self.units.len() {
            let answer = illegal_request(alloc, UNKNOWN_UNIT)?;
            return Ok(reply_of(command, answer, Vec::new(alloc)));
        }
        let count = self.units.len() as u8;
        let given = self.units[place].ask(alloc, count, nexus, &command.cdb, payload)?;
        Ok(reply_of(command, given.answer, given.bytes))
    }
}
