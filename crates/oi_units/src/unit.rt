ghost use Rattle.std.specs.Prelude.{◌≡◌, ◌≤◌, IfNone, IfOk, IfSome, None, OnOk, Some};
ghost use Rattle.oi_disk.specs.Commands.{IsDiskCommand};
ghost use Rattle.oi_disk.specs.Disks.{least_disk, most_disk};
ghost use Rattle.oi_reserve.specs.Reports.{reserve_in, reserve_in_answer};
ghost use Rattle.oi_reserve.specs.Outcomes.{reserve_out};
ghost use Rattle.oi_units.specs.Replies.{reserve_answer};
ghost use Rattle.oi_units.specs.Units.{asked, asked_of_disk, by_table, fresh_unit, lent_by, most_units};

use crate::listing::unit_list;
use crate::reply::{conflict_answer, reserve_answer};
use oi_base::NoMemory;
use oi_disk::{DiskAnswer, FlatDisk, good, read_command};
use oi_reserve::{Nexus, Reservations, wish_of};
use std::alloc::Global;

/// A disk, and who may use it.
#[derive(Debug, Drop)]
pub struct LogicalUnit {
    pub disk: FlatDisk,
    pub reservations: Reservations,
}

/// Status and sense data of a command, and its data before any cut.
#[derive(Debug, Drop)]
pub struct Given {
    pub answer: DiskAnswer,
    pub bytes: Vec<u8>,
}

impl LogicalUnit {
    /// All blocks are zero, and nobody is registered.
    pub fn new(alloc: Global, blocks: u32) -> Result<LogicalUnit, NoMemory>
        requires least { least_disk ≤ blocks }
        requires most { blocks ≤ most_disk }
        ensures { IfOk result (λ u. u ≡ fresh_unit blocks) }
    {
        Ok(LogicalUnit {
            disk: FlatDisk::new(alloc, blocks)?,
            reservations: Reservations::new(alloc),
        })
    }

    /// Serves one command of this nexus. The unit is one of `count`.
    pub fn ask(
        &mut self,
        alloc: Global,
        count: u8,
        nexus: &Nexus,
        cdb: &[u8; 16],
        payload: &[u8],
    ) -> Result<Given, NoMemory>
        requires { count ≤ most_units }
        ensures answer { IfOk result (λ g. g.answer ≡ (asked count self.old nexus.now.bytes cdb.now payload.now).answer) }
        ensures bytes { IfOk result (λ g. g.bytes.items ≡ (asked count self.old nexus.now.bytes cdb.now payload.now).bytes) }
        ensures unit { OnOk result (self.new ≡ (asked count self.old nexus.now.bytes cdb.now payload.now).unit) }
    {
        match cdb[0] {
            0xa0 => Ok(Given {
                answer: good(alloc),
                bytes: unit_list(alloc, count)?,
            }),
            0x5e => self.report(alloc, cdb),
            0x5f => self.order(alloc, nexus, cdb, payload),
            _ => self.serve(alloc, nexus, cdb, payload),
        }
    }

    /// The bytes of the disk that a READ of this nexus is sent; None where it does not succeed, and for any other command.
    pub fn lend(&self, nexus: &Nexus, cdb: &[u8; 16]) -> Option<&[u8]>
        ensures some { IfSome result (λ b. lent_by self.now nexus.now.bytes cdb.now ≡ Some b.now) }
        ensures none { IfNone result (lent_by self.now nexus.now.bytes cdb.now ≡ None) }
    {
        if self.reservations.may(nexus, wish_of(read_command(cdb))) {
            self.disk.lend(cdb)
        } else {
            None
        }
    }

    // PERSISTENT RESERVE IN.
    fn report(&self, alloc: Global, cdb: &[u8; 16]) -> Result<Given, NoMemory>
        ensures answer { IfOk result (λ g. g.answer ≡ reserve_answer (reserve_in_answer cdb.now)) }
        ensures bytes { IfOk result (λ g. g.bytes.items ≡ reserve_in self.now.reservations cdb.now) }
    {
        let mut bytes = Vec::new(alloc);
        let told = self.reservations.inquire(cdb, &mut bytes)?;
        let answer = reserve_answer(alloc, told)?;
        Ok(Given { answer, bytes })
    }

    // PERSISTENT RESERVE OUT.
    fn order(
        &mut self,
        alloc: Global,
        nexus: &Nexus,
        cdb: &[u8; 16],
        payload: &[u8],
    ) -> Result<Given, NoMemory>
        ensures answer { IfOk result (λ g. g.answer ≡ (by_table self.old (reserve_out self.old.reservations nexus.now.bytes cdb.now payload.now)).answer) }
        ensures bytes { IfOk result (λ g. g.bytes.items ≡ (by_table self.old (reserve_out self.old.reservations nexus.now.bytes cdb.now payload.now)).bytes) }
        ensures unit { OnOk result (self.new ≡ (by_table self.old (reserve_out self.old.reservations nexus.now.bytes cdb.now payload.now)).unit) }
    {
        let told = self.reservations.out(nexus, cdb, payload)?;
        let answer = reserve_answer(alloc, told)?;
        let bytes = Vec::new(alloc);
        Ok(Given { answer, bytes })
    }

    // A command for the disk.
    fn serve(
        &mut self,
        alloc: Global,
        nexus: &Nexus,
        cdb: &[u8; 16],
        payload: &[u8],
    ) -> Result<Given, NoMemory>
        requires { IsDiskCommand cdb.now }
        ensures answer { IfOk result (λ g. g.answer ≡ (asked_of_disk self.old nexus.now.bytes cdb.now payload.now).answer) }
        ensures bytes { IfOk result (λ g. g.bytes.items ≡ (asked_of_disk self.old nexus.now.bytes cdb.now payload.now).bytes) }
        ensures unit { OnOk result (self.new ≡ (asked_of_disk self.old nexus.now.bytes cdb.now payload.now).unit) }
    {
        let mut bytes = Vec::new(alloc);
        if !self.reservations.may(nexus, wish_of(read_command(cdb))) {
            let answer = conflict_answer(alloc);
            return Ok(Given { answer, bytes });
        }
        let answer = self.disk.answer(alloc, cdb, payload, &mut bytes)?;
        Ok(Given { answer, bytes })
    }
}
