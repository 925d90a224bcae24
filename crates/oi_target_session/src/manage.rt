ghost use Rattle.std.specs.Prelude.{◌≡◌, ◌++◌, ◌∷◌, [], IfOk, OnErr, OnOk, bytes_eq, filter, not};
ghost use Rattle.std.specs.List.{list_any};
ghost use Rattle.oi_target_login.specs.Grown.{IsGrown};
ghost use Rattle.oi_target_session.specs.Answers.{bytes_of, task_response_pdu};
ghost use Rattle.oi_target_session.specs.Sessions.{aborted, managed, reset_as, reset_by, responded, spared, with_reset, with_tasks};
ghost use Rattle.oi_target_tasks.specs.Tasks.{waits_as};

use crate::answers::task_response_pdu;
use crate::fed::Fed;
use crate::reset::Reset;
use crate::session::Session;
use oi_base::{NoMemory, Tag};
use oi_pdu::{TaskManagement, write_pdu};
use oi_target_tasks::Tasks;
use oi_units::Units;

const ABORT_TASK: u8 = 1;

const LOGICAL_UNIT_RESET: u8 = 5;

const TARGET_WARM_RESET: u8 = 6;

const DONE: u8 = 0;

const NO_TASK: u8 = 1;

const NO_UNIT: u8 = 2;

const NOT_SUPPORTED: u8 = 5;

fn spare(tasks: &mut Tasks, reset: Reset)
    ensures { tasks.new ≡ spared reset tasks.old }
{
    match reset {
        Reset::Unit(lun) => tasks.drop_of_unit(lun),
        Reset::Whole => tasks.clear(),
    }
}

impl Session {
    /// Another session of the target was reset.
    pub fn reset_by(&mut self, reset: Reset)
        ensures { self.new ≡ reset_by self.old reset }
    {
        spare(&mut self.tasks, reset);
    }

    fn respond(&mut self, tag: Tag, response: u8, out: &mut Vec<u8>) -> Result<Fed, NoMemory>
        ensures session { OnOk result (self.new ≡ (responded self.old tag response).session) }
        ensures out { OnOk result (out.new.items ≡ out.old.items ++ bytes_of (responded self.old tag response).sent) }
        ensures fed { IfOk result (λ f. f ≡ (responded self.old tag response).fed) }
        ensures kept { OnErr result (IsGrown out.old.items out.new.items) }
    {
        let pdu = task_response_pdu(self.alloc, self.numbers, tag, response);
        write_pdu(&pdu, out)?;
        self.numbers = self.numbers.after_status();
        Ok(Fed::Going)
    }

    fn abort(&mut self, h: TaskManagement, out: &mut Vec<u8>) -> Result<Fed, NoMemory>
        ensures session { OnOk result (self.new ≡ (aborted self.old h).session) }
        ensures out { OnOk result (out.new.items ≡ out.old.items ++ bytes_of (aborted self.old h).sent) }
        ensures fed { IfOk result (λ f. f ≡ (aborted self.old h).fed) }
        ensures kept { OnErr result (IsGrown out.old.items out.new.items) }
    {
        let tag = h.referenced.0;
        if self.tasks.drop_waiting(tag) {
            self.respond(h.tag, DONE, out)
        } else {
            self.respond(h.tag, NO_TASK, out)
        }
    }

    fn reset(&mut self, h: TaskManagement, reset: Reset, out: &mut Vec<u8>) -> Result<Fed, NoMemory>
        ensures session { OnOk result (self.new ≡ (reset_as self.old h reset).session) }
        ensures out { OnOk result (out.new.items ≡ out.old.items ++ bytes_of (reset_as self.old h reset).sent) }
        ensures fed { IfOk result (λ f. f ≡ (reset_as self.old h reset).fed) }
        ensures kept { OnErr result (IsGrown out.old.items out.new.items) }
    {
        spare(&mut self.tasks, reset);
        self.resets.push(reset)?;
        self.respond(h.tag, DONE, out)
    }

    /// Task management (RFC 7143, section 11.5).
    pub(crate) fn manage(
        &mut self,
        units: &Units,
        h: TaskManagement,
        out: &mut Vec<u8>,
    ) -> Result<Fed, NoMemory>
        ensures session { OnOk result (self.new ≡ (managed self.old units.now h).session) }
        ensures out { OnOk result (out.new.items ≡ out.old.items ++ bytes_of (managed self.old units.now h).sent) }
        ensures fed { IfOk result (λ f. f ≡ (managed self.old units.now h).fed) }
        ensures kept { OnErr result (IsGrown out.old.items out.new.items) }
    {
        match h.function {
            ABORT_TASK => self.abort(h, out),
            LOGICAL_UNIT_RESET if units.has(h.lun) => self.reset(h, Reset::Unit(h.lun), out),
            LOGICAL_UNIT_RESET => self.respond(h.tag, NO_UNIT, out),
            TARGET_WARM_RESET => self.reset(h, Reset::Whole, out),
            _ => self.respond(h.tag, NOT_SUPPORTED, out),
        }
    }
}
