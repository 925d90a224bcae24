ghost use Rattle.std.specs.Prelude.{◌≡◌, ◌++◌, OnErr, OnOk};
ghost use Rattle.oi_target_login.specs.Grown.{IsGrown};
ghost use Rattle.oi_target_session.specs.Answers.{bytes_of};
ghost use Rattle.oi_target_session.specs.Owing.{owed_pdus, paid, unready, woken};
ghost use Rattle.oi_target_session.specs.Sessions.{with_tasks};

use crate::session::Session;
use oi_base::NoMemory;
use oi_target_tasks::Task;
use oi_units::{UnitReply, Units};
use std::marker::Model;

/// A command that was executed while nothing could be written on its connection, and the reply to it.
#[derive(Debug, Drop)]
pub struct Owed {
    task: Task,
    reply: UnitReply,
}

impl Model for Owed {
    ghost use Rattle.std.specs.Prelude.{◌<◌, ◌^◌, length};
    ghost use Rattle.oi_target_session.specs.Owing as specs;

    ghost Value = { specs.Owed };

    ghost view = { λ o. record { task = o.task; reply = o.reply } };

    ghost invariant = { λ o. length o.reply.sent < 2 ^ 32 };
}

impl Session {
    /// Executes commands in order, up to the first one whose data are not complete. Their replies are owed.
    pub fn execute_ready(&mut self, units: &mut Units, owed: &mut Vec<Owed>) -> Result<(), NoMemory>
        ensures session { OnOk result (self.new ≡ with_tasks self.old (unready self.old.tasks)) }
        ensures units { OnOk result (units.new ≡ (woken self.old.nexus units.old self.old.tasks).units) }
        ensures owed { OnOk result (owed.new.items ≡ owed.old.items ++ (woken self.old.nexus units.old self.old.tasks).owed) }
    {
        while let Some(task) = self.next_ready() {
            let reply = units.execute(
                self.alloc,
                &self.nexus,
                task.command,
                task.payload.as_slice(),
            )?;
            owed.push(Owed { task, reply })?;
        }
        Ok(())
    }

    /// Writes what is owed, in order.
    pub fn pay(&mut self, owed: Vec<Owed>, out: &mut Vec<u8>) -> Result<(), NoMemory>
        ensures session { OnOk result (self.new ≡ paid self.old owed.items) }
        ensures out { OnOk result (out.new.items ≡ out.old.items ++ bytes_of (owed_pdus self.old owed.items)) }
        ensures kept { OnErr result (IsGrown out.old.items out.new.items) }
    {
        for reply in owed {
            self.reply(&reply.task, &reply.reply, out)?;
        }
        Ok(())
    }
}
