use crate::answers::{
    AbortRefused, AlreadyEnded, ControlRefused, LoginRefused, LostDone, Receipt, Received,
    StepRefused, SubmitRefused, Ticked, Transmit,
};
use crate::kept::{self, Kept};
use crate::run::Run;
use crate::{asking, calls, ending, turn};
use oi_base::{LoginDone, NoMemory};
use oi_history::{Delivered, End, LostCause, Phase, SessionConfig};
use oi_pdu::Pdu;
use oi_scsi::Request;
use oi_window::Window;
use std::alloc::Global;
use std::marker::Model;

/// A session for one thread.
#[derive(Debug, Drop)]
pub struct Solo {
    kept: Kept,
}

impl Model for Solo {
    ghost use Rattle.oi_solo.specs.Cores.{IsKept, session_of};
    ghost use Rattle.oi_solo.specs.Sessions.{Session};

    ghost Value = { Session };

    ghost view = { λ s. session_of s.kept };

    ghost invariant = { λ s. IsKept s.kept };
}

impl Solo {
    ghost use Rattle.std.specs.Prelude.{◌≡◌, ◌≤◌, ◌<◌, ◌^◌, [], IfOk};
    ghost use Rattle.oi_base.specs.Counts.{told};
    ghost use Rattle.oi_history.specs.Configs.{IsValidConfig};
    ghost use Rattle.oi_history.specs.Permitted.{ArePermitted};
    ghost use Rattle.oi_history.specs.declared.event.Event.TheVariants.{ResetLun, ResetTarget};
    ghost use Rattle.oi_scsi.specs.Requests.{IsValid};
    ghost use Rattle.oi_solo.specs.Calls.{Aborts, Delivers, Ends, Leaves, LogsIn, Loses, Receives, Resets, Submits, Ticks, Transmits};
    ghost use Rattle.oi_solo.specs.Sessions.{now_of, pending_of, run_of};

    /// A session without entries.
    pub fn new(alloc: Global, config: SessionConfig) -> Result<Solo, NoMemory>
        requires { IsValidConfig config }
        ensures { IfOk result (λ s. s ≡ record { config = config; history = [] }) }
    {
        Ok(Solo {
            kept: kept::new(alloc, config)?,
        })
    }

    /// Takes a request. Refused where the session has ended, and where 1,024 submissions are not done.
    pub fn submit(&mut self, request: Request) -> Result<Receipt, SubmitRefused>
        requires { IsValid request.kind }
        ensures { Submits self.old request result self.new }
    {
        calls::submit(&mut self.kept, request)
    }

    /// The session is in the full feature phase of a new connection. Answers its generation.
    pub fn logged_in(&mut self, done: LoginDone) -> Result<u64, LoginRefused>
        requires { 1 ≤ done.params.max_send }
        ensures { LogsIn self.old done result self.new }
    {
        calls::logged_in(&mut self.kept, done)
    }

    /// Takes a PDU that came in on the connection with this generation. It is always entered.
    pub fn receive(&mut self, generation: u64, pdu: Pdu) -> Result<Received, StepRefused>
        ensures { Receives self.old generation pdu result self.new }
    {
        calls::receive(&mut self.kept, generation, pdu)
    }

    /// The connection with this generation is lost, for this cause (RFC 7143, section 7.14).
    pub fn lost(&mut self, generation: u64, cause: LostCause) -> Result<LostDone, StepRefused>
        ensures { Loses self.old generation cause result self.new }
    {
        calls::lost(&mut self.kept, generation, cause)
    }

    /// The clock is read, in milliseconds. A clock that falls is taken to stand still.
    pub fn tick(&mut self, now: u64) -> Result<Ticked, StepRefused>
        requires { now < 2 ^ 53 }
        ensures { Ticks self.old now result self.new }
    {
        asking::tick(&mut self.kept, now)
    }

    /// Begins the abort of a submission (RFC 7143, section 11.5.1); one that waits fails at once.
    pub fn abort(&mut self, id: u64) -> Result<(), AbortRefused>
        ensures { Aborts self.old id result self.new }
    {
        asking::abort(&mut self.kept, id)
    }

    /// Begins the reset of a logical unit.
    pub fn reset_lun(&mut self, lun: u8) -> Result<(), ControlRefused>
        ensures { Resets (ResetLun lun) self.old result self.new }
    {
        asking::reset_lun(&mut self.kept, lun)
    }

    /// Begins the reset of the target.
    pub fn reset_target(&mut self) -> Result<(), ControlRefused>
        ensures { Resets ResetTarget self.old result self.new }
    {
        asking::reset_target(&mut self.kept)
    }

    /// Asks for a logout (RFC 7143, section 11.14). A second one is entered and changes nothing else.
    pub fn leave(&mut self) -> Result<(), ControlRefused>
        ensures { Leaves self.old result self.new }
    {
        asking::leave(&mut self.kept)
    }

    /// Releases all tags that ended and appends the next PDU for the connection with this generation: at most one. Where
    /// only tags were released it answers that nothing is to be sent.
    pub fn transmit_next(
        &mut self,
        generation: u64,
        out: &mut Vec<u8>,
    ) -> Result<Transmit, StepRefused>
        ensures { Transmits self.old generation out.old.items result self.new out.new.items }
    {
        turn::transmit_next(&mut self.kept, generation, out)
    }

    /// Ends the session. This takes no memory and keeps within no limit.
    pub fn terminate(&mut self, cause: End) -> Result<(), AlreadyEnded>
        ensures { Ends self.old cause result self.new }
    {
        ending::terminate(&mut self.kept, cause)
    }

    /// Hands out all that is done and was not handed out, in ascending id.
    pub fn deliver(&mut self, out: &mut Vec<Delivered>) -> Result<u32, StepRefused>
        ensures { Delivers self.old out.old.items result self.new out.new.items }
    {
        calls::deliver(&mut self.kept, out)
    }

    /// The settings of the session.
    pub fn config(&self) -> SessionConfig
        ensures config { result ≡ self.now.config }
        ensures valid { IsValidConfig result }
    {
        calls::config(&self.kept)
    }

    /// The last reading of the clock, in milliseconds; 0 before the first one.
    pub fn clock(&self) -> u64
        ensures { result ≡ (now_of self.now).clock }
    {
        calls::clock(&self.kept)
    }

    /// Where the session stands.
    pub fn phase(&self) -> Phase
        ensures phase { result ≡ (now_of self.now).phase }
        ensures legal { ArePermitted self.now.config self.now.history }
    {
        calls::phase(&self.kept)
    }

    /// The command numbers: the next one, and what the target said of them (RFC 7143, section 4.2.2.1).
    pub fn window(&self) -> Window
        ensures { result ≡ (now_of self.now).window }
    {
        calls::window(&self.kept)
    }

    /// How many submissions are not done.
    pub fn pending(&self) -> u32
        ensures { result ≡ told (pending_of (now_of self.now)) }
    {
        calls::pending(&self.kept)
    }

    /// A response to the Logout that was asked for has come.
    pub fn logged_out(&self) -> bool
        ensures { result ≡ (now_of self.now).logged_out }
    {
        calls::logged_out(&self.kept)
    }

    /// What the session came to.
    pub fn close(self) -> Run
        ensures { result ≡ run_of self }
    {
        let Solo { kept } = self;
        Run::new(kept)
    }
}
