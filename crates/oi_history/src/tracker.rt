ghost use Rattle.std.specs.Prelude.{◌≡◌};

use crate::config::SessionConfig;
use crate::connected::{
    heard_step, leaving_step, logged_out_step, logout_step, managed_step, ping_step,
};
use crate::course::{clock_step, is_fail_fast, is_overdue, phase_step};
use crate::event::Event;
use crate::handling::{aim_of, handler_step, is_idle, is_spent};
use crate::owed::Ping;
use crate::phase::{Handler, Phase};
use crate::task::Task;

/// What an entry makes of the course of a session and of its connection.
#[derive(Clone, Copy, Debug, PartialEq, Eq)]
pub struct Tracker {
    pub clock: u64,
    pub phase: Phase,
    pub managed: u32,
    pub heard: u64,
    pub ping: Option<Ping>,
    pub leaving: bool,
    pub logout_sent: bool,
    pub logged_out: bool,
    pub handler: Handler,
}

impl Tracker {
    ghost use Rattle.std.specs.Prelude.{◌≡◌, ◌<◌, ◌-◌, ◌^◌};
    ghost use Rattle.oi_history.specs.Trackers.{tracked};

    /// The course after an event; `accepted` says whether its PDU counts.
    pub fn step(
        self,
        config: &SessionConfig,
        accepted: bool,
        tasks: &[Task],
        event: &Event,
    ) -> Tracker
        ensures { result ≡ tracked config.now accepted tasks.now event.now self }
    {
        Tracker {
            clock: clock_step(event, self.clock),
            phase: phase_step(config, self.clock, event, self.phase),
            managed: managed_step(event, self.managed),
            heard: heard_step(self.clock, accepted, event, self.heard),
            ping: ping_step(self.clock, accepted, event, self.ping),
            leaving: leaving_step(event, self.leaving),
            logout_sent: logout_step(event, self.logout_sent),
            logged_out: logged_out_step(accepted, self.leaving, event, self.logged_out),
            handler: handler_step(config, self.clock, accepted, tasks, event, self.handler),
        }
    }
}
