ghost use Rattle.std.specs.Prelude.{◌≡◌, ◌≤◌, false, unsigned_abs};
ghost use Rattle.oi_history.specs.Configs.{IsValidConfig};
ghost use Rattle.oi_script.specs.Applied.{applied};
ghost use Rattle.oi_script.specs.Settings.{IsValueOf, least, may_be_endless, most};

use crate::settings::Setting;
use oi_history::SessionConfig;

impl Setting {
    // The value without its sign.
    fn magnitude(self, value: i64) -> u64
        requires { IsValueOf self value }
        ensures value { result ≡ unsigned_abs value }
        ensures most { result ≤ most self }
        ensures least { may_be_endless self ≡ false → least self ≤ result }
    {
        value.unsigned_abs()
    }

    /// The settings of a session with this one changed.
    pub fn apply(self, value: i64, config: SessionConfig) -> SessionConfig
        requires { IsValueOf self value }
        ensures config { result ≡ applied self value config }
        ensures valid { IsValidConfig config → IsValidConfig result }
    {
        let n = self.magnitude(value);
        let mut config = config;
        match self {
            Setting::Tries => config.tries = n as u8,
            Setting::Replacement => config.replacement = value as i32,
            Setting::NoopOutInterval => config.noop_interval = n as u32,
            Setting::NoopOutTimeout => config.noop_timeout = n as u32,
            Setting::AbortTimeout => config.abort = n as u32,
            Setting::LuResetTimeout => config.lun_reset = n as u32,
            Setting::TgtResetTimeout => config.target_reset = n as u32,
            Setting::CmdsMax => config.cmds_max = n as u16,
            Setting::Steps => config.steps = n,
            Setting::Kept => config.kept = n,
            Setting::QueueDepth => config.queue_depth = n as u16,
            Setting::CountDisrupted => config.count_disrupted = n == 1,
        }
        config
    }
}
