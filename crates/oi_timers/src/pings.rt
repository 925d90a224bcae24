ghost use Rattle.std.specs.Prelude.{◌≡◌};
ghost use Rattle.oi_timers.specs.Ping.{ping_due};

use crate::timer::past;

/// What is to be done about pings.
#[derive(Clone, Copy, Debug, PartialEq, Eq)]
pub enum PingDue {
    /// The outstanding ping was not answered in time.
    TimedOut,
    /// A ping is to be sent.
    Send,
    Nothing,
}

/// What is due on a connection on which a PDU came last at `heard`, and where `sent` is the time of the outstanding
/// ping. Times are in milliseconds, interval and timeout in seconds; with the interval 0 no ping is sent.
pub fn ping(heard: u64, sent: Option<u64>, interval: u32, timeout: u32, now: u64) -> PingDue
    ensures { result ≡ ping_due heard sent interval timeout now }
{
    match sent {
        Some(sent) if past(sent, timeout, now) => PingDue::TimedOut,
        None if interval != 0 && past(heard, interval, now) => PingDue::Send,
        _ => PingDue::Nothing,
    }
}
