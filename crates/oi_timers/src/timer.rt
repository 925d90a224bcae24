ghost use Rattle.std.specs.Prelude.{◌≡◌};
ghost use Rattle.oi_timers.specs.Timers.{is_replacement_past, past};

/// Whether so many seconds have gone by since that time. Times are in milliseconds.
pub fn past(since: u64, seconds: u32, now: u64) -> bool
    ensures { result ≡ past since seconds now }
{
    since <= now && 1000 * seconds as u64 <= now - since
}

/// Whether the time for a replacement connection is over. Where the seconds are negative it never is.
pub fn replacement(since: u64, seconds: i32, now: u64) -> bool
    ensures { result ≡ is_replacement_past since seconds now }
{
    if seconds < 0 {
        return false;
    }
    past(since, seconds as u32, now)
}
