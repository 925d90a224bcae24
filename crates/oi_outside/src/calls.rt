ghost use Rattle.std.specs.Prelude.{◌≡◌};
ghost use Rattle.oi_outside.specs.Calls.{is_to_fail};

/// Whether the call with this number is one that has to fail.
pub fn is_to_fail(fails: &[u64], call: u64) -> bool
    ensures { result ≡ is_to_fail fails.now call }
{
    fails.contains(&call)
}
