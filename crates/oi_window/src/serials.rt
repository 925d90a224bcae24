ghost use Rattle.std.specs.Prelude.{◌≡◌};
ghost use Rattle.oi_base.specs.Serials.{predecessor};
ghost use Rattle.oi_window.specs.Raised.{raised};

use oi_base::Serial;

/// The number before this one.
pub fn before(n: Serial) -> Serial
    ensures { result.0 ≡ predecessor n.0 }
{
    Serial(n.0.wrapping_sub(1))
}

/// A number that only rises.
pub fn raised(kept: Serial, told: Serial) -> Serial
    ensures { result.0 ≡ raised kept.0 told.0 }
{
    if kept.less(told) { told } else { kept }
}
