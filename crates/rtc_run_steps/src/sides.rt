//! Sides of a pair.
ghost use Rattle.std.specs.Prelude.{◌≡◌};
ghost use Rattle.rtc_run_history.specs.Sides.{same_side};

use rtc_run_history::Side;

/// Whether two sides are the same.
pub fn is_same_side(a: Side, b: Side) -> bool
    ensures { result ≡ same_side a b }
{
    a == b
}
