//! Values that are dropped by a call, so that the drop is not written out in a function.
ghost use Rattle.std.specs.Prelude.{◌≡◌};

/// Returns what was said of something, once that is dropped: the drop is then one call for its owner.
pub fn release<P: Drop, T>(_done: P, told: T) -> T
    ensures { result ≡ told }
{
    told
}
