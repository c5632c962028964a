//! Moments that callers give.
ghost use Rattle.std.specs.Prelude.{◌≡◌, ℕ, ◌+◌, ◌^◌, ◌-◌, min};

use crate::Span;
use std::marker::Model;

/// A moment, in nanoseconds since a start that the caller chooses.
///
/// Nothing here reads a clock: each moment is given.
#[derive(Clone, Copy, Debug, PartialEq, Eq, PartialOrd, Ord)]
pub struct Moment(u64);

impl Model for Moment {
    ghost Value = { ℕ };

    ghost view = { λ m. m.0 };

    ghost inverse = { λ n. record { 0 = n } };
}

impl Moment {
    /// Before every other moment.
    pub const FAR_PAST: Moment = Moment(0);
    /// The moment of what is not to happen.
    pub const FAR_FUTURE: Moment = Moment(u64::MAX);

    pub fn from_nanos(n: u64) -> Moment
        ensures { result ≡ n }
    {
        Moment(n)
    }

    pub fn nanos(self) -> u64
        ensures { result ≡ self }
    {
        self.0
    }

    /// The moment a span later, at most `FAR_FUTURE`.
    pub fn plus(self, span: Span) -> Moment
        ensures { result ≡ min (self + span) (2 ^ 64 - 1) }
    {
        Moment(self.0.saturating_add(span.nanos()))
    }
}
