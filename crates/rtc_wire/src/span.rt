//! Spans of time.
ghost use Rattle.std.specs.Prelude.{◌≡◌, ℕ, ◌*◌, ◌^◌, ◌-◌, min};

use std::marker::Model;

/// A span of time in nanoseconds.
#[derive(Clone, Copy, Debug, PartialEq, Eq, PartialOrd, Ord)]
pub struct Span(pub(crate) u64);

impl Model for Span {
    ghost Value = { ℕ };

    ghost view = { λ s. s.0 };

    ghost inverse = { λ n. record { 0 = n } };
}

impl Span {
    pub fn from_nanos(n: u64) -> Span
        ensures { result ≡ n }
    {
        Span(n)
    }

    /// At most `u64::MAX` nanoseconds.
    pub fn from_millis(n: u64) -> Span
        ensures { result ≡ min (n * 1_000_000) (2 ^ 64 - 1) }
    {
        Span(n.saturating_mul(1_000_000))
    }

    /// At most `u64::MAX` nanoseconds.
    pub fn from_secs(n: u64) -> Span
        ensures { result ≡ min (n * 1_000_000_000) (2 ^ 64 - 1) }
    {
        Span(n.saturating_mul(1_000_000_000))
    }

    pub fn nanos(self) -> u64
        ensures { result ≡ self }
    {
        self.0
    }
}
