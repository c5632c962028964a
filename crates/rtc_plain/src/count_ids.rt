//! Numbers that count up.
ghost use Rattle.std.specs.Prelude.{◌≡◌, ℕ, ◌+◌, ◌%◌, ◌^◌};

use rtc_parts::Ids;
use std::marker::Model;

/// Numbers that count up by one, and begin again at 0 after `u64::MAX`.
///
/// They are for tests and simulations: whoever knows one knows the next.
#[derive(Debug, Drop)]
pub struct CountIds {
    next: u64,
}

impl Model for CountIds {
    ghost Value = { ℕ };

    ghost view = { λ ids. ids.next };
}

impl CountIds {
    /// The numbers from `n` on.
    pub fn starting(n: u64) -> CountIds
        ensures { result ≡ n }
    {
        CountIds { next: n }
    }
}

impl Ids for CountIds {
    ghost ids = { record { drawn = λ n. n; after = λ n. (n + 1) % 2 ^ 64 } };

    fn draw(&mut self) -> u64 {
        let n = self.next;
        self.next = n.wrapping_add(1);
        n
    }
}
