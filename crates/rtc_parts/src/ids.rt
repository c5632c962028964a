//! Sources of numbers.
ghost use Rattle.std.specs.Prelude.{◌≡◌};
ghost use Rattle.rtc_parts.specs.Draws.{Draws};

/// A source of the numbers of which names, credentials and SSRCs are made.
pub trait Ids {
    /// What a draw returns, and the source after it.
    ghost ids: { Draws Self };

    /// The next number.
    fn draw(&mut self) -> u64
        ensures value { result ≡ ids.drawn self.old }
        ensures after { self.new ≡ ids.after self.old };
}
