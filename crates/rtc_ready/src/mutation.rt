//! What one call from outside raises.
ghost use Rattle.std.specs.Prelude.{◌≡◌, false};

use crate::Wake;
use std::marker::Model;

/// The marks of a call that changes a part on a caller's behalf. It cannot be dropped: `into_wake` spends it.
#[derive(Debug)]
pub struct Mutation {
    pub(crate) wake: Wake,
}

impl Model for Mutation {
    ghost use Rattle.rtc_ready.specs.Signals.{Signals};

    ghost Value = { Signals };

    ghost view = { λ mutation. mutation.wake };

    ghost inverse = { λ signals. record { wake = signals } };
}

impl Mutation {
    /// Says that a walk meets no more than before.
    pub fn no_events(&mut self)
        ensures { self.new ≡ record self.old { events = false } }
    {
        self.wake.no_events();
    }

    /// Says that the timers are unchanged.
    pub fn no_timeout(&mut self)
        ensures { self.new ≡ record self.old { timeout = false } }
    {
        self.wake.no_timeout();
    }

    /// The wake with the marks that are left.
    pub fn into_wake(self) -> Wake
        ensures { result ≡ self }
    {
        let Mutation { wake } = self;
        wake
    }
}
