//! What one call raises.
ghost use Rattle.std.specs.Prelude.{◌≡◌, false};

use std::marker::Model;

/// A mark for each signal that a call may have raised. It cannot be dropped: `Readiness::fold` spends it.
#[derive(Debug)]
pub struct Wake {
    pub(crate) events: bool,
    pub(crate) timeout: bool,
}

impl Model for Wake {
    ghost use Rattle.rtc_ready.specs.Signals.{Signals};

    ghost Value = { Signals };

    ghost view = { λ wake. record { events = wake.events; timeout = wake.timeout } };

    ghost inverse = { λ signals. record { events = signals.events; timeout = signals.timeout } };
}

impl Wake {
    /// Says that a walk meets no more than before.
    pub fn no_events(&mut self)
        ensures { self.new ≡ record self.old { events = false } }
    {
        self.events = false;
    }

    /// Says that the timers are unchanged.
    pub fn no_timeout(&mut self)
        ensures { self.new ≡ record self.old { timeout = false } }
    {
        self.timeout = false;
    }
}
