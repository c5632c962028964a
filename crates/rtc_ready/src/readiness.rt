//! Signals that are kept.
ghost use Rattle.std.specs.Prelude.{◌≡◌, true, false};
ghost use Rattle.rtc_ready.specs.Signals.{both, neither, joined_signals, KeepsSignals};

use crate::{Mutation, Wake};
use std::marker::Model;

/// Two signals: a walk over the parts may meet something, and the timers may have moved.
///
/// A signal is kept until it is cleared. Each call that changes a part makes a wake, narrows it by what it knows to be
/// unchanged, and folds it in.
#[derive(Debug, Drop)]
pub struct Readiness {
    events: bool,
    timeout: bool,
}

impl Model for Readiness {
    ghost use Rattle.rtc_ready.specs.Signals.{Signals};

    ghost Value = { Signals };

    ghost view = { λ readiness. record { events = readiness.events; timeout = readiness.timeout } };

    ghost inverse = { λ signals. record { events = signals.events; timeout = signals.timeout } };
}

impl Readiness {
    /// Both signals, as if nothing is known yet.
    pub fn armed() -> Readiness
        ensures { result ≡ both }
    {
        Readiness {
            events: true,
            timeout: true,
        }
    }

    /// Whether a walk may meet something.
    pub fn wants_events(&self) -> bool
        ensures { result ≡ self.now.events }
    {
        self.events
    }

    /// Whether the timers may have moved.
    pub fn wants_timeout(&self) -> bool
        ensures { result ≡ self.now.timeout }
    {
        self.timeout
    }

    /// For after a walk that met nothing.
    pub fn clear_events(&mut self)
        ensures { self.new ≡ record self.old { events = false } }
    {
        self.events = false;
    }

    /// For after the timers were read.
    pub fn clear_timeout(&mut self)
        ensures { self.new ≡ record self.old { timeout = false } }
    {
        self.timeout = false;
    }

    /// A wake with both marks, which has to be folded.
    pub fn wake(&self) -> Wake
        ensures { result ≡ both }
    {
        Wake {
            events: true,
            timeout: true,
        }
    }

    /// A mutation with both marks, which has to become a wake.
    pub fn mutate(&self) -> Mutation
        ensures { result ≡ both }
    {
        Mutation { wake: self.wake() }
    }

    /// Spends a wake: each of its marks raises the signal.
    pub fn fold(&mut self, w: Wake)
        ensures exact { self.new ≡ joined_signals self.old w }
        ensures keeps { KeepsSignals self.old self.new }
        ensures raises { KeepsSignals w self.new }
        ensures unmarked { w ≡ neither → self.new ≡ self.old }
    {
        let Wake { events, timeout } = w;
        self.events = self.events || events;
        self.timeout = self.timeout || timeout;
    }
}
