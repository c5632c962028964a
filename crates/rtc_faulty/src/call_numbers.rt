//! The numbers of the calls that can fail.
ghost use Rattle.std.specs.Prelude.{◌≡◌, if◌then◌else◌};
ghost use Rattle.rtc_faulty.specs.Numbering.{is_failing, call_failed, number_used};

use std::marker::Model;

/// Numbers of calls from 0 to `u64::MAX`, and those of them at which a call fails. A later call has no number, and does
/// not fail.
pub struct CallNumbers {
    failing: Vec<u64>,
    next: Option<u64>,
    faults: u64,
}

impl Model for CallNumbers {
    ghost use Rattle.rtc_faulty.specs.Numbering.{Numbering, used_before};

    ghost Value = { Numbering };

    ghost view = { λ a. record { failing = a.failing.items; used = used_before a.next; faults = a.faults } };
}

// Written out, so that the proof of what owns the numbers sees one call and not the drop of each field.
impl Drop for CallNumbers {
    fn drop(self) {
        let CallNumbers {
            failing: _failing,
            next: _next,
            faults: _faults,
        } = self;
    }
}

impl CallNumbers {
    /// No number is used, and no call failed.
    pub(crate) fn new(failing: Vec<u64>) -> CallNumbers
        ensures { result ≡ record { failing = failing.items; used = 0; faults = 0 } }
    {
        CallNumbers {
            failing,
            next: Some(0),
            faults: 0,
        }
    }

    /// Whether the next call with a number is to fail.
    fn is_due(&self) -> bool
        ensures { result ≡ is_failing self.now }
    {
        match self.next {
            Some(next) => self.failing.as_slice().contains(&next),
            None => false,
        }
    }

    /// Uses a number, if one is left.
    pub(crate) fn use_number(&mut self)
        ensures { self.new ≡ number_used self.old }
    {
        if let Some(next) = self.next {
            self.next = if next < u64::MAX {
                Some(next + 1)
            } else {
                None
            };
        }
    }

    /// Whether the next call with a number is to fail. If so, its number is used and the fault is counted.
    pub(crate) fn fail(&mut self) -> bool
        ensures due { result ≡ is_failing self.old }
        ensures after { self.new ≡ (if is_failing self.old then call_failed self.old else self.old) }
    {
        if !self.is_due() {
            return false;
        }
        self.use_number();
        let faults = self.faults;
        self.faults = faults.saturating_add(1);
        true
    }

    /// How many calls failed, up to `u64::MAX`.
    pub(crate) fn faults(&self) -> u64
        ensures { result ≡ self.now.faults }
    {
        self.faults
    }
}
