//! A part that fails.
ghost use Rattle.std.specs.Prelude.{◌≡◌};

use crate::call_numbers::CallNumbers;

/// A part that fails at listed calls.
///
/// Its calls that can return a fault are numbered from 0: of a DTLS part and of an association those that return
/// `Fault`, of a media part `handle_timeout` and `poll_event_fallible`. A call whose number is listed returns the
/// fault (`MediaError::Rtp` of a media part) and does not reach the part inside. A call that reaches it uses no number
/// if it is a `poll_event_fallible`, a `stream_read` that gives none, or refused as `WouldBlock`, `StreamExists` or
/// `ResetPending`. The numbers end at `u64::MAX`; no later call fails.
pub struct Faulty<P> {
    pub(crate) inner: P,
    pub(crate) numbers: CallNumbers,
}

// Written out, so that the proof of what owns a part sees one call and not the drop of each field.
impl<P: Drop> Drop for Faulty<P> {
    fn drop(self) {
        let Faulty {
            inner: _inner,
            numbers: _numbers,
        } = self;
    }
}

impl<P> Faulty<P> {
    /// A part that fails at the calls with these numbers. Over a fresh part it is fresh. No memory is taken.
    pub fn new(inner: P, failing: Vec<u64>) -> Faulty<P>
        ensures { result ≡ record { inner = inner; numbers = record { failing = failing.items; used = 0; faults = 0 } } }
    {
        Faulty {
            inner,
            numbers: CallNumbers::new(failing),
        }
    }

    /// How many calls failed without reaching the part inside, up to `u64::MAX`.
    pub fn faults(&self) -> u64
        ensures { result ≡ self.now.numbers.faults }
    {
        self.numbers.faults()
    }
}
