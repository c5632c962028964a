//! A part whose calls are counted.
ghost use Rattle.std.specs.Prelude.{◌≡◌};

use crate::CallCounts;
use std::marker::Model;
use std::rc::Rc;

/// A part whose calls are counted. To a contract it is the part inside: each call does what that part's does, and the
/// counts are no part of the value.
pub struct Counted<P> {
    pub(crate) inner: P,
    pub(crate) calls: Rc<CallCounts>,
}

impl<P> Model for Counted<P> {
    ghost Value = { P };

    ghost view = { λ a. a.inner };
}

// Written out, so that the proof of what owns a part sees one call and not the drop of each field.
impl<P: Drop> Drop for Counted<P> {
    fn drop(self) {
        let Counted {
            inner: _inner,
            calls: _calls,
        } = self;
    }
}

impl<P> Counted<P> {
    /// A part whose calls are added to these counts, which other parts may share. No memory is taken.
    pub fn new(inner: P, calls: Rc<CallCounts>) -> Counted<P>
        ensures { result ≡ inner }
    {
        Counted { inner, calls }
    }

    /// The counts of the calls.
    pub fn calls(&self) -> &CallCounts {
        &self.calls
    }
}
