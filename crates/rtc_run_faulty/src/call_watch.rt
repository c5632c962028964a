//! The calls of a part that fails.
use rtc_faulty::{CallCounts, CallKind};
use std::alloc::{AllocError, Global};
use std::rc::Rc;

/// Counts of the calls of a part that fails at listed calls: of all of them, and of those that reach the part inside. A test keeps it
/// while a peer owns the part.
#[derive(Drop)]
pub struct CallWatch {
    made: Rc<CallCounts>,
    reached: Rc<CallCounts>,
}

impl CallWatch {
    /// No call was made.
    pub fn new(alloc: Global) -> Result<CallWatch, AllocError> {
        let made = Rc::new(alloc, CallCounts::new())?;
        let reached = Rc::new(alloc, CallCounts::new())?;
        Ok(CallWatch { made, reached })
    }

    /// How many calls of a kind failed without reaching the part inside.
    pub fn faults(&self, kind: CallKind) -> u64 {
        self.made.of(kind).saturating_sub(self.reached.of(kind))
    }

    /// How many calls failed without reaching the part inside.
    pub fn total_faults(&self) -> u64 {
        self.made.total().saturating_sub(self.reached.total())
    }

    /// The counts of all calls.
    pub(crate) fn made(&self) -> Result<Rc<CallCounts>, AllocError> {
        Rc::clone(&self.made)
    }

    /// The counts of the calls that reach the part inside.
    pub(crate) fn reached(&self) -> Result<Rc<CallCounts>, AllocError> {
        Rc::clone(&self.reached)
    }
}
