//! What is between two peers.
use crate::outputs::Outputs;
use crate::way::Way;
use rtc_wire::Moment;
use std::alloc::Global;

/// The moment that it is, the way of the datagrams, and what each of two peers gave.
#[derive(Drop)]
pub struct Wire {
    pub now: Moment,
    pub way: Way,
    pub left: Outputs,
    pub right: Outputs,
}

impl Wire {
    /// Nothing was given, at moment 0.
    pub fn new(alloc: Global, way: Way) -> Wire {
        Wire {
            now: Moment::FAR_PAST,
            way,
            left: Outputs::new(alloc),
            right: Outputs::new(alloc),
        }
    }

    /// Whether neither peer failed.
    pub fn is_faultless(&self) -> bool {
        self.left.fault.is_none() & self.right.fault.is_none()
    }
}
