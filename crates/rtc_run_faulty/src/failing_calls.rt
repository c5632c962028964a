//! The calls at which parts fail.
ghost use Rattle.std.specs.Prelude.{◌≡◌, []};

use rtc_wire::Seq;
use std::alloc::Global;

/// The numbers of the calls at which a peer's DTLS part, its association and its media part fail, each counted from 0 over the calls
/// that can.
#[derive(Debug, PartialEq, Eq, Drop)]
pub struct FailingCalls {
    pub dtls: Seq<u64>,
    pub association: Seq<u64>,
    pub media: Seq<u64>,
}

impl FailingCalls {
    /// No call fails.
    pub fn none(alloc: Global) -> FailingCalls
        ensures { result ≡ record { dtls = []; association = []; media = [] } }
    {
        FailingCalls {
            dtls: Seq::empty(alloc),
            association: Seq::empty(alloc),
            media: Seq::empty(alloc),
        }
    }
}
