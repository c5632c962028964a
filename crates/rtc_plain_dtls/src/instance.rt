//! The plain part.
ghost use Rattle.std.specs.Prelude.{◌≡◌};
ghost use Rattle.rtc_plain_dtls.specs.Contents.{fresh_dtls};

use crate::output::Output;
use crate::phase::Phase;
use crate::short::Short;
use rtc_wire::{Bytes, Moment};
use std::alloc::Global;
use std::collections::VecDeque;
use std::marker::Model;

/// A DTLS part in memory without security: certificates and data are sent as they are.
///
/// The active side sends its certificate as a hello until it receives the passive side's, which it acknowledges by a
/// finish. The passive side sends its own until it receives the finish or application data.
pub struct PlainDtls {
    pub(crate) alloc: Global,
    pub(crate) cert: Bytes,
    pub(crate) phase: Phase,
    pub(crate) greatest: Moment,
    pub(crate) closed: bool,
    pub(crate) notified: bool,
    pub(crate) packets: VecDeque<Short>,
    pub(crate) outputs: VecDeque<Output>,
}

impl Model for PlainDtls {
    ghost use Rattle.std.specs.Prelude.{◌≤◌, length};
    ghost use Rattle.rtc_plain_dtls.specs.Contents.{DtlsContents};

    ghost Value = { DtlsContents };

    ghost view = { λ a. record {
      cert = a.cert;
      phase = a.phase;
      greatest = a.greatest;
      closed = a.closed;
      notified = a.notified;
      packets = a.packets.items;
      outputs = a.outputs.items;
    } };

    ghost invariant = { λ a. length a.cert ≤ 1900 };
}

// Written out, so that the proof of what owns a part sees one call and not the drop of each field.
impl Drop for PlainDtls {
    fn drop(self) {
        let PlainDtls {
            alloc: _alloc,
            cert: _cert,
            phase: _phase,
            greatest: _greatest,
            closed: _closed,
            notified: _notified,
            packets: _packets,
            outputs: _outputs,
        } = self;
    }
}

impl PlainDtls {
    /// A part without a certificate and without a role. No memory is taken.
    pub fn new(alloc: Global) -> PlainDtls
        ensures { result ≡ fresh_dtls }
    {
        PlainDtls {
            alloc,
            cert: Bytes::new(Vec::new(alloc)),
            phase: Phase::NoRole,
            greatest: Moment::FAR_PAST,
            closed: false,
            notified: false,
            packets: VecDeque::new(alloc),
            outputs: VecDeque::new(alloc),
        }
    }
}
