//! The header extensions of a peer.
ghost use Rattle.std.specs.Prelude.{◌≡◌, IfOk};
ghost use Rattle.rtc_sdp_values.specs.ExtensionMap as spec;

use crate::Extension;
use rtc_wire::{Seq, TryCopy};
use std::alloc::{AllocError, Global};

/// Which number denotes which header extension (RFC 8285, section 5).
#[derive(Debug, PartialEq, Eq, Drop)]
pub struct ExtensionMap {
    pub rows: Seq<(u8, Extension)>,
}

impl ExtensionMap {
    /// The default extensions of a peer.
    pub fn standard(alloc: Global) -> Result<ExtensionMap, AllocError>
        ensures { IfOk result (λ made. made.rows ≡ spec.standard_rows) }
    {
        let rows = vec![in alloc;
            (1, Extension::AudioLevel),
            (2, Extension::AbsoluteSendTime),
            (3, Extension::TransportSequenceNumber),
            (4, Extension::RtpMid),
            (10, Extension::RtpStreamId),
            (11, Extension::RepairedRtpStreamId),
            (13, Extension::VideoOrientation),
        ]?;
        Ok(ExtensionMap {
            rows: Seq::new(rows),
        })
    }

    /// The number of the first row that has an extension.
    pub fn id_of(&self, extension: Extension) -> Option<u8>
        ensures { result ≡ spec.id_of extension self.now.rows }
    {
        for row in self.rows.as_slice() {
            if row.1 == extension {
                return Some(row.0);
            }
        }
        None
    }

    /// The extension of the first row that has a number.
    pub fn lookup(&self, id: u8) -> Option<Extension>
        ensures { result ≡ spec.lookup id self.now.rows }
    {
        for row in self.rows.as_slice() {
            if row.0 == id {
                return Some(row.1);
            }
        }
        None
    }
}

impl TryCopy for ExtensionMap {
    fn copy(&self) -> Result<ExtensionMap, AllocError> {
        let rows = self.rows.copy()?;
        Ok(ExtensionMap { rows })
    }
}
