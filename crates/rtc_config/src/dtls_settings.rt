//! Settings of the DTLS part.
use rtc_parts::DtlsVersion;
use rtc_wire::{Bytes, TryCopy};
use std::alloc::AllocError;

/// What the configuration of a peer says to its DTLS part.
#[derive(Debug, PartialEq, Eq, Drop)]
pub struct DtlsSettings {
    /// Drawn if not set.
    pub cert: Option<Bytes>,
    pub version: DtlsVersion,
    /// Whether the other side's certificate has to match its announced fingerprint (RFC 8122, section 6.2).
    pub fingerprint_verification: bool,
}

impl TryCopy for DtlsSettings {
    fn copy(&self) -> Result<DtlsSettings, AllocError> {
        let cert = self.cert.copy()?;
        Ok(DtlsSettings {
            cert,
            version: self.version,
            fingerprint_verification: self.fingerprint_verification,
        })
    }
}
