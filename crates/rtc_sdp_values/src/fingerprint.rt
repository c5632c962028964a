//! Fingerprints of certificates.
ghost use Rattle.std.specs.Prelude.{◌≡◌, IfOk};
ghost use Rattle.rtc_sdp_values.specs.Fingerprint.{certificate_fingerprint};

use rtc_wire::{Bytes, Text, TryCopy};
use sha1::Sha1;
use sha2::{Digest, Sha256};
use std::alloc::{AllocError, Global};

/// The hash of a certificate, with the name of the hash function (RFC 8122, section 5).
#[derive(Debug, PartialEq, Eq, Drop)]
pub struct Fingerprint {
    pub hash_func: Text,
    pub bytes: Bytes,
}

fn hashed(alloc: Global, name: &str, hash: &[u8]) -> Result<Fingerprint, AllocError>
    ensures { IfOk result (λ made. made ≡ record { hash_func = name.now; bytes = hash.now }) }
{
    let hash_func = Text::from_str(alloc, name)?;
    let bytes = Vec::from_slice(alloc, hash)?;
    Ok(Fingerprint {
        hash_func,
        bytes: Bytes::new(bytes),
    })
}

impl Fingerprint {
    /// The fingerprint of a certificate by the hash function of a name; None if it is neither `sha-256` nor `sha-1`.
    pub fn of_certificate(
        alloc: Global,
        certificate: &[u8],
        hash_func: &str,
    ) -> Result<Option<Fingerprint>, AllocError>
        ensures { IfOk result (λ made. made ≡ certificate_fingerprint hash_func.now certificate.now) }
    {
        if hash_func == "sha-256" {
            let hash = Sha256::digest(certificate);
            return Ok(Some(hashed(alloc, hash_func, &hash)?));
        }
        if hash_func == "sha-1" {
            let hash = Sha1::digest(certificate);
            return Ok(Some(hashed(alloc, hash_func, &hash)?));
        }
        Ok(None)
    }
}

impl TryCopy for Fingerprint {
    fn copy(&self) -> Result<Fingerprint, AllocError> {
        let hash_func = self.hash_func.copy()?;
        let bytes = self.bytes.copy()?;
        Ok(Fingerprint { hash_func, bytes })
    }
}
