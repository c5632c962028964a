//! Why a peer failed.

/// Why a call of a peer failed that takes inputs or gives outputs.
#[derive(Clone, Copy, Debug, PartialEq, Eq)]
pub enum Fault {
    /// The certificate of the other side is not the one that it announced.
    OtherCertificate,
    /// The fingerprint of the other side is by a function that is not known.
    UnknownHash,
    /// Any other cause, as too little memory.
    Other,
}
