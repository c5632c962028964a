//! Versions of DTLS.

/// A version of the protocol (RFC 6347, RFC 9147), or the choice of it left to the handshake.
#[derive(Clone, Copy, Debug, PartialEq, Eq)]
pub enum DtlsVersion {
    Dtls12,
    Dtls13,
    /// The newest that both sides have.
    Auto,
}
