//! The DTLS handshake as callers know it.

/// The progress of the DTLS handshake. It never goes back.
#[derive(Clone, Copy, Debug, PartialEq, Eq)]
pub enum Handshake {
    Pending,
    /// Finished; not yet reported.
    Finished,
    Told,
}
