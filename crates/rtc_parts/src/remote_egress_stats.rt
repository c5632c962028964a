//! What the other end reports of a stream that it sends.

/// The other end's report on a stream that this end receives (RFC 3550, section 6.4.1).
#[derive(Clone, Copy, Debug, PartialEq, Eq)]
pub struct RemoteEgressStats {
    pub bytes: u64,
    pub packets: u64,
}
