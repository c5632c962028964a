//! What the other end reports of a stream that it receives.

/// The other end's report on a stream that this end sends (RFC 3550, section 6.4.1).
#[derive(Clone, Copy, Debug, PartialEq, Eq)]
pub struct RemoteIngressStats {
    /// In ticks of the stream's clock.
    pub jitter: u32,
    pub maximum_sequence_number: u64,
    pub packets_lost: u64,
}
