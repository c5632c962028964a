//! What a poll returned, as C has it.
use crate::Address;

/// What a poll returned. Its kind says which numbers mean something; the others are 0.
#[repr(C)]
#[derive(Clone, Copy, Debug, PartialEq, Eq)]
pub struct OutputRow {
    /// 0 if nothing was polled yet.
    pub kind: u32,
    /// The state of ICE, from 0: new, checking, connected, completed, disconnected.
    pub state: u32,
    /// The moment of a timeout, in nanoseconds.
    pub moment: u64,
    /// The number of a channel.
    pub channel: u64,
    /// How many bytes come with it: those of a datagram, a label, a message, or a mid; or the size of a packet that was received.
    pub size: usize,
    /// The addresses of a datagram to be sent.
    pub source: Address,
    pub destination: Address,
    /// The protocol of a datagram, from 0: UDP, TCP, SSLTCP, TLS.
    pub protocol: u32,
    /// The kind of media of a line: audio is 0, video 1.
    pub media: u32,
    /// The direction of a line, from 0: both ways, sending, receiving, inactive.
    pub direction: u32,
    /// Whether a message is binary.
    pub binary: bool,
}
