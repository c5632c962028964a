//! Sizes and times that the engine is built on, in bytes if the name says no unit.
use crate::Span;

/// The largest datagram that is read.
pub const DATAGRAM_MAX_PACKET_SIZE: usize = 2000;
/// What RTP and SRTP add to a payload, at most.
pub const MAX_RTP_OVERHEAD: usize = 80;
/// What DTLS adds to a record, at most.
pub const MAX_DTLS_OVERHEAD: usize = 48;
/// What SCTP adds to a message.
pub const SCTP_OVERHEAD: usize = 40;
/// The largest message that this side accepts.
pub const LOCAL_MAX_MESSAGE_SIZE: u32 = 262_144;
/// The largest message that the other side accepts if it announces none (RFC 8841, section 6.1).
pub const DEFAULT_REMOTE_MAX_MESSAGE_SIZE: u32 = 65_536;
/// How much may be buffered before writes are refused.
pub const DEFAULT_MAX_BUFFERED_AMOUNT: usize = 131_072;
/// How long a stream may take to open.
pub const STREAM_OPEN_TIMEOUT: Span = Span(10_000_000_000);
/// After how long the opening of a stream is tried again.
pub const STREAM_OPEN_RETRY_INTERVAL: Span = Span(500_000_000);
/// The longest label or protocol of an open message, whose lengths have two bytes (RFC 8832, section 5.1).
pub const DCEP_MAX_TEXT_SIZE: usize = 65_535;
/// The size that datagrams are kept to.
pub const DATAGRAM_MTU_TARGET: usize = 1150;
/// The least size that datagrams may be kept to.
pub const DATAGRAM_MTU_TARGET_MIN: usize = 576;
/// The largest size that datagrams may be kept to.
pub const DATAGRAM_MTU_TARGET_MAX: usize = 1400;
/// The size above which a datagram is worth a warning.
pub const DATAGRAM_MTU_WARN: usize = 1280;

// A stream has ten seconds to open, and its opening is tried again each half second.
const _: () = prove!(STREAM_OPEN_TIMEOUT.0 == 10 * 1_000_000_000);

const _: () = prove!(STREAM_OPEN_RETRY_INTERVAL.0 == 500 * 1_000_000);
