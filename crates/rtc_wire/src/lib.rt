//! Values that every layer shares: lists that contracts see as lists, moments, addresses, datagrams and channel messages.
#![tactic(auto)]

mod addr;
mod bytes;
mod channel_config;
mod channel_id;
mod constants;
mod datagram_recv;
mod datagram_send;
mod dcep_ack;
mod dcep_error;
mod dcep_open;
mod io_kind;
mod io_text;
mod moment;
mod multiplex_kind;
mod net_error;
mod protocol;
mod receive;
mod reliability;
mod reliability_type;
mod seq;
mod short_text;
mod span;
mod stun_error;
mod stun_reader;
mod stun_view;
mod text;
mod transmit;
mod try_copy;

pub use addr::Addr;
pub use bytes::Bytes;
pub use channel_config::{ChannelConfig, is_overlong};
pub use channel_id::ChannelId;
pub use constants::{
    DATAGRAM_MAX_PACKET_SIZE, DATAGRAM_MTU_TARGET, DATAGRAM_MTU_TARGET_MAX,
    DATAGRAM_MTU_TARGET_MIN, DATAGRAM_MTU_WARN, DCEP_MAX_TEXT_SIZE, DEFAULT_MAX_BUFFERED_AMOUNT,
    DEFAULT_REMOTE_MAX_MESSAGE_SIZE, LOCAL_MAX_MESSAGE_SIZE, MAX_DTLS_OVERHEAD, MAX_RTP_OVERHEAD,
    SCTP_OVERHEAD, STREAM_OPEN_RETRY_INTERVAL, STREAM_OPEN_TIMEOUT,
};
pub use datagram_recv::DatagramRecv;
pub use datagram_send::DatagramSend;
pub use dcep_ack::DcepAck;
pub use dcep_error::DcepError;
pub use dcep_open::DcepOpen;
pub use io_kind::IoKind;
pub use io_text::IoText;
pub use moment::Moment;
pub use multiplex_kind::MultiplexKind;
pub use net_error::NetError;
pub use protocol::Protocol;
pub use receive::Receive;
pub use reliability::Reliability;
pub use reliability_type::ReliabilityType;
pub use seq::Seq;
pub use span::Span;
pub use stun_error::StunError;
pub use stun_reader::StunReader;
pub use stun_view::StunView;
pub use text::Text;
pub use transmit::Transmit;
pub use try_copy::{TryCopy, copy_all};
