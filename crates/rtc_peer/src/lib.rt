//! A WebRTC peer that does no I/O of its own.
//!
//! The crate re-exports all that its callers name. So a program lists `rtc_peer`, `rtc_wire`, and the crates of its
//! parts and of its source of numbers: in memory these are `rtc_plain` and `rtc_assoc`.
#![tactic(auto)]

mod built;
mod channel;
mod direct_api;
mod direct_lends;
mod direct_media;
mod direct_streams;
mod open_channels;
mod polls;
mod previews;
mod rtc;
mod sdp_api;
mod waking;

pub use channel::Channel;
pub use direct_api::DirectApi;
pub use rtc::Rtc;
pub use rtc_change::{AddMedia, Change, Changes, Lines, NewLine, SdpPendingOffer, Why};
pub use rtc_channels::{ChannelError, ChannelRow};
pub use rtc_config::RtcConfig;
pub use rtc_lines::{
    Candidate, CandidateKind, CodecConfig, Direction, Extension, ExtensionMap, Fingerprint,
    IceCreds, Inconsistent, LineKind, LineRow, MediaKind, MediaLine, Mid, Msid, PayloadRow, Pt,
    Rid, Sdp, SdpAnswer, SdpError, SdpOffer, Setup, Simulcast, SimulcastLayer, Ssrc,
};
pub use rtc_parts::{
    Association, CandidatePairStats, CandidateStats, DtlsError, DtlsInstance, DtlsVersion,
    IceAgent, IceConnectionState, Ids, MediaEgressStats, MediaError, MediaEvent, MediaIngressStats,
    MediaSession, MediaSettings, NoStream, PeerStats, RawPacket, Reason, RemoteEgressStats,
    RemoteIngressStats, Vp9PacketizerMode,
};
pub use rtc_peer_core::{Formats, RtcError};
pub use rtc_peer_transport::{ChannelData, Event, Input, Output};
pub use rtc_sctp::{ProtoError, SctpError, SctpInitData};
pub use rtc_sdp_codecs::Codec;
pub use sdp_api::SdpApi;
