//! Errors of a peer's calls.
ghost use Rattle.std.specs.Prelude.{◌≡◌, Some};
ghost use Rattle.rtc_peer_core.specs.declared.rtc_error.RtcError.TheVariants.{Alloc, Net};
ghost use Rattle.rtc_peer_core.specs.RtcErrors.{error_of_channel, error_of_dtls, error_of_media};
ghost use Rattle.rtc_peer_core.specs.RtcErrors.{error_of_sctp, error_of_sdp, error_of_refusal};
ghost use Rattle.rtc_peer_core.specs.RtcErrorText as text;
ghost use Rattle.rtc_peer_core.specs.RtcErrorText.{net_error_text};

use rtc_change::{Refusal, Why};
use rtc_channels::ChannelError;
use rtc_parts::{DtlsError, MediaError};
use rtc_sctp::SctpError;
use rtc_sdp_values::SdpError;
use rtc_wire::{IoText, NetError};
use std::alloc::{AllocError, AllocFailed};
use std::error::Error;
use std::fmt;

/// Why a call of a peer is refused.
#[derive(Debug, PartialEq, Eq)]
pub enum RtcError {
    /// The offer or answer of the other side cannot be accepted, or its certificate is not the announced one.
    RemoteSdp(Why),
    /// The session description of the other side is inconsistent.
    Sdp(SdpError),
    /// A datagram is of no kind, or is malformed.
    Net(NetError),
    /// The DTLS part failed.
    Dtls(DtlsError),
    /// The association failed.
    Sctp(SctpError),
    /// The media part failed.
    Media(MediaError),
    /// An offer was made or given since the token was made, be it one that was refused for another cause than glare.
    ChangesOutOfOrder,
    /// No channel can be made of the config.
    BadChannel,
    /// There was too little memory, or a table would have 2^32 - 1 lines or more.
    Alloc,
    /// Glare: the peer is impolite, and its own offer is pending (RFC 3264, section 4).
    Glare,
}

// Written out, so that the proof of what owns a refusal sees one call and not the drop of each variant.
impl Drop for RtcError {
    fn drop(self) {
        match self {
            RtcError::RemoteSdp(_why) => {}
            RtcError::Sdp(_sdp_error) => {}
            RtcError::Net(_net_error) => {}
            RtcError::Dtls(_dtls_error) => {}
            RtcError::Sctp(_sctp_error) => {}
            RtcError::Media(_media_error) => {}
            RtcError::ChangesOutOfOrder => {}
            RtcError::BadChannel => {}
            RtcError::Alloc => {}
            RtcError::Glare => {}
        }
    }
}

// What a refusal of a datagram prints.
#[tactic(auto, unfolding(crate::specs::RtcErrorText::net_error_text))]
fn net_text(error: &NetError) -> &str
    ensures { result.now ≡ net_error_text error.now }
{
    match error {
        NetError::Stun(_) => "not a STUN message",
        NetError::Io(_, IoText::EmptyDatagram) => "Empty datagram",
        NetError::Io(_, IoText::UnknownDatagram) => "Unknown datagram",
    }
}

impl fmt::Display for RtcError {
    ghost output = { λ error. Some (text.rtc_error_text error) };

    #[tactic(auto, unfolding(crate::specs::RtcErrorText::rtc_error_text))]
    fn fmt<W: fmt::Write>(&self, f: &mut fmt::Formatter<W>) -> fmt::Result {
        match self {
            RtcError::RemoteSdp(why) => write!(f, "remote sdp: {why}"),
            RtcError::Sdp(cause) => fmt::Display::fmt(cause, f),
            RtcError::Net(cause) => f.write_str(net_text(cause)),
            RtcError::Dtls(cause) => fmt::Display::fmt(cause, f),
            RtcError::Sctp(cause) => fmt::Display::fmt(cause, f),
            RtcError::Media(cause) => fmt::Display::fmt(cause, f),
            RtcError::ChangesOutOfOrder => f.write_str("Changes made out of order"),
            RtcError::BadChannel => f.write_str("channel config refused"),
            RtcError::Alloc => f.write_str("out of memory"),
            RtcError::Glare => f.write_str("offer collides with a pending offer"),
        }
    }
}

impl Error for RtcError {}

impl From<AllocError> for RtcError {
    ghost from_gives = { λ _ e. e ≡ Alloc };

    fn from(_error: AllocError) -> RtcError {
        RtcError::Alloc
    }
}

impl<T: Drop> From<AllocFailed<T>> for RtcError {
    ghost from_gives = { λ _ e. e ≡ Alloc };

    fn from(_error: AllocFailed<T>) -> RtcError {
        RtcError::Alloc
    }
}

impl From<SdpError> for RtcError {
    ghost from_gives = { λ lower e. e ≡ error_of_sdp lower };

    fn from(error: SdpError) -> RtcError {
        match error {
            SdpError::Alloc => RtcError::Alloc,
            SdpError::Parse(line) => RtcError::Sdp(SdpError::Parse(line)),
            SdpError::Inconsistent(cause) => RtcError::Sdp(SdpError::Inconsistent(cause)),
        }
    }
}

impl From<Refusal> for RtcError {
    ghost from_gives = { λ lower e. e ≡ error_of_refusal lower };

    fn from(refusal: Refusal) -> RtcError {
        match refusal {
            Refusal::RemoteSdp(why) => RtcError::RemoteSdp(why),
            Refusal::Sdp(error) => RtcError::from(error),
            Refusal::Alloc => RtcError::Alloc,
        }
    }
}

impl From<ChannelError> for RtcError {
    ghost from_gives = { λ lower e. e ≡ error_of_channel lower };

    fn from(error: ChannelError) -> RtcError {
        match error {
            ChannelError::BadChannel => RtcError::BadChannel,
            ChannelError::Alloc => RtcError::Alloc,
        }
    }
}

impl From<DtlsError> for RtcError {
    ghost from_gives = { λ lower e. e ≡ error_of_dtls lower };

    fn from(error: DtlsError) -> RtcError {
        match error {
            DtlsError::WouldBlock => RtcError::Dtls(DtlsError::WouldBlock),
            DtlsError::Fault => RtcError::Dtls(DtlsError::Fault),
            DtlsError::Alloc => RtcError::Alloc,
        }
    }
}

impl From<SctpError> for RtcError {
    ghost from_gives = { λ lower e. e ≡ error_of_sctp lower };

    fn from(error: SctpError) -> RtcError {
        match error {
            SctpError::Proto(cause) => RtcError::Sctp(SctpError::Proto(cause)),
            SctpError::WriteBeforeEstablished => {
                RtcError::Sctp(SctpError::WriteBeforeEstablished)
            }
            SctpError::DcepOpenTooSmall => RtcError::Sctp(SctpError::DcepOpenTooSmall),
            SctpError::DcepIncorrectMessageType => {
                RtcError::Sctp(SctpError::DcepIncorrectMessageType)
            }
            SctpError::DcepBadUtf8 => RtcError::Sctp(SctpError::DcepBadUtf8),
            SctpError::InvalidSnap => RtcError::Sctp(SctpError::InvalidSnap),
            SctpError::Alloc => RtcError::Alloc,
        }
    }
}

impl From<NetError> for RtcError {
    ghost from_gives = { λ lower e. e ≡ Net lower };

    fn from(error: NetError) -> RtcError {
        RtcError::Net(error)
    }
}

impl From<MediaError> for RtcError {
    ghost from_gives = { λ lower e. e ≡ error_of_media lower };

    fn from(error: MediaError) -> RtcError {
        match error {
            MediaError::Alloc => RtcError::Alloc,
            MediaError::Rtp => RtcError::Media(MediaError::Rtp),
            MediaError::Packet(mid, pt) => RtcError::Media(MediaError::Packet(mid, pt)),
            MediaError::UnknownPt(pt) => RtcError::Media(MediaError::UnknownPt(pt)),
            MediaError::UnknownRid(rid) => RtcError::Media(MediaError::UnknownRid(rid)),
            MediaError::NoSenderSource => RtcError::Media(MediaError::NoSenderSource),
            MediaError::ResendRequiresRtxPt => RtcError::Media(MediaError::ResendRequiresRtxPt),
            MediaError::NotSendingDirection(dir) => {
                RtcError::Media(MediaError::NotSendingDirection(dir))
            }
            MediaError::NotReceivingDirection => {
                RtcError::Media(MediaError::NotReceivingDirection)
            }
            MediaError::NoReceiverSource(rid) => {
                RtcError::Media(MediaError::NoReceiverSource(rid))
            }
            MediaError::FeedbackNotEnabled => RtcError::Media(MediaError::FeedbackNotEnabled),
            MediaError::WriteWithoutPoll => RtcError::Media(MediaError::WriteWithoutPoll),
        }
    }
}
