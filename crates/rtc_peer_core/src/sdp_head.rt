//! What a description carries of its side.
use rtc_sdp_values::{Candidate, Fingerprint, IceCreds, Setup};
use rtc_wire::{Seq, Text};

/// What an offer or an answer carries of its side, beside the m-lines.
#[derive(Debug, PartialEq, Eq, Drop)]
pub struct SdpHead {
    /// The number of the session, of the `o=` line.
    pub session: u64,
    /// Whether the ICE agent only answers checks (RFC 8445, section 2.5).
    pub lite: bool,
    /// The credentials of ICE, which each m-line repeats (RFC 8839, section 5.4).
    pub creds: IceCreds,
    /// The fingerprint of the certificate (RFC 8122, section 5).
    pub fingerprint: Fingerprint,
    /// The role in the DTLS handshake (RFC 8842, section 5).
    pub setup: Setup,
    /// The candidates, which are on the first m-line.
    pub candidates: Seq<Candidate>,
    /// The longest message that this side takes, in bytes, which the m-line of data channels carries (RFC 8841, section 6.1).
    pub max_message_size: u32,
    /// The text of this side's SNAP INIT chunk, which the m-line of data channels carries (draft-hancke-tsvwg-snap).
    pub sctp_init: Option<Text>,
}
