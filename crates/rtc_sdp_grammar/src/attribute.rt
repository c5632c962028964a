//! What attributes say.
use rtc_sdp_attributes::{Fmtp, RidLine, Rtpmap, SimulcastLine, SsrcName};
use rtc_sdp_values::{Candidate, Direction, Extension, Fingerprint, Mid, Msid, Setup, Ssrc};
use rtc_wire::{Seq, Text};

/// What a well-formed `a=` line says by itself (RFC 8866, section 5.13).
#[derive(Debug, Drop)]
pub enum Attribute {
    /// `mid` (RFC 5888, section 4).
    MidLine(Mid),
    /// `group:BUNDLE` (RFC 8843, section 7.1).
    GroupLine(Seq<Mid>),
    /// `group` of another name, which has no use here.
    OtherGroup,
    /// `setup` (RFC 4145, section 4; RFC 8842, section 5).
    SetupLine(Setup),
    /// `sendrecv`, `sendonly`, `recvonly`, `inactive` (RFC 8866, section 6.7).
    DirectionLine(Direction),
    /// `ice-ufrag` (RFC 8839, section 5.4).
    UfragLine(Text),
    /// `ice-pwd` (RFC 8839, section 5.4).
    PasswordLine(Text),
    /// `ice-lite` (RFC 8839, section 5.3).
    LiteLine,
    /// `fingerprint` (RFC 8122, section 5).
    FingerprintLine(Fingerprint),
    /// `candidate` (RFC 8839, section 5.1).
    CandidateLine(Candidate),
    /// `max-message-size` (RFC 8841, section 6).
    MessageSizeLine(u64),
    /// `sctp-init` (draft-hancke-tsvwg-snap).
    SctpInitLine(Text),
    /// `rtpmap` (RFC 8866, section 6.6).
    CodecLine(Rtpmap),
    /// `fmtp` (RFC 8866, section 6.15).
    ParametersLine(Fmtp),
    /// `extmap` (RFC 8285, section 8).
    ExtensionLine((u8, Extension)),
    /// `msid` (RFC 8830, section 2).
    StreamLine(Msid),
    /// `rid` (RFC 8851, section 4).
    LayerLine(RidLine),
    /// `simulcast` (RFC 8853, section 5.1).
    LayerListLine(SimulcastLine),
    /// `ssrc` with a `cname` (RFC 5576, section 6.1).
    SourceLine(SsrcName),
    /// `ssrc-group:FID` (RFC 5576, section 4.2).
    SourcePairLine((Ssrc, Ssrc)),
}
