//! What m-lines carry of their media.
use rtc_sdp_values::{Extension, Msid, PayloadRow, Simulcast, Ssrc};
use rtc_wire::{Seq, Text};

/// What the m-line of a media line carries of its media.
#[derive(Debug, PartialEq, Eq, Drop)]
pub struct LineMedia {
    pub payloads: Seq<PayloadRow>,
    /// Header extensions by their ids.
    pub exts: Seq<(u8, Extension)>,
    pub simulcast: Option<Simulcast>,
    pub msid: Option<Msid>,
    pub cname: Option<Text>,
    /// Each SSRC, with its RTX SSRC.
    pub ssrcs: Seq<(Ssrc, Option<Ssrc>)>,
}
