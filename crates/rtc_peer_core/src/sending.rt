//! What is sent on a line.
use rtc_sdp_values::{Msid, Simulcast, Ssrc};
use rtc_wire::{Seq, Text};

/// What this side sends on a media line.
#[derive(Debug, PartialEq, Eq, Drop)]
pub struct Sending {
    pub simulcast: Option<Simulcast>,
    pub msid: Option<Msid>,
    pub cname: Option<Text>,
    /// Each SSRC, with its RTX SSRC.
    pub ssrcs: Seq<(Ssrc, Option<Ssrc>)>,
}
