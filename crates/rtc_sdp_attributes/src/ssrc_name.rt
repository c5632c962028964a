//! Names of SSRCs.
use rtc_sdp_values::Ssrc;
use rtc_wire::Text;

/// The canonical name that an `ssrc` attribute gives an SSRC (RFC 5576, section 6.1).
#[derive(Debug, PartialEq, Eq, Drop)]
pub struct SsrcName {
    pub ssrc: Ssrc,
    pub cname: Text,
}
