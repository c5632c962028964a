//! What a `simulcast` attribute says.
use rtc_sdp_values::Rid;
use rtc_wire::Seq;

/// The names of the layers that a `simulcast` attribute lists (RFC 8853, section 5.1).
#[derive(Debug, PartialEq, Eq, Drop)]
pub struct SimulcastLine {
    pub send: Seq<Rid>,
    pub recv: Seq<Rid>,
}
