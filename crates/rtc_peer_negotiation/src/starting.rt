//! How the association is started.
use rtc_sctp_values::SctpInitData;

/// How the association is started by an offer or an answer, if it is.
#[derive(Drop)]
pub struct Starting {
    /// Both SNAP INIT chunks.
    pub halves: Option<SctpInitData>,
    /// Whether the pending chunks are dropped if it is not started.
    pub drops: bool,
}
