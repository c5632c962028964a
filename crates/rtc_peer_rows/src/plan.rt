//! Plans.
use rtc_sdp_values::{LineRow, Mid};
use rtc_wire::Seq;

/// What an offer or an answer does to a peer.
#[derive(Debug, PartialEq, Eq, Drop)]
pub struct Plan {
    /// The whole table afterwards.
    pub rows: Seq<LineRow>,
    /// The mids of the rows whose place is given to a new mid.
    pub removed: Seq<Mid>,
    /// The places of the lines that add a row.
    pub added: Seq<u32>,
    /// Whether the other side restarts ICE: its credentials are known and differ.
    pub restart: bool,
    /// Whether the `a=sctp-init` of the other side may start the association: it is not started, there is one, and an answer's
    /// offer had one.
    pub snap: bool,
}
