//! Settings of the peers of the program.

use rtc_wire::Span;

/// What a peer of the program's pair is set to before it is built.
#[derive(Clone, Copy, Debug, PartialEq, Eq)]
pub struct PeerSettings {
    /// Whether its ICE agent only answers checks (RFC 8445, section 2.5).
    pub lite: bool,
    /// Whether its association may be started by session descriptions (draft-hancke-tsvwg-snap).
    pub snap: bool,
    /// How many bytes of its data channels may be buffered before nothing is available.
    pub max_buffered: usize,
    /// The longest message that it takes, in bytes, which its session descriptions carry (RFC 8841, section 6.1).
    pub max_message_size: u32,
    /// The time between two rounds of statistics, if they are reported.
    pub stats_interval: Option<Span>,
    /// Its role on glare, if one is set: whether it is the polite one (RFC 3264, section 4).
    pub polite: Option<bool>,
}
