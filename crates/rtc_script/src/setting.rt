//! Settings of a script.

/// What a script sets a peer to before its steps.
#[derive(Clone, Copy, Debug, PartialEq, Eq)]
pub enum Setting {
    /// Its ICE agent only answers checks (RFC 8445, section 2.5).
    Lite,
    /// Its association may be started by session descriptions (draft-hancke-tsvwg-snap).
    Snap,
    /// How many bytes of its data channels may be buffered, at most 1000000000.
    Buffer(u64),
    /// The longest message that it takes, in bytes, which its session descriptions carry (RFC 8841, section 6.1).
    MaxMessage(u32),
    /// The time between two rounds of statistics in milliseconds, 1 to 1000000000.
    Stats(u64),
    /// Whether it is the polite one on glare, or else the impolite one (RFC 3264, section 4).
    Polite(bool),
}
