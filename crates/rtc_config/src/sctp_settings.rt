//! Settings of the association.

/// What the configuration of a peer says to its association. Sizes are in bytes.
#[derive(Clone, Copy, Debug, PartialEq, Eq)]
pub struct SctpSettings {
    /// How much may be buffered before writes are refused.
    pub max_buffered_amount: usize,
    /// The largest message that this side accepts (RFC 8841, section 6).
    pub max_message_size: u32,
    /// Whether the association's first chunks are exchanged in session descriptions.
    pub snap_enabled: bool,
}
