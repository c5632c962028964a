//! What an association reports.

/// An event of an association, reported by `poll`.
#[derive(Clone, Copy, Debug, PartialEq, Eq)]
pub enum AssocEvent {
    /// The other end accepted.
    Connected,
    /// The other end shut the association down.
    Lost,
    /// A whole message of the stream was received.
    Readable(u16),
    Writable(u16),
    /// The other end closed the stream.
    Finished(u16),
    /// The stream is reset at both ends: it is gone, and its generation has risen.
    ResetComplete(u16),
    /// The unacknowledged bytes of the stream fell to its threshold.
    BufferedAmountLow(u16),
}
