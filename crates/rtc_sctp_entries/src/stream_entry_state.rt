//! The progress of a stream.

/// The progress of the opening of a stream (RFC 8832, section 6).
///
/// ```text
/// opened here, in-band         AwaitOpen -> AwaitDcepAck -> Open
/// opened here, out-of-band     AwaitOpen -> Open
/// opened there, in-band        AwaitConfig -> Open, by the open message
/// opened there, out-of-band    AwaitConfig -> Open, by open_stream
/// each of them                 -> Closed, and the entry is dropped
/// ```
#[derive(Clone, Copy, Debug, PartialEq, Eq)]
pub enum StreamEntryState {
    AwaitOpen,
    AwaitConfig,
    AwaitDcepAck,
    Open,
    Closed,
}
