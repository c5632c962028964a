//! Why a timeout is wanted.

/// What a peer waits for: the least deadline when a poll returns a timeout.
#[derive(Clone, Copy, Debug, PartialEq, Eq, Hash, Default)]
pub enum Reason {
    /// Nothing is waited for.
    #[default]
    NotHappening,
    DTLS,
    Ice,
    Sctp,
    Channel,
    Stats,
    Feedback,
    Nack,
    Twcc,
    PauseCheck,
    SendStream,
    Packetize,
    ReceiveReorder,
}
