//! The progress of the handshake.

/// The progress of the handshake. The active side goes from `AwaitStart` by `AwaitCert` to `FinishedActive`, the
/// passive side from `AwaitHello` by `AwaitFinish` to `FinishedPassive`.
#[derive(Clone, Copy, Debug, PartialEq, Eq)]
pub enum Phase {
    NoRole,
    /// The active side has sent no hello.
    AwaitStart,
    /// It sends its hello again until it receives the other side's certificate.
    AwaitCert,
    AwaitHello,
    /// The passive side sends its certificate again until it receives a finish or application data.
    AwaitFinish,
    FinishedActive,
    FinishedPassive,
}
