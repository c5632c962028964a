//! The parts of a peer by one parameter.
use rtc_parts::MediaEvent;
use rtc_peer::{Association, DtlsInstance, IceAgent, Ids, MediaSession, Rtc};

/// The five parts that a peer is built from, by one name.
pub trait Parts {
    /// The events of the media part.
    type MediaEvent: MediaEvent + Drop;

    type Ice: IceAgent + Drop;

    type Dtls: DtlsInstance + Drop;

    type Sctp: Association + Drop;

    type Media: MediaSession<E = Self::MediaEvent> + Drop;

    type Ids: Ids + Drop;
}

/// A peer over parts.
pub type Peer<P> = Rtc<
    <P as Parts>::Ice,
    <P as Parts>::Dtls,
    <P as Parts>::Sctp,
    <P as Parts>::Media,
    <P as Parts>::Ids,
>;
