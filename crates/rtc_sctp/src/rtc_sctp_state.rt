//! The progress of an association.
ghost use Rattle.std.specs.Prelude.{◌≡◌};
ghost use Rattle.rtc_sctp.specs.Streams.{is_attached, is_established as IsEstablished};

/// The progress of the association of a peer.
///
/// ```text
/// as client   Uninited -> AwaitAssociationEstablished -> Established
/// as server   Uninited -> AwaitRemoteAssociation -> AwaitAssociationEstablished -> Established
/// ```
#[derive(Clone, Copy, Debug, PartialEq, Eq)]
pub enum RtcSctpState {
    Uninited,
    /// A server waits for the first packet.
    AwaitRemoteAssociation,
    AwaitAssociationEstablished,
    Established,
}

impl RtcSctpState {
    /// Whether timeouts are given to the association.
    pub fn propagate_endpoint_to_assoc(&self) -> bool
        ensures { result ≡ is_attached self.now }
    {
        match *self {
            RtcSctpState::Uninited => false,
            RtcSctpState::AwaitRemoteAssociation => false,
            RtcSctpState::AwaitAssociationEstablished => true,
            RtcSctpState::Established => true,
        }
    }

    pub(crate) fn is_established(&self) -> bool
        ensures { result ≡ IsEstablished self.now }
    {
        match *self {
            RtcSctpState::Uninited => false,
            RtcSctpState::AwaitRemoteAssociation => false,
            RtcSctpState::AwaitAssociationEstablished => false,
            RtcSctpState::Established => true,
        }
    }
}
