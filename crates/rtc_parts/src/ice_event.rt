//! What an ICE agent reports.
use crate::IceConnectionState;
use rtc_wire::{Addr, Protocol};

/// An event of an ICE agent, reported by `poll_event`.
#[derive(Clone, Copy, Debug, PartialEq, Eq)]
pub enum IceEvent {
    /// The agent was restarted.
    IceRestart,
    StateChange(IceConnectionState),
    /// A check was received from this address, so that datagrams from there may be the other side's.
    DiscoveredRecv {
        proto: Protocol,
        source: Addr,
    },
    /// Datagrams are sent by this pair of addresses from now on.
    NominatedSend {
        proto: Protocol,
        source: Addr,
        destination: Addr,
    },
}
