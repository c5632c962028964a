//! A peer that is polled.
ghost use Rattle.std.specs.Prelude.{◌≡◌};
ghost use Rattle.rtc_peer_core.specs.Meanings.{meanings};
ghost use Rattle.rtc_peer_transport.specs.Readings.{is_accepted, is_handshake_finished, is_meant_for, is_nominated, is_peer_connected};

use crate::{Handshake, Input, SendAddr, Transport};
use rtc_parts::{Association, DtlsInstance, IceAgent, Ids, MediaSession, Reason};
use rtc_peer_core::Peer;
use rtc_wire::{Addr, DatagramRecv};

/// A peer with its connection to the other side. Its fields are public for the crates that work on it; callers hold an `Rtc`.
pub struct PolledPeer<I, D, S: Association, M, N> {
    pub core: Peer<I, D, S, M, N>,
    pub transport: Transport,
}

// Written out, so that the proof of what owns a peer sees one call and not the drop of each field.
impl<I: Drop, D: Drop, S: Association + Drop, M: Drop, N: Drop> Drop for PolledPeer<I, D, S, M, N> {
    fn drop(self) {
        let PolledPeer {
            core: _core,
            transport: _transport,
        } = self;
    }
}

fn is_finished(handshake: Handshake) -> bool
    ensures { result ≡ is_handshake_finished handshake }
{
    match handshake {
        Handshake::Pending => false,
        Handshake::Finished | Handshake::Told => true,
    }
}

fn leads_to(send_addr: &Option<SendAddr>, addr: &Addr) -> bool
    ensures { result ≡ is_nominated send_addr.now addr.now }
{
    match send_addr {
        None => false,
        Some(sends) => sends.destination.port == addr.port && sends.destination.ip == addr.ip,
    }
}

impl<I, D, S: Association, M, N> PolledPeer<I, D, S, M, N> {
    /// The reason of the last timeout that a poll returned; `NotHappening` before the first.
    pub fn last_timeout_reason(&self) -> Reason
        ensures { result ≡ self.now.transport.last_reason }
    {
        self.transport.last_reason
    }
}

impl<I: IceAgent, D: DtlsInstance, S: Association, M: MediaSession, N: Ids> PolledPeer<
    I,
    D,
    S,
    M,
    N,
> {
    /// Whether datagrams, application data and media can go both ways.
    pub fn is_connected(&self) -> bool
        ensures { result ≡ is_peer_connected (meanings I.ice D.dtls S.association M.media N.ids) self.now }
    {
        let found = self.core.ice.state().is_connected();
        found && is_finished(self.transport.handshake) && self.core.media.is_connected()
    }

    fn is_meant(&self, source: Addr, contents: &DatagramRecv<'_>) -> bool
        ensures { result ≡ is_meant_for (meanings I.ice D.dtls S.association M.media N.ids) self.now source contents.now }
    {
        match contents {
            DatagramRecv::Stun(message) => self.core.ice.accepts_message(message),
            DatagramRecv::Dtls(_) | DatagramRecv::Rtp(_) | DatagramRecv::Rtcp(_) => {
                self.core.ice.has_viable_remote_candidate(source)
            }
        }
    }

    /// Whether an input is for this peer, if several share a socket. A timeout is, and so is a datagram from the
    /// address that it sends to. The agent decides on other ICE messages. Other datagrams have to be from a viable
    /// remote candidate.
    pub fn accepts(&self, input: &Input<'_>) -> bool
        ensures { result ≡ is_accepted (meanings I.ice D.dtls S.association M.media N.ids) self.now input.now }
    {
        match input {
            Input::Timeout(_) => true,
            Input::Receive(_, datagram) => {
                leads_to(&self.transport.send_addr, &datagram.source)
                    || self.is_meant(datagram.source, &datagram.contents)
            }
        }
    }
}
