//! What a poll takes from the ICE agent.
ghost use Rattle.rtc_peer_core.specs.Meanings.{meanings};
ghost use Rattle.rtc_peer_polling.specs.IceStages.{PollsIceEvents, TakesIceEvent};

use rtc_parts::{Association, DtlsInstance, IceAgent, IceEvent, Ids, MediaSession};
use rtc_peer_transport::{Event, Met, PolledPeer, SendAddr};

// An event is reported or kept.
fn take_ice_event<I: IceAgent, D: DtlsInstance, S: Association, M: MediaSession, N: Ids>(
    peer: &mut PolledPeer<I, D, S, M, N>,
    event: Option<IceEvent>,
) -> Met<M::E>
    ensures { TakesIceEvent event peer.old result peer.new }
{
    match event {
        None => Met::Nothing,
        Some(event) => match event {
            IceEvent::IceRestart => Met::Again,
            IceEvent::StateChange(state) => Met::Event(Event::IceConnectionStateChange(state)),
            IceEvent::DiscoveredRecv { proto: _, source } => {
                peer.transport.discovered.push(source);
                Met::Again
            }
            IceEvent::NominatedSend {
                proto,
                source,
                destination,
            } => {
                peer.transport.send_addr = Some(SendAddr {
                    proto,
                    source,
                    destination,
                });
                Met::Again
            }
        },
    }
}

/// Polls events of the agent up to one that is reported.
pub fn poll_ice_events<I: IceAgent, D: DtlsInstance, S: Association, M: MediaSession, N: Ids>(
    peer: &mut PolledPeer<I, D, S, M, N>,
) -> Met<M::E>
    ensures { PollsIceEvents (meanings I.ice D.dtls S.association M.media N.ids) peer.old result peer.new }
{
    'events: loop {
        let event = peer.core.ice.poll_event();
        match take_ice_event(peer, event) {
            Met::Again => {}
            met => return met,
        }
    }
}
