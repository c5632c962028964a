//! What a poll takes from the streams of the data channels.
ghost use Rattle.std.specs.Prelude.{◌≡◌, None};
ghost use Rattle.rtc_peer_core.specs.Meanings.{meanings};
ghost use Rattle.rtc_peer_polling.specs.StreamStages.{ClosesChannelOver, OpensChannelOver, channel_over};
ghost use Rattle.rtc_peer_polling.specs.StreamStages.{LosesAssociation, TakesStreamEvent, PollsStreamEvents, IsShortTransmit};

use rtc_parts::{Association, DtlsInstance, IceAgent, Ids, MediaSession};
use rtc_peer_transport::{ChannelData, Event, Met, PolledPeer, close_out_of_memory};
use rtc_sctp::SctpEvent;
use rtc_wire::Text;

#[tactic(auto, unfolding(crate::specs::StreamStages::OpensChannelOver))]
fn open_channel_over<I: IceAgent, D: DtlsInstance, S: Association, M: MediaSession, N: Ids>(
    peer: &mut PolledPeer<I, D, S, M, N>,
    stream: u16,
    label: Text,
) -> Met<M::E>
    ensures { OpensChannelOver stream label peer.old result peer.new }
{
    match peer.core.channels.ensure_channel_id_for(stream) {
        Ok(()) => {}
        Err(_) => return Met::Error(close_out_of_memory(&mut peer.core.phase)),
    }
    match peer.core.channels.channel_id_by_stream_id(stream) {
        Some(id) => Met::Event(Event::ChannelOpen(id, label)),
        None => Met::Again,
    }
}

fn close_channel_over<I: IceAgent, D: DtlsInstance, S: Association, M: MediaSession, N: Ids>(
    peer: &mut PolledPeer<I, D, S, M, N>,
    stream: u16,
    reset_pending: bool,
) -> Met<M::E>
    ensures { ClosesChannelOver (channel_over stream peer.old.core.channels) reset_pending peer.old result peer.new }
{
    match peer.core.channels.channel_id_by_stream_id(stream) {
        Some(id) => {
            peer.core.channels.remove_channel(id, reset_pending);
            Met::Event(Event::ChannelClose(id))
        }
        None => Met::Again,
    }
}

#[tactic(auto, unfolding(crate::specs::StreamStages::LosesAssociation))]
fn lose_association<I: IceAgent, D: DtlsInstance, S: Association, M: MediaSession, N: Ids>(
    peer: &mut PolledPeer<I, D, S, M, N>,
) -> Met<M::E>
    ensures { LosesAssociation (meanings I.ice D.dtls S.association M.media N.ids) peer.old result peer.new }
{
    peer.core.channels.association_lost();
    match peer.close() {
        Ok(()) => Met::Event(Event::Closed),
        Err(error) => Met::Error(error),
    }
}

fn take_stream_event<I: IceAgent, D: DtlsInstance, S: Association, M: MediaSession, N: Ids>(
    peer: &mut PolledPeer<I, D, S, M, N>,
    event: SctpEvent,
) -> Met<M::E>
    requires none { peer.old.core.sctp.pushed ≡ None }
    requires short { IsShortTransmit event }
    ensures { TakesStreamEvent (meanings I.ice D.dtls S.association M.media N.ids) event peer.old result peer.new }
{
    match event {
        SctpEvent::Transmit { packets } => {
            peer.core.sctp.push_back_transmit(packets);
            Met::Nothing
        }
        SctpEvent::Open { id, label } => open_channel_over(peer, id, label),
        SctpEvent::Close { id, reset_pending } => close_channel_over(peer, id, reset_pending),
        SctpEvent::StreamResetComplete { id } => {
            peer.core.channels.stream_reset_complete(id);
            Met::Again
        }
        SctpEvent::Data { id, binary, bytes } => {
            match peer.core.channels.channel_id_by_stream_id(id) {
                Some(id) => Met::Event(Event::ChannelData(ChannelData { id, binary, bytes })),
                None => Met::Again,
            }
        }
        SctpEvent::BufferedAmountLow { id } => {
            match peer.core.channels.channel_id_by_stream_id(id) {
                Some(id) => Met::Event(Event::ChannelBufferedAmountLow(id)),
                None => Met::Again,
            }
        }
        SctpEvent::AssociationLost => lose_association(peer),
    }
}

/// Polls the streams up to an event that is reported, or packets, which are kept to be sent.
pub fn poll_stream_events<I: IceAgent, D: DtlsInstance, S: Association, M: MediaSession, N: Ids>(
    peer: &mut PolledPeer<I, D, S, M, N>,
) -> Met<M::E>
    ensures { PollsStreamEvents (meanings I.ice D.dtls S.association M.media N.ids) peer.old result peer.new }
{
    'events: loop {
        peer.core.sctp.pushed_back_is_short();
        match peer.core.sctp.poll() {
            Ok(told) => match told {
                Some(event) => match take_stream_event(peer, event) {
                    Met::Again => {}
                    met => return met,
                },
                None => return Met::Nothing,
            },
            Err(_) => return Met::Error(close_out_of_memory(&mut peer.core.phase)),
        }
    }
}
