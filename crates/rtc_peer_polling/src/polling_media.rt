//! What a poll takes from the media part.
ghost use Rattle.rtc_peer_core.specs.Meanings.{meanings};
ghost use Rattle.rtc_peer_polling.specs.MediaStages.{TellsMedia, TellsFallibleMedia};

use rtc_parts::{Association, DtlsInstance, IceAgent, Ids, MediaError, MediaSession};
use rtc_peer_core::RtcError;
use rtc_peer_transport::{Event, Met, PolledPeer, close_out_of_memory};

/// Reports the next event that cannot fail.
#[tactic(auto, unfolding(crate::specs::MediaStages::TellsMedia))]
pub fn tell_media<I: IceAgent, D: DtlsInstance, S: Association, M: MediaSession, N: Ids>(
    peer: &mut PolledPeer<I, D, S, M, N>,
) -> Met<M::E>
    ensures { TellsMedia (meanings I.ice D.dtls S.association M.media N.ids) peer.old result peer.new }
{
    match peer.core.media.poll_event() {
        Some(event) => Met::Event(Event::Media(event)),
        None => Met::Nothing,
    }
}

/// Reports the next event whose making may fail.
#[tactic(auto, unfolding(crate::specs::MediaStages::TellsFallibleMedia))]
pub fn tell_fallible_media<I: IceAgent, D: DtlsInstance, S: Association, M: MediaSession, N: Ids>(
    peer: &mut PolledPeer<I, D, S, M, N>,
) -> Met<M::E>
    ensures { TellsFallibleMedia (meanings I.ice D.dtls S.association M.media N.ids) peer.old result peer.new }
{
    match peer.core.media.poll_event_fallible(peer.core.greatest) {
        Ok(told) => match told {
            Some(event) => Met::Event(Event::Media(event)),
            None => Met::Nothing,
        },
        Err(error) => match error {
            MediaError::Alloc => Met::Error(close_out_of_memory(&mut peer.core.phase)),
            cause => Met::Error(RtcError::Media(cause)),
        },
    }
}
