//! The rows of media lines, at a peer and at its media part.
ghost use Rattle.rtc_peer_core.specs.Meanings.{meanings};
ghost use Rattle.rtc_peer_laws.specs.MediaRows.{OffersLeaveRows, AnswersLeaveRows};

use rtc_parts::{Association, DtlsInstance, IceAgent, Ids, MediaSession};

/// Once an offer or an answer is accepted, the media part has, at the mid of each media line that it names, the row of the peer.
pub fn named_rows_are_media_lines<
    I: IceAgent,
    D: DtlsInstance,
    S: Association,
    M: MediaSession,
    N: Ids,
>()
    ensures offers { OffersLeaveRows (meanings I.ice D.dtls S.association M.media N.ids) }
    ensures answers { AnswersLeaveRows (meanings I.ice D.dtls S.association M.media N.ids) }
{}
