//! Laws of the session descriptions that runs have accepted.
ghost use Rattle.rtc_peer_core.specs.Meanings.{meanings};
ghost use Rattle.rtc_run_laws.specs.Taken.{RunsTakeTexts};

use rtc_parts::{Association, DtlsInstance, IceAgent, Ids, MediaSession};

/// In a run of formed peers each session description that was accepted left the lines of its side taken by what it
/// said. Of an offer or an answer of the other side, that is by the rows that this side had as it made it and those
/// that its step added. Of a text that anybody wrote, it is by what is read of it.
pub fn accepted_texts_are_taken<
    I: IceAgent,
    D: DtlsInstance,
    S: Association,
    M: MediaSession,
    N: Ids,
>()
    ensures { RunsTakeTexts (meanings I.ice D.dtls S.association M.media N.ids) I.stun }
{}
