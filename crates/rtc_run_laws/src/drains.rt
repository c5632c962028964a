//! How many outputs a drain of a run shows.
ghost use Rattle.std.specs.Prelude.{Bool, List};
ghost use Rattle.rtc_peer_core.specs.Meanings.{meanings};
ghost use Rattle.rtc_run_history.specs.declared.reply.Reply.{Reply};
ghost use Rattle.rtc_run_history.specs.declared.step.Step.{Step};
ghost use Rattle.rtc_run_history.specs.Past.{Entry, steps_of};
ghost use Rattle.rtc_run_history.specs.PairState.{PairState};
ghost use Rattle.rtc_run_history.specs.Performs.{Enters};
ghost use Rattle.rtc_run_history.specs.Runs.{Reached, Runs};
ghost use Rattle.rtc_run_laws.specs.Drains.{AreUndriven, DrainsWithin, HaveMoments, ShowsWithin};

use rtc_parts::{Association, DtlsInstance, IceAgent, Ids, MediaSession};

/// In a run of a pair at which no threshold is set, a drain shows at most as many outputs as its peer weighs before it.
/// No step sets a threshold, and after no step the end of a handshake is still to be reported.
pub fn drains_show_at_most_their_weight<
    I: IceAgent,
    D: DtlsInstance,
    S: Association,
    M: MediaSession,
    N: Ids,
>()
    ensures reached { (stun : List _ → Bool) (start pair : PairState I D S M N) (past : List (Entry _))
        → AreUndriven (meanings I.ice D.dtls S.association M.media N.ids) start → HaveMoments (steps_of past)
        → Reached (meanings I.ice D.dtls S.association M.media N.ids) stun start past pair
        → AreUndriven (meanings I.ice D.dtls S.association M.media N.ids) pair }
    ensures drains { (stun : List _ → Bool) (between after : PairState I D S M N) (entry : Entry _)
        → AreUndriven (meanings I.ice D.dtls S.association M.media N.ids) between
        → Enters (meanings I.ice D.dtls S.association M.media N.ids) stun between entry after
        → ShowsWithin (meanings I.ice D.dtls S.association M.media N.ids) between entry.step entry.outcome }
    ensures ran { (stun : List _ → Bool) (start pair : PairState I D S M N) (steps : List Step) (replies : List (Reply _))
        → AreUndriven (meanings I.ice D.dtls S.association M.media N.ids) start → HaveMoments steps
        → (run : Runs (meanings I.ice D.dtls S.association M.media N.ids) stun start steps replies pair)
        → DrainsWithin (meanings I.ice D.dtls S.association M.media N.ids) stun start run.past pair }
{}
