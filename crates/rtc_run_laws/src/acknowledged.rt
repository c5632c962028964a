//! What a buffered amount of 0 says in a run of two peers over plain parts.
ghost use Rattle.std.specs.Prelude.{◌≡◌, ℕ, Bool, true, List, []};
ghost use Rattle.rtc_plain_media.specs.declared.plain_media_event.PlainMediaEvent.{PlainMediaEvent};
ghost use Rattle.rtc_run_history.specs.declared.reply.Reply.{Reply};
ghost use Rattle.rtc_run_history.specs.declared.side.Side.{Side};
ghost use Rattle.rtc_run_history.specs.declared.step.Step.{Step};
ghost use Rattle.rtc_run_history.specs.PairState.{rtc_at};
ghost use Rattle.rtc_run_history.specs.Past.{Entry, steps_of};
ghost use Rattle.rtc_run_history.specs.Native.{are_native};
ghost use Rattle.rtc_run_history.specs.Runs.{Reached, Runs};
ghost use Rattle.rtc_run_history.specs.Sides.{other_side};
ghost use Rattle.rtc_run_laws.specs.AcknowledgedData.{AcknowledgesData, AreAcknowledged, AreDeliveredByAmount};
ghost use Rattle.rtc_run_laws.specs.AcknowledgedData.{AreAllByAmount, AreDeliveredOverByAmount};
ghost use Rattle.rtc_run_laws.specs.SideDrains.{IsSideDrained};
ghost use Rattle.rtc_run_laws.specs.NewPairs.{IsNewPair};
ghost use Rattle.rtc_run_laws.specs.PlainPairs.{PlainPair, plain_over};
ghost use Rattle.rtc_run_laws.specs.SentMessages.{sent_over};
ghost use Rattle.rtc_run_laws.specs.Unannounced.{HaveNumbersLeft};
ghost use Rattle.rtc_run_laws.specs.UsesOfRuns.{uses_of};

use rtc_parts::Ids;

/// Let a side announce a channel, its stream have the generation still in which it was announced, and the last message
/// that was sent to it not be empty. If the channel's buffered amount is 0, nothing that was sent over it is
/// unacknowledged. An empty message counts 0.
///
/// If, besides, the other side announced a channel over the same generation, which is open, a poll of it returned a timeout since its last
/// input, and neither side closed the generation, it received all that the writer ever sent to the generation. That is what was sent over
/// the writer's channel, if neither channel was negotiated out-of-band, the pair kept no session description at its start, and channel
/// numbers are left; else if no rollback removed it.
///
/// No step brings in a text or bytes of anybody.
pub fn sent_messages_are_acknowledged<N: Ids>()
    ensures reached { (stun : List ℕ → Bool) (start pair : PlainPair N) (past : List (Entry PlainMediaEvent)) → IsNewPair N.ids start
        → are_native (steps_of past) ≡ true → (ran : Reached (plain_over N.ids) stun start past pair) → (at : Side)
        → AreAcknowledged N.ids (uses_of (plain_over N.ids) stun start at past pair ran)
        (sent_over (plain_over N.ids) stun start at past pair ran) (rtc_at at pair) }
    ensures delivered { (stun : List ℕ → Bool) (start pair : PlainPair N) (past : List (Entry PlainMediaEvent)) → IsNewPair N.ids start
        → are_native (steps_of past) ≡ true → (ran : Reached (plain_over N.ids) stun start past pair) → (at : Side)
        → AreDeliveredByAmount N.ids (IsSideDrained at past)
        (uses_of (plain_over N.ids) stun start at past pair ran) (rtc_at at pair)
        (uses_of (plain_over N.ids) stun start (other_side at) past pair ran) (rtc_at (other_side at) pair) }
    ensures delivered_over { (stun : List ℕ → Bool) (start pair : PlainPair N) (past : List (Entry PlainMediaEvent)) → IsNewPair N.ids start
        → are_native (steps_of past) ≡ true → (ran : Reached (plain_over N.ids) stun start past pair) → (at : Side)
        → AreDeliveredOverByAmount N.ids (IsSideDrained at past)
        (uses_of (plain_over N.ids) stun start at past pair ran) (rtc_at at pair)
        (uses_of (plain_over N.ids) stun start (other_side at) past pair ran) (rtc_at (other_side at) pair)
        (sent_over (plain_over N.ids) stun start (other_side at) past pair ran) }
    ensures all_got { (stun : List ℕ → Bool) (start pair : PlainPair N) (past : List (Entry PlainMediaEvent)) → IsNewPair N.ids start
        → are_native (steps_of past) ≡ true
        → start.sdps ≡ [] → (ran : Reached (plain_over N.ids) stun start past pair) → HaveNumbersLeft pair → (at : Side)
        → AreAllByAmount N.ids (IsSideDrained at past) (uses_of (plain_over N.ids) stun start at past pair ran) (rtc_at at pair)
        (uses_of (plain_over N.ids) stun start (other_side at) past pair ran) (rtc_at (other_side at) pair) }
    ensures ran { (stun : List ℕ → Bool) (start pair : PlainPair N) (steps : List Step) (replies : List (Reply PlainMediaEvent))
        → IsNewPair N.ids start → are_native steps ≡ true → (run : Runs (plain_over N.ids) stun start steps replies pair)
        → AcknowledgesData N.ids stun start steps replies pair run }
{}
