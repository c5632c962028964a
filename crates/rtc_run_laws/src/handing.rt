//! The messages that channels hand out in a run of two peers over plain parts.
ghost use Rattle.std.specs.Prelude.{◌≡◌, ℕ, Bool, true, List, []};
ghost use Rattle.rtc_plain_media.specs.declared.plain_media_event.PlainMediaEvent.{PlainMediaEvent};
ghost use Rattle.rtc_run_history.specs.declared.reply.Reply.{Reply};
ghost use Rattle.rtc_run_history.specs.declared.side.Side.{Side};
ghost use Rattle.rtc_run_history.specs.declared.step.Step.{Step};
ghost use Rattle.rtc_run_history.specs.PairState.{rtc_at};
ghost use Rattle.rtc_run_history.specs.Past.{Entry, steps_of};
ghost use Rattle.rtc_run_history.specs.Native.{are_native};
ghost use Rattle.rtc_run_history.specs.Runs.{Reached, Runs};
ghost use Rattle.rtc_run_history.specs.Sides.{other_side};
ghost use Rattle.rtc_run_laws.specs.NewPairs.{IsNewPair};
ghost use Rattle.rtc_run_laws.specs.PlainPairs.{PlainPair, plain_over};
ghost use Rattle.rtc_run_laws.specs.AnnouncedOnce.{AreAnnouncedOnce};
ghost use Rattle.rtc_run_laws.specs.Delivered.{AreAllDelivered, AreAllDeliveredOver, AreAllGot};
ghost use Rattle.rtc_run_laws.specs.HandedOut.{AreAllHandedOut, AreHandedOut, AreHandedOver, AreSentFirst, AreSentWhole};
ghost use Rattle.rtc_run_laws.specs.HandedOut.{ArePrefixes, AreToldInOne, AreToldWhole, AreWhollyHandedOut, HandsOut};
ghost use Rattle.rtc_run_laws.specs.SideDrains.{IsSideDrained};
ghost use Rattle.rtc_run_laws.specs.SentMessages.{sent_over};
ghost use Rattle.rtc_run_laws.specs.ToldMessages.{told_over};
ghost use Rattle.rtc_run_laws.specs.Unannounced.{HaveNumbersLeft};
ghost use Rattle.rtc_run_laws.specs.UsesOfRuns.{uses_of};

use rtc_parts::Ids;

/// Whatever datagrams a run of two peers loses, repeats or reorders, of channels that were opened in-band:
///
/// - Each side announces each once, and at most one over each generation of a stream. What it sent over it is the first that it ever sent
///   to that generation, and all of that if no rollback removed the channel.
/// - Whatever was reported of a channel, before its announcement or since, is of the generation of its announcement.
/// - If both sides announced one over the same generation of the same stream, what one received over its own is all that was reported to
///   it of that generation, and a prefix of what the other sent over its own.
/// - It is all of that if neither side closed the generation, the writer has no unacknowledged item of the stream, and the channel of the
///   reader is open and its side was drained: a poll of it returned a timeout since its last input.
/// - So it is if both channels stay open, all is acknowledged, and the reader has no whole message of the generation unread.
///
/// Rollbacks may occur, if neither channel was negotiated out-of-band, the pair kept no session description at its start, and channel
/// numbers are left. Else a rollback can remove a channel whose stream was negotiated out-of-band and which the other side opened in-band
/// meanwhile. Its stream stays open, and may be given to another channel: what was received is then a prefix, or all, of what the other
/// side sent to that generation by whatever channel.
///
/// No step brings in a text or bytes of anybody.
pub fn channels_hand_out_prefixes<N: Ids>()
    ensures reached { (stun : List ℕ → Bool) (start pair : PlainPair N) (past : List (Entry PlainMediaEvent)) → IsNewPair N.ids start
        → are_native (steps_of past) ≡ true → (ran : Reached (plain_over N.ids) stun start past pair) → (at : Side)
        → AreHandedOut (uses_of (plain_over N.ids) stun start at past pair ran)
        (uses_of (plain_over N.ids) stun start (other_side at) past pair ran) }
    ensures over { (stun : List ℕ → Bool) (start pair : PlainPair N) (past : List (Entry PlainMediaEvent)) → IsNewPair N.ids start
        → are_native (steps_of past) ≡ true → (ran : Reached (plain_over N.ids) stun start past pair) → (at : Side)
        → AreHandedOver (uses_of (plain_over N.ids) stun start at past pair ran)
        (uses_of (plain_over N.ids) stun start (other_side at) past pair ran)
        (sent_over (plain_over N.ids) stun start (other_side at) past pair ran) }
    ensures once { (stun : List ℕ → Bool) (start pair : PlainPair N) (past : List (Entry PlainMediaEvent)) → IsNewPair N.ids start
        → are_native (steps_of past) ≡ true → (ran : Reached (plain_over N.ids) stun start past pair) → (at : Side)
        → AreAnnouncedOnce (uses_of (plain_over N.ids) stun start at past pair ran) }
    ensures whole { (stun : List ℕ → Bool) (start pair : PlainPair N) (past : List (Entry PlainMediaEvent)) → IsNewPair N.ids start
        → are_native (steps_of past) ≡ true → (ran : Reached (plain_over N.ids) stun start past pair) → (at : Side)
        → AreSentWhole (uses_of (plain_over N.ids) stun start at past pair ran)
        (sent_over (plain_over N.ids) stun start at past pair ran) }
    ensures first { (stun : List ℕ → Bool) (start pair : PlainPair N) (past : List (Entry PlainMediaEvent)) → IsNewPair N.ids start
        → are_native (steps_of past) ≡ true → (ran : Reached (plain_over N.ids) stun start past pair) → (at : Side)
        → AreSentFirst (uses_of (plain_over N.ids) stun start at past pair ran)
        (sent_over (plain_over N.ids) stun start at past pair ran) }
    ensures told { (stun : List ℕ → Bool) (start pair : PlainPair N) (past : List (Entry PlainMediaEvent)) → IsNewPair N.ids start
        → are_native (steps_of past) ≡ true → (ran : Reached (plain_over N.ids) stun start past pair) → (at : Side)
        → AreToldWhole (uses_of (plain_over N.ids) stun start at past pair ran)
        (uses_of (plain_over N.ids) stun start (other_side at) past pair ran)
        (told_over (plain_over N.ids) stun start at past pair ran) }
    ensures only { (stun : List ℕ → Bool) (start pair : PlainPair N) (past : List (Entry PlainMediaEvent)) → IsNewPair N.ids start
        → are_native (steps_of past) ≡ true → (ran : Reached (plain_over N.ids) stun start past pair) → (at : Side)
        → AreToldInOne (uses_of (plain_over N.ids) stun start at past pair ran)
        (told_over (plain_over N.ids) stun start at past pair ran) }
    ensures all { (stun : List ℕ → Bool) (start pair : PlainPair N) (past : List (Entry PlainMediaEvent)) → IsNewPair N.ids start
        → are_native (steps_of past) ≡ true → (ran : Reached (plain_over N.ids) stun start past pair) → (at : Side)
        → AreWhollyHandedOut N.ids (uses_of (plain_over N.ids) stun start at past pair ran) (rtc_at at pair)
        (uses_of (plain_over N.ids) stun start (other_side at) past pair ran) (rtc_at (other_side at) pair) }
    ensures drained { (stun : List ℕ → Bool) (start pair : PlainPair N) (past : List (Entry PlainMediaEvent)) → IsNewPair N.ids start
        → are_native (steps_of past) ≡ true → (ran : Reached (plain_over N.ids) stun start past pair) → (at : Side)
        → AreAllHandedOut N.ids (IsSideDrained at past)
        (uses_of (plain_over N.ids) stun start at past pair ran) (rtc_at at pair)
        (uses_of (plain_over N.ids) stun start (other_side at) past pair ran) (rtc_at (other_side at) pair) }
    ensures delivered { (stun : List ℕ → Bool) (start pair : PlainPair N) (past : List (Entry PlainMediaEvent)) → IsNewPair N.ids start
        → are_native (steps_of past) ≡ true → (ran : Reached (plain_over N.ids) stun start past pair) → (at : Side)
        → AreAllDelivered (IsSideDrained at past) (uses_of (plain_over N.ids) stun start at past pair ran) (rtc_at at pair)
        (uses_of (plain_over N.ids) stun start (other_side at) past pair ran) (rtc_at (other_side at) pair) }
    ensures delivered_over { (stun : List ℕ → Bool) (start pair : PlainPair N) (past : List (Entry PlainMediaEvent)) → IsNewPair N.ids start
        → are_native (steps_of past) ≡ true → (ran : Reached (plain_over N.ids) stun start past pair) → (at : Side)
        → AreAllDeliveredOver (IsSideDrained at past) (uses_of (plain_over N.ids) stun start at past pair ran) (rtc_at at pair)
        (uses_of (plain_over N.ids) stun start (other_side at) past pair ran) (rtc_at (other_side at) pair)
        (sent_over (plain_over N.ids) stun start (other_side at) past pair ran) }
    ensures prefixes { (stun : List ℕ → Bool) (start pair : PlainPair N) (past : List (Entry PlainMediaEvent)) → IsNewPair N.ids start
        → are_native (steps_of past) ≡ true
        → start.sdps ≡ [] → (ran : Reached (plain_over N.ids) stun start past pair) → HaveNumbersLeft pair → (at : Side)
        → ArePrefixes (uses_of (plain_over N.ids) stun start at past pair ran)
        (uses_of (plain_over N.ids) stun start (other_side at) past pair ran) }
    ensures all_got { (stun : List ℕ → Bool) (start pair : PlainPair N) (past : List (Entry PlainMediaEvent)) → IsNewPair N.ids start
        → are_native (steps_of past) ≡ true
        → start.sdps ≡ [] → (ran : Reached (plain_over N.ids) stun start past pair) → HaveNumbersLeft pair → (at : Side)
        → AreAllGot (IsSideDrained at past) (uses_of (plain_over N.ids) stun start at past pair ran) (rtc_at at pair)
        (uses_of (plain_over N.ids) stun start (other_side at) past pair ran) (rtc_at (other_side at) pair) }
    ensures ran { (stun : List ℕ → Bool) (start pair : PlainPair N) (steps : List Step) (replies : List (Reply PlainMediaEvent))
        → IsNewPair N.ids start → are_native steps ≡ true → (run : Runs (plain_over N.ids) stun start steps replies pair)
        → HandsOut N.ids stun start steps replies pair run }
{}
