//! What is reported of channels that the other side has not announced.
ghost use Rattle.std.specs.Prelude.{ℕ, ◌≡◌, Bool, true, List, []};
ghost use Rattle.rtc_plain_media.specs.declared.plain_media_event.PlainMediaEvent.{PlainMediaEvent};
ghost use Rattle.rtc_run_history.specs.declared.side.Side.{Side};
ghost use Rattle.rtc_run_history.specs.Native.{are_native};
ghost use Rattle.rtc_run_history.specs.Past.{Entry, steps_of};
ghost use Rattle.rtc_run_history.specs.Runs.{Reached};
ghost use Rattle.rtc_run_history.specs.Sides.{other_side};
ghost use Rattle.rtc_run_laws.specs.InBandSteps.{AreInBandSteps};
ghost use Rattle.rtc_run_laws.specs.NewPairs.{IsNewPair};
ghost use Rattle.rtc_run_laws.specs.PlainPairs.{PlainPair, plain_over};
ghost use Rattle.rtc_run_laws.specs.SentMessages.{sent_over};
ghost use Rattle.rtc_run_laws.specs.ToldMessages.{told_over};
ghost use Rattle.rtc_run_laws.specs.UsesOfRuns.{uses_of};
ghost use Rattle.rtc_run_laws.specs.Unannounced.{AreGotOfAnnounced, AreGotOfSent, AreSentOfAnnounced, AreToldOfAnnounced, AreToldOfSent};
ghost use Rattle.rtc_run_laws.specs.Unannounced.{HaveNumbersLeft};

use rtc_parts::Ids;

/// Whatever datagrams a run of two peers loses, repeats or reorders: nothing is reported of a channel while it has a
/// stream in a generation to which the other side sent nothing. A channel that was announced in-band over such a
/// generation received nothing.
///
/// Let channel numbers be left at the end. Then a channel that was announced in-band received nothing if the other side
/// announced none in-band over the generation of its stream, whatever channels were negotiated out-of-band.
///
/// If besides no step adds such a channel, a side sends to a generation of a stream only once it announced a channel over
/// it. So nothing is reported of a generation over which the other side announced none.
///
/// No step brings in a text or bytes of anybody.
pub fn unannounced_channels_are_silent<N: Ids>()
    ensures unsent { (stun : List ℕ → Bool) (start pair : PlainPair N) (past : List (Entry PlainMediaEvent)) → IsNewPair N.ids start
        → are_native (steps_of past) ≡ true → (ran : Reached (plain_over N.ids) stun start past pair) → (at : Side)
        → AreToldOfSent (sent_over (plain_over N.ids) stun start (other_side at) past pair ran)
        (told_over (plain_over N.ids) stun start at past pair ran) }
    ensures got_unsent { (stun : List ℕ → Bool) (start pair : PlainPair N) (past : List (Entry PlainMediaEvent)) → IsNewPair N.ids start
        → are_native (steps_of past) ≡ true → (ran : Reached (plain_over N.ids) stun start past pair) → (at : Side)
        → AreGotOfSent (sent_over (plain_over N.ids) stun start (other_side at) past pair ran)
        (uses_of (plain_over N.ids) stun start at past pair ran) }
    ensures sent { (stun : List ℕ → Bool) (start pair : PlainPair N) (past : List (Entry PlainMediaEvent)) → IsNewPair N.ids start
        → start.sdps ≡ [] → are_native (steps_of past) ≡ true → AreInBandSteps (steps_of past)
        → (ran : Reached (plain_over N.ids) stun start past pair) → HaveNumbersLeft pair → (at : Side)
        → AreSentOfAnnounced (uses_of (plain_over N.ids) stun start at past pair ran)
        (sent_over (plain_over N.ids) stun start at past pair ran) }
    ensures told { (stun : List ℕ → Bool) (start pair : PlainPair N) (past : List (Entry PlainMediaEvent)) → IsNewPair N.ids start
        → start.sdps ≡ [] → are_native (steps_of past) ≡ true → AreInBandSteps (steps_of past)
        → (ran : Reached (plain_over N.ids) stun start past pair) → HaveNumbersLeft pair → (at : Side)
        → AreToldOfAnnounced (uses_of (plain_over N.ids) stun start (other_side at) past pair ran)
        (told_over (plain_over N.ids) stun start at past pair ran) }
    ensures got { (stun : List ℕ → Bool) (start pair : PlainPair N) (past : List (Entry PlainMediaEvent)) → IsNewPair N.ids start
        → are_native (steps_of past) ≡ true → (ran : Reached (plain_over N.ids) stun start past pair) → HaveNumbersLeft pair → (at : Side)
        → AreGotOfAnnounced (uses_of (plain_over N.ids) stun start (other_side at) past pair ran)
        (uses_of (plain_over N.ids) stun start at past pair ran) }
{}
