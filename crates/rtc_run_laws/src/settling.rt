//! The channels of a run of two peers over plain parts that ended with nothing in flight.
ghost use Rattle.std.specs.Prelude.{ℕ, ◌≡◌, Bool, true, List, [], None};
ghost use Rattle.rtc_assoc_state.specs.PlainMeaning.{plain_meaning};
ghost use Rattle.rtc_channels.specs.Openings.{channels_wake};
ghost use Rattle.rtc_plain_media.specs.declared.plain_media_event.PlainMediaEvent.{PlainMediaEvent};
ghost use Rattle.rtc_run_history.specs.declared.reply.Reply.{Reply};
ghost use Rattle.rtc_run_history.specs.declared.side.Side.{Side};
ghost use Rattle.rtc_run_history.specs.declared.step.Step.{Step};
ghost use Rattle.rtc_run_history.specs.PairState.{rtc_at};
ghost use Rattle.rtc_run_history.specs.Past.{Entry, steps_of};
ghost use Rattle.rtc_run_history.specs.Native.{are_native};
ghost use Rattle.rtc_run_history.specs.Runs.{Reached, Runs};
ghost use Rattle.rtc_run_history.specs.Sides.{other_side};
ghost use Rattle.rtc_run_laws.specs.NewPairs.{IsNewPair};
ghost use Rattle.rtc_run_laws.specs.PlainPairs.{PlainPair, plain_over};
ghost use Rattle.rtc_run_laws.specs.ConfirmedChannels.{WasConfirmed};
ghost use Rattle.rtc_run_laws.specs.InBandSteps.{AreInBandSteps};
ghost use Rattle.rtc_run_laws.specs.SettledPairs.{AreAllConfirmedOpen, AreAllOpenAtBoth, AreInBandChannels, AreInBandStreams};
ghost use Rattle.rtc_run_laws.specs.SettledPairs.{AreAnswered, AreConfirmedInBand, AreConfirmedOpen, AreConfirmedSettled};
ghost use Rattle.rtc_run_laws.specs.SettledPairs.{AreOnSides, AreOpenAtBoth, AreOwnOpenings, OpenNoneBoth};
ghost use Rattle.rtc_run_laws.specs.SettledPairs.{HasNothingDue, HasNothingSoon, IsLevelStream, IsSettledPair, SettlesOpen, WaitsNone};
ghost use Rattle.rtc_run_laws.specs.StillPairs.{IsStillPair};
ghost use Rattle.rtc_run_laws.specs.UsesOfRuns.{uses_of};

use rtc_parts::Ids;

/// The premises are: both peers are alive, with their DTLS connections and their associations; each was polled up to a
/// timeout since its last input and its last call; no association has an unacknowledged item; and channel numbers are
/// not exhausted. Then both associations have each stream in one generation, and neither closed it. A channel that is
/// open at one side is open at both. Each side announced it, over one generation of one stream, and got all that the
/// other sent over it. So it is over each stream that neither side negotiated out-of-band.
///
/// Nothing is due for the channels of a side whose last timeout is later than each moment that its peer took. If
/// nothing is, each channel that was confirmed in the run, and whose stream neither side negotiated out-of-band, is open
/// at both sides so. If no step added a channel that is negotiated out-of-band, and the pair kept no session description
/// at its start, no stream was negotiated so.
///
/// One side started its association as the client, and the other one as the server: each did by its DTLS role, and a
/// handshake is finished only between the two roles. A stream that is opened from here is even if this side is the
/// client, and odd if it is the server, unless a channel was negotiated out-of-band for the stream. So no such stream is
/// opened from both, and no opening of one waits for its acknowledgement.
///
/// These say nothing of a stream for which a channel was negotiated out-of-band, but by `refused`, `confirmed` and `later`,
/// nor of one over which a side rolled back a channel that it had announced, in the generation that the stream has. With
/// in-band channels alone (`open_in_band`, `all_in_band`) there is no such exception.
///
/// No step brings in a text or bytes of anybody.
pub fn settled_pairs_have_open_channels<N: Ids>()
    ensures level { (stun : List ℕ → Bool) (start pair : PlainPair N) (past : List (Entry PlainMediaEvent)) → IsNewPair N.ids start
        → are_native (steps_of past) ≡ true
        → Reached (plain_over N.ids) stun start past pair → IsSettledPair past pair → (at : Side) (stream : ℕ)
        → IsLevelStream stream (rtc_at at pair) (rtc_at (other_side at) pair) }
    ensures reached { (stun : List ℕ → Bool) (start pair : PlainPair N) (past : List (Entry PlainMediaEvent)) → IsNewPair N.ids start
        → are_native (steps_of past) ≡ true
        → (ran : Reached (plain_over N.ids) stun start past pair) → IsSettledPair past pair → (at : Side)
        → AreOpenAtBoth N.ids (uses_of (plain_over N.ids) stun start at past pair ran) (rtc_at at pair)
        (uses_of (plain_over N.ids) stun start (other_side at) past pair ran) (rtc_at (other_side at) pair) }
    ensures answered { (stun : List ℕ → Bool) (start pair : PlainPair N) (past : List (Entry PlainMediaEvent)) → IsNewPair N.ids start
        → are_native (steps_of past) ≡ true → Reached (plain_over N.ids) stun start past pair → IsSettledPair past pair → (at : Side)
        → AreAnswered (rtc_at at pair) (rtc_at (other_side at) pair) }
    ensures idle { (stun : List ℕ → Bool) (start pair : PlainPair N) (past : List (Entry PlainMediaEvent)) → IsNewPair N.ids start
        → are_native (steps_of past) ≡ true
        → Reached (plain_over N.ids) stun start past pair → IsSettledPair past pair → (at : Side) → HasNothingDue at past pair
        → channels_wake plain_meaning (rtc_at at pair).core.channels (rtc_at at pair).core.sctp ≡ None }
    ensures refused { (stun : List ℕ → Bool) (start pair : PlainPair N) (past : List (Entry PlainMediaEvent)) → IsNewPair N.ids start
        → are_native (steps_of past) ≡ true
        → (ran : Reached (plain_over N.ids) stun start past pair) → IsSettledPair past pair → (at : Side)
        → channels_wake plain_meaning (rtc_at at pair).core.channels (rtc_at at pair).core.sctp ≡ None
        → AreConfirmedSettled N.ids (λ channel. WasConfirmed (plain_over N.ids) stun start at channel past pair ran)
        (uses_of (plain_over N.ids) stun start at past pair ran) (rtc_at at pair)
        (uses_of (plain_over N.ids) stun start (other_side at) past pair ran) (rtc_at (other_side at) pair) }
    ensures confirmed { (stun : List ℕ → Bool) (start pair : PlainPair N) (past : List (Entry PlainMediaEvent)) → IsNewPair N.ids start
        → are_native (steps_of past) ≡ true
        → (ran : Reached (plain_over N.ids) stun start past pair) → IsSettledPair past pair → IsStillPair pair → (at : Side)
        → AreConfirmedOpen N.ids (λ channel. WasConfirmed (plain_over N.ids) stun start at channel past pair ran)
        (uses_of (plain_over N.ids) stun start at past pair ran) (rtc_at at pair)
        (uses_of (plain_over N.ids) stun start (other_side at) past pair ran) (rtc_at (other_side at) pair) }
    ensures later { (stun : List ℕ → Bool) (start pair : PlainPair N) (past : List (Entry PlainMediaEvent)) → IsNewPair N.ids start
        → are_native (steps_of past) ≡ true → (ran : Reached (plain_over N.ids) stun start past pair) → IsSettledPair past pair
        → ((at : Side) → HasNothingSoon at past pair) → (at : Side)
        → AreConfirmedOpen N.ids (λ channel. WasConfirmed (plain_over N.ids) stun start at channel past pair ran)
        (uses_of (plain_over N.ids) stun start at past pair ran) (rtc_at at pair)
        (uses_of (plain_over N.ids) stun start (other_side at) past pair ran) (rtc_at (other_side at) pair) }
    ensures own { (stun : List ℕ → Bool) (start pair : PlainPair N) (past : List (Entry PlainMediaEvent)) → IsNewPair N.ids start
        → are_native (steps_of past) ≡ true
        → Reached (plain_over N.ids) stun start past pair → IsSettledPair past pair → (at : Side) → AreOwnOpenings (rtc_at at pair) }
    ensures sides { (stun : List ℕ → Bool) (start pair : PlainPair N) (past : List (Entry PlainMediaEvent)) → IsNewPair N.ids start
        → are_native (steps_of past) ≡ true → Reached (plain_over N.ids) stun start past pair → IsSettledPair past pair → (at : Side)
        → AreOnSides (rtc_at at pair) (rtc_at (other_side at) pair) }
    ensures parted { (stun : List ℕ → Bool) (start pair : PlainPair N) (past : List (Entry PlainMediaEvent)) → IsNewPair N.ids start
        → are_native (steps_of past) ≡ true → Reached (plain_over N.ids) stun start past pair → IsSettledPair past pair → (at : Side)
        → OpenNoneBoth (rtc_at at pair) (rtc_at (other_side at) pair) }
    ensures waits_none { (stun : List ℕ → Bool) (start pair : PlainPair N) (past : List (Entry PlainMediaEvent)) → IsNewPair N.ids start
        → are_native (steps_of past) ≡ true → Reached (plain_over N.ids) stun start past pair → IsSettledPair past pair → (at : Side)
        → WaitsNone (rtc_at at pair) (rtc_at (other_side at) pair) }
    ensures wants_none { (stun : List ℕ → Bool) (start pair : PlainPair N) (past : List (Entry PlainMediaEvent)) → IsNewPair N.ids start
        → are_native (steps_of past) ≡ true
        → (ran : Reached (plain_over N.ids) stun start past pair) → IsSettledPair past pair → (at : Side)
        → channels_wake plain_meaning (rtc_at at pair).core.channels (rtc_at at pair).core.sctp ≡ None
        → AreConfirmedInBand N.ids (λ channel. WasConfirmed (plain_over N.ids) stun start at channel past pair ran)
        (uses_of (plain_over N.ids) stun start at past pair ran) (rtc_at at pair)
        (uses_of (plain_over N.ids) stun start (other_side at) past pair ran) (rtc_at (other_side at) pair) }
    ensures due_none { (stun : List ℕ → Bool) (start pair : PlainPair N) (past : List (Entry PlainMediaEvent)) → IsNewPair N.ids start
        → are_native (steps_of past) ≡ true
        → (ran : Reached (plain_over N.ids) stun start past pair) → IsSettledPair past pair → (at : Side) → HasNothingDue at past pair
        → AreConfirmedInBand N.ids (λ channel. WasConfirmed (plain_over N.ids) stun start at channel past pair ran)
        (uses_of (plain_over N.ids) stun start at past pair ran) (rtc_at at pair)
        (uses_of (plain_over N.ids) stun start (other_side at) past pair ran) (rtc_at (other_side at) pair) }
    ensures in_band { (stun : List ℕ → Bool) (start pair : PlainPair N) (past : List (Entry PlainMediaEvent)) → IsNewPair N.ids start
        → are_native (steps_of past) ≡ true
        → start.sdps ≡ [] → Reached (plain_over N.ids) stun start past pair → AreInBandSteps (steps_of past) → IsSettledPair past pair
        → (at : Side) (stream : ℕ)
        → AreInBandStreams stream (rtc_at at pair) (rtc_at (other_side at) pair)
        × AreInBandChannels stream (rtc_at at pair) (rtc_at (other_side at) pair) }
    ensures open_in_band { (stun : List ℕ → Bool) (start pair : PlainPair N) (past : List (Entry PlainMediaEvent)) → IsNewPair N.ids start
        → are_native (steps_of past) ≡ true
        → start.sdps ≡ [] → (ran : Reached (plain_over N.ids) stun start past pair) → AreInBandSteps (steps_of past)
        → IsSettledPair past pair → (at : Side)
        → AreAllOpenAtBoth N.ids (uses_of (plain_over N.ids) stun start at past pair ran) (rtc_at at pair)
        (uses_of (plain_over N.ids) stun start (other_side at) past pair ran) (rtc_at (other_side at) pair) }
    ensures all_in_band { (stun : List ℕ → Bool) (start pair : PlainPair N) (past : List (Entry PlainMediaEvent)) → IsNewPair N.ids start
        → are_native (steps_of past) ≡ true
        → start.sdps ≡ [] → (ran : Reached (plain_over N.ids) stun start past pair) → AreInBandSteps (steps_of past)
        → IsSettledPair past pair → (at : Side) → HasNothingDue at past pair
        → AreAllConfirmedOpen N.ids (λ channel. WasConfirmed (plain_over N.ids) stun start at channel past pair ran)
        (uses_of (plain_over N.ids) stun start at past pair ran) (rtc_at at pair)
        (uses_of (plain_over N.ids) stun start (other_side at) past pair ran) (rtc_at (other_side at) pair) }
    ensures ran { (stun : List ℕ → Bool) (start pair : PlainPair N) (steps : List Step) (replies : List (Reply PlainMediaEvent))
        → IsNewPair N.ids start → are_native steps ≡ true → (run : Runs (plain_over N.ids) stun start steps replies pair)
        → SettlesOpen N.ids stun start steps replies pair run }
{}
