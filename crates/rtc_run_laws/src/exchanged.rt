//! Runs of two peers over plain parts, whatever datagrams are lost, repeated or reordered.
ghost use Rattle.std.specs.Prelude.{◌≡◌, ◌++◌, ℕ, Bool, true, false, List};
ghost use Rattle.rtc_parts.specs.AssociationWords.{ended, written, read};
ghost use Rattle.rtc_assoc.specs.Unread.{IsPrefix, unread};
ghost use Rattle.rtc_assoc_state.specs.Outbox.{has_unacknowledged};
ghost use Rattle.rtc_plain_media.specs.declared.plain_media_event.PlainMediaEvent.{PlainMediaEvent};
ghost use Rattle.rtc_run_history.specs.declared.reply.Reply.{Reply};
ghost use Rattle.rtc_run_history.specs.declared.side.Side.{Side};
ghost use Rattle.rtc_run_history.specs.declared.step.Step.{Step};
ghost use Rattle.rtc_run_history.specs.PairState.{rtc_at};
ghost use Rattle.rtc_run_history.specs.Past.{Entry, steps_of};
ghost use Rattle.rtc_run_history.specs.Native.{are_native};
ghost use Rattle.rtc_run_history.specs.Runs.{Reached, Runs};
ghost use Rattle.rtc_run_history.specs.Sides.{other_side};
ghost use Rattle.rtc_run_laws.specs.ConnectedSides.{ConnectedCanSend};
ghost use Rattle.rtc_run_laws.specs.NewPairs.{IsNewPair};
ghost use Rattle.rtc_run_laws.specs.PlainPairs.{HasExchanged, PairActs, PairExchanges, PlainPair, acts_at, plain_over};

use rtc_parts::Ids;

/// The peers of a pair that were just built over fresh plain parts stay joined by every list of steps that bring in no
/// text and no bytes of anybody. This holds whatever datagrams these lose, repeat or reorder. What the association of
/// one side reads of a generation of a stream is a prefix of what the association of the other side wrote. The messages
/// read and those still unread are together all that were written, if neither closed the generation and the writer
/// holds no unacknowledged item of the stream. A peer that is connected can send application data over its DTLS
/// connection.
pub fn runs_keep_peers_joined<N: Ids>()
    ensures reached { (stun : List ℕ → Bool) (start pair : PlainPair N) (past : List (Entry PlainMediaEvent)) → IsNewPair N.ids start
        → are_native (steps_of past) ≡ true → Reached (plain_over N.ids) stun start past pair → HasExchanged pair }
    ensures ran { (stun : List ℕ → Bool) (start pair : PlainPair N) (steps : List Step) (replies : List (Reply PlainMediaEvent))
        → IsNewPair N.ids start → are_native steps ≡ true → Runs (plain_over N.ids) stun start steps replies pair → HasExchanged pair }
    ensures sends { (stun : List ℕ → Bool) (start pair : PlainPair N) (past : List (Entry PlainMediaEvent)) → IsNewPair N.ids start
        → are_native (steps_of past) ≡ true → Reached (plain_over N.ids) stun start past pair → ConnectedCanSend N.ids pair }
    ensures reads { (acts : PairActs) (pair : PlainPair N) (at : Side) (s g : ℕ) → PairExchanges acts pair
        → IsPrefix (read s g (acts_at (other_side at) acts).association) (written s g (acts_at at acts).association) }
    ensures all { (acts : PairActs) (pair : PlainPair N) (at : Side) (s g : ℕ) → PairExchanges acts pair
        → ended s g (acts_at at acts).association ≡ false → ended s g (acts_at (other_side at) acts).association ≡ false
        → has_unacknowledged s (rtc_at at pair).core.sctp.association.outbox.items ≡ false
        → read s g (acts_at (other_side at) acts).association
        ++ unread s g (rtc_at (other_side at) pair).core.sctp.association.inbox.unread
        ≡ written s g (acts_at at acts).association }
{}
