//! What two ends read of what they wrote.
ghost use Rattle.std.specs.Prelude.{◌≡◌, ◌≤◌, ℕ, List, [], ◌∷◌, ◌++◌, false};
ghost use Rattle.rtc_parts.specs.AssociationActs.{AssociationAct, Read};
ghost use Rattle.rtc_parts.specs.AssociationWords.{written, read, ended, told, completions};
ghost use Rattle.rtc_assoc_state.specs.Contents.{generation_of};
ghost use Rattle.rtc_assoc_state.specs.Outbox.{has_unacknowledged};
ghost use Rattle.rtc_assoc.specs.Unread.{unread, IsPrefix};
ghost use Rattle.rtc_assoc.specs.Joined.{Move, Ends, Run};

/// Of each generation of each stream, one end reads a prefix of the messages that the other one wrote, whatever is
/// lost, repeated or reordered between them. If neither closed the generation and the writer holds no unacknowledged
/// item, the messages read and those still unread are together all that were written.
pub fn what_is_read_was_written()
    ensures right { (moves : List Move) (ends : Ends) (s g : ℕ) → Run moves ends
        → IsPrefix (read s g ends.right_acts) (written s g ends.left_acts) }
    ensures left { (moves : List Move) (ends : Ends) (s g : ℕ) → Run moves ends
        → IsPrefix (read s g ends.left_acts) (written s g ends.right_acts) }
    ensures all_right { (moves : List Move) (ends : Ends) (s g : ℕ) → Run moves ends → ended s g ends.left_acts ≡ false
        → ended s g ends.right_acts ≡ false → has_unacknowledged s ends.left.outbox.items ≡ false
        → read s g ends.right_acts ++ unread s g ends.right.inbox.unread ≡ written s g ends.left_acts }
    ensures all_left { (moves : List Move) (ends : Ends) (s g : ℕ) → Run moves ends → ended s g ends.left_acts ≡ false
        → ended s g ends.right_acts ≡ false → has_unacknowledged s ends.right.outbox.items ≡ false
        → read s g ends.left_acts ++ unread s g ends.left.inbox.unread ≡ written s g ends.right_acts }
    ensures told_left { (moves : List Move) (ends : Ends) (s : ℕ) → Run moves ends
        → completions s (told ends.left_acts) ≤ generation_of ends.left s }
    ensures told_right { (moves : List Move) (ends : Ends) (s : ℕ) → Run moves ends
        → completions s (told ends.right_acts) ≤ generation_of ends.right s }
    ensures before_left { (moves : List Move) (ends : Ends) (before after : List AssociationAct) (s g i : ℕ) (bytes : List ℕ)
        → Run moves ends → ends.left_acts ≡ before ++ Read s g i bytes ∷ after → completions s (told before) ≤ g }
    ensures before_right { (moves : List Move) (ends : Ends) (before after : List AssociationAct) (s g i : ℕ) (bytes : List ℕ)
        → Run moves ends → ends.right_acts ≡ before ++ Read s g i bytes ∷ after → completions s (told before) ≤ g }
{}
