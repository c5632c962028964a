//! The completed resets that one end reports.
ghost use Rattle.std.specs.Prelude.{◌≡◌, ◌≤◌, ◌+◌, ℕ, List, ◌∷◌, ◌++◌};
ghost use Rattle.rtc_parts.specs.AssociationActs.{AssociationAct, Read, Moved};
ghost use Rattle.rtc_parts.specs.AssociationWords.{told, completions};
ghost use Rattle.rtc_assoc_state.specs.Contents.{Contents, fresh_contents, generation_of};
ghost use Rattle.rtc_assoc_state.specs.PlainMeaning.{plain_meaning};

/// An end reports each completed reset of a stream once. So the n-th one, from 1, is that of generation n - 1: there
/// are never more than the stream's generation. No message of a generation is read after its own.
pub fn each_reset_is_told_once()
    ensures all { (p : Contents) (acts : List AssociationAct) (s : ℕ) → Moved plain_meaning fresh_contents acts p
        → completions s (told acts) + completions s p.events ≡ generation_of p s }
    ensures most { (p : Contents) (acts : List AssociationAct) (s : ℕ) → Moved plain_meaning fresh_contents acts p
        → completions s (told acts) ≤ generation_of p s }
    ensures before { (p : Contents) (acts before after : List AssociationAct) (s g i : ℕ) (bytes : List ℕ)
        → Moved plain_meaning fresh_contents acts p → acts ≡ before ++ Read s g i bytes ∷ after
        → completions s (told before) ≤ g }
{}
