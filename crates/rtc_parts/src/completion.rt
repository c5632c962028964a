//! The completion of a reset ends a generation.
ghost use Rattle.std.specs.Prelude.{◌≡◌, ◌≤◌, ℕ, List, ◌∷◌, ◌++◌};
ghost use Rattle.rtc_parts.specs.AssociationActs.{AssociationAct, Read, Moved};
ghost use Rattle.rtc_parts.specs.AssociationWords.{told, completions};

use crate::Association;

/// No message of a generation is read after its completion was reported: if one of generation `g` is read, at most `g`
/// completed resets of its stream were reported before.
pub fn nothing_read_after_completion<S: Association>()
    ensures { (p q : S) (acts before after : List AssociationAct) (s g i : ℕ) (bytes : List ℕ) → S.association.fresh p
        → Moved S.association p acts q → acts ≡ before ++ Read s g i bytes ∷ after → completions s (told before) ≤ g }
{}
