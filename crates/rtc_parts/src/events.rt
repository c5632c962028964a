//! How the events of an association follow each other.
ghost use Rattle.std.specs.Prelude.{◌≡◌, ◌++◌, ℕ, List, false, true};
ghost use Rattle.rtc_parts.specs.Among.{Member};
ghost use Rattle.rtc_parts.specs.declared.assoc_event.AssocEvent.TheVariants.{Readable};
ghost use Rattle.rtc_parts.specs.AssociationActs.{AssociationAct, Moved};
ghost use Rattle.rtc_parts.specs.AssociationEvents.{InOrder, AddsEvents};
ghost use Rattle.rtc_parts.specs.AssociationWords.{told, completions};

use crate::Association;

/// Acts add events behind those that are due. The following holds of the events that were reported since the start and
/// those that are due. Each ResetComplete of a stream is behind a Finished of its own. A stream's generation is the
/// number of its ResetCompletes. Each stream with a whole unread message has a Readable. A stale stream has no unread
/// message of its generation.
pub fn events_follow_each_other<S: Association>()
    ensures adds { (p q : S) (acts : List AssociationAct) → Moved S.association p acts q
        → AddsEvents S.association p acts q }
    ensures in_order { (p q : S) (acts : List AssociationAct) (s : ℕ) → S.association.fresh p
        → Moved S.association p acts q → InOrder s false (told acts ++ S.association.due q) (S.association.finished q s) }
    ensures completions { (p q : S) (acts : List AssociationAct) (s : ℕ) → S.association.fresh p
        → Moved S.association p acts q
        → completions s (told acts ++ S.association.due q) ≡ S.association.generation q s }
    ensures readable { (p q : S) (acts : List AssociationAct) (s g : ℕ) → S.association.fresh p
        → Moved S.association p acts q → S.association.has_unread q s g ≡ true
        → Member (Readable s) (told acts ++ S.association.due q) }
    ensures stale { (p q : S) (acts : List AssociationAct) (s : ℕ) → S.association.fresh p
        → Moved S.association p acts q → S.association.stale q s ≡ true
        → S.association.has_unread q s (S.association.generation q s) ≡ false }
{}
