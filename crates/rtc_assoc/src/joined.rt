//! What joins two ends.
ghost use Rattle.std.specs.Prelude.{ℕ, List, [], ◌++◌};
ghost use Rattle.rtc_parts.specs.Among.{Among};
ghost use Rattle.rtc_parts.specs.AssociationActs.{AssociationAct, Moved};
ghost use Rattle.rtc_parts.specs.AssociationWords.{given, taken};
ghost use Rattle.rtc_assoc_state.specs.Contents.{Contents, fresh_contents};
ghost use Rattle.rtc_assoc_state.specs.PlainMeaning.{plain_meaning};
ghost use Rattle.rtc_assoc.specs.Joined.{Joined};

/// Two fresh ends are joined, and stay so by every move of one of them that is given what the other one transmitted.
pub fn moves_join_ends()
    ensures fresh { Joined fresh_contents fresh_contents [] [] }
    ensures left { (p q r : Contents) (acts : List AssociationAct) (from_left from_right : List (List ℕ))
        → Joined p r from_left from_right → Moved plain_meaning p acts q → Among (given acts) from_right
        → Joined q r (from_left ++ taken acts) from_right }
    ensures right { (p q r : Contents) (acts : List AssociationAct) (from_left from_right : List (List ℕ))
        → Joined r p from_left from_right → Moved plain_meaning p acts q → Among (given acts) from_left
        → Joined r q from_left (from_right ++ taken acts) }
{}
