//! What messages carry by the numbers of their identifiers, as the acts of an association have them.
ghost use Rattle.std.specs.Prelude.{◌≡◌, ◌++◌, ℕ, List, Bool, true, Result, map};
ghost use Rattle.rtc_parts.specs.AssociationActs.{AssociationAct};
ghost use Rattle.rtc_parts.specs.AssociationWords.{AssociationMessage, written, read};
ghost use Rattle.rtc_sctp_values.specs.declared.sctp_error.SctpError.{SctpError};
ghost use Rattle.rtc_sctp_laws.specs.StreamActs.{written_message};
ghost use Rattle.rtc_sctp_laws.specs.StreamMessages.{StreamMessage, HaveNamedPpis, are_dcep, read_act, reads_of, write_act, writes_of};
ghost use Rattle.rtc_sctp_laws.specs.StreamUses.{messages_of};
ghost use Rattle.rtc_sctp_laws.specs.Contents.{contents_by, contents_of};

/// Of messages whose identifiers have their names, acts that write or read them carry, by the numbers of identifiers, what the
/// messages carry. Messages that open channels have their name, and so have those that users write.
pub fn numbers_carry_the_same()
    ensures writes { (s g : ℕ) (acts : List AssociationAct) (wrote : List StreamMessage) → writes_of acts ≡ map write_act wrote
        → HaveNamedPpis wrote → contents_by (written s g acts) ≡ contents_of (messages_of s g wrote) }
    ensures reads { (s g : ℕ) (acts : List AssociationAct) (heard : List StreamMessage) → reads_of acts ≡ map read_act heard
        → HaveNamedPpis heard → contents_by (read s g acts) ≡ contents_of (messages_of s g heard) }
    ensures joins { (xs ys : List AssociationMessage) → contents_by (xs ++ ys) ≡ contents_by xs ++ contents_by ys }
    ensures opening { (messages : List StreamMessage) → are_dcep messages ≡ true → HaveNamedPpis messages }
    ensures written { (stream generation : ℕ) (binary : Bool) (bytes : List ℕ) (r : Result ℕ SctpError)
        → HaveNamedPpis (written_message stream generation binary bytes r) }
{}
