//! What the calls of streams leave of the use of each stream.
ghost use Rattle.std.specs.Prelude.{◌≡◌, ◌++◌, ℕ, List, [], Bool, Option, Result};
ghost use Rattle.std.specs.declared.alloc.AllocError.{AllocError};
ghost use Rattle.rtc_ready.specs.Signals.{Signals};
ghost use Rattle.rtc_wire.specs.declared.channel_config.ChannelConfig.{ChannelConfig};
ghost use Rattle.rtc_sctp_entries.specs.Entries.{entry_place};
ghost use Rattle.rtc_sctp_entries.specs.declared.sctp_event.SctpEvent.{SctpEvent};
ghost use Rattle.rtc_sctp_values.specs.declared.sctp_error.SctpError.{SctpError};
ghost use Rattle.rtc_sctp_values.specs.InitHalves.{InitHalves};
ghost use Rattle.rtc_sctp.specs.Streams.{SctpStreams};
ghost use Rattle.rtc_sctp.specs.Calls.{Inits, Shuts, WritesStream, TakesInput, TakesTimeout};
ghost use Rattle.rtc_sctp.specs.StreamCalls.{OpensStream, ClosesDataStream, SetsThreshold};
ghost use Rattle.rtc_sctp.specs.Polls.{PollsStreams};
ghost use Rattle.rtc_sctp_laws.specs.StreamActs.{written_message};
ghost use Rattle.rtc_sctp_laws.specs.StreamMessages.{StreamMessage, met_of};
ghost use Rattle.rtc_sctp_laws.specs.GenerationLaws.{GenerationLaws};
ghost use Rattle.rtc_sctp_laws.specs.StreamUses.{IsUsed};
ghost use Rattle.rtc_sctp_laws.specs.UsedCalls.{IsUsedOver, PollUses};

use rtc_parts::Association;

/// Each call on streams keeps the use of every stream, over an association whose streams get another generation only by packets.
///
/// For each stream that a poll reports as open in-band, no data was written of its generation before. The last message
/// that was read of it opens a channel or acknowledges one, and none before does.
///
/// A stream whose entry is open in a generation stays so, and is not reported as open again, until its close is
/// reported; until then it is read in that generation alone. None becomes open in-band unless this is reported. A write
/// that is Ok adds its message. After a poll that is out of memory nothing is known.
pub fn calls_keep_uses<S: Association>()
    ensures begins { (s : ℕ) (a : S) → IsUsed S.association s [] [] a [] }
    ensures polls { (p q : SctpStreams S) (r : Result (Option SctpEvent) AllocError)
        → PollsStreams S.association p r q → PollUses S.association p (met_of r) q }
    ensures writes { GenerationLaws S.association → (p q : SctpStreams S) (id : ℕ) (binary : Bool) (bytes : List ℕ)
        (r : Result ℕ SctpError) (s : ℕ) (written heard : List StreamMessage) → WritesStream S.association id binary bytes p r q
        → IsUsedOver S.association s written heard p
        → IsUsedOver S.association s (written ++ written_message id (S.association.generation p.association id) binary bytes r) heard q }
    ensures input { GenerationLaws S.association → (p q : SctpStreams S) (now : ℕ) (bytes : List ℕ)
        (r : Result (Unit {0}) AllocError) (s : ℕ) (written heard : List StreamMessage)
        → TakesInput S.association now bytes p r q → IsUsedOver S.association s written heard p
        → IsUsedOver S.association s written heard q }
    ensures timeout { GenerationLaws S.association → (p q : SctpStreams S) (now : ℕ) (wake wake' : Signals)
        (r : Result (Unit {0}) AllocError) (s : ℕ) (written heard : List StreamMessage)
        → TakesTimeout S.association now p wake r q wake' → IsUsedOver S.association s written heard p
        → IsUsedOver S.association s written heard q }
    ensures opens { GenerationLaws S.association → (p q : SctpStreams S) (id : ℕ) (config : ChannelConfig)
        (r : Result (Unit {0}) AllocError) (s : ℕ) (written heard : List StreamMessage) → OpensStream S.association id config p r q
        → IsUsedOver S.association s written heard p → IsUsedOver S.association s written heard q }
    ensures closes { GenerationLaws S.association → (p q : SctpStreams S) (id : ℕ) (r : Result (Unit {0}) AllocError) (s : ℕ)
        (written heard : List StreamMessage) → ClosesDataStream S.association id p r q → IsUsedOver S.association s written heard p
        → IsUsedOver S.association s written heard q }
    ensures threshold { GenerationLaws S.association → (p q : SctpStreams S) (id n s : ℕ) (written heard : List StreamMessage)
        → SetsThreshold S n (entry_place id p.entries) p q → IsUsedOver S.association s written heard p
        → IsUsedOver S.association s written heard q }
    ensures starts { GenerationLaws S.association → (p q : SctpStreams S) (client : Bool) (now max : ℕ) (snap : Option InitHalves)
        (r : Result (Unit {0}) SctpError) (s : ℕ) (written heard : List StreamMessage)
        → Inits S.association client now max snap p r q → IsUsedOver S.association s written heard p
        → IsUsedOver S.association s written heard q }
    ensures shuts { GenerationLaws S.association → (p q : SctpStreams S) (r : Result (Unit {0}) SctpError) (s : ℕ)
        (written heard : List StreamMessage) → Shuts S.association p r q → IsUsedOver S.association s written heard p
        → IsUsedOver S.association s written heard q }
{}
