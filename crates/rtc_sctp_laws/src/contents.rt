//! What is written and read of the stream of a channel, from its opening to its close.
ghost use Rattle.std.specs.Prelude.{◌≡◌, ◌++◌, ℕ, List, [], Bool, true, Option, Result, Ok, Some};
ghost use Rattle.std.specs.declared.alloc.AllocError.{AllocError};
ghost use Rattle.rtc_ready.specs.Signals.{Signals};
ghost use Rattle.rtc_wire.specs.declared.channel_config.ChannelConfig.{ChannelConfig};
ghost use Rattle.rtc_parts.specs.AssociationActs.{AssociationAct, Moved};
ghost use Rattle.rtc_sctp_entries.specs.Entries.{entry_place};
ghost use Rattle.rtc_sctp_entries.specs.declared.sctp_event.SctpEvent.{SctpEvent};
ghost use Rattle.rtc_sctp_values.specs.declared.sctp_error.SctpError.{SctpError};
ghost use Rattle.rtc_sctp_values.specs.InitHalves.{InitHalves};
ghost use Rattle.rtc_sctp.specs.Streams.{SctpStreams};
ghost use Rattle.rtc_sctp.specs.Calls.{Inits, Shuts, WritesStream, TakesInput, TakesTimeout};
ghost use Rattle.rtc_sctp.specs.StreamCalls.{OpensStream, ClosesDataStream, SetsThreshold};
ghost use Rattle.rtc_sctp_laws.specs.StreamMessages.{StreamMessage, are_dcep, shown_messages};
ghost use Rattle.rtc_sctp_laws.specs.GenerationLaws.{GenerationLaws};
ghost use Rattle.rtc_sctp_laws.specs.StreamUses.{messages_of, are_of_generation, begins_with_dcep};
ghost use Rattle.rtc_sctp_laws.specs.StreamUses.{IsLive, IsShutDown, IsUsed};
ghost use Rattle.rtc_sctp_entries.specs.declared.stream_entry.StreamEntry.{StreamEntry};
ghost use Rattle.rtc_sctp_laws.specs.Contents.{contents_of, data_of};
ghost use Rattle.rtc_sctp_laws.specs.PastGenerations.{IsPast, StaysPast};

use rtc_parts::Association;

/// A stream whose entry is open in a generation stays so by every call but a poll that reports its close. A message
/// that is written to it is written to this generation. What is returned of it as data is what the messages of this
/// generation carry.
///
/// No act writes to an earlier generation once the stream has a later one, or once this end closed it in its own. So it
/// is if the stream has no entry but a closed one, and a channel was opened or acknowledged in that generation.
pub fn live_streams_carry<S: Association>()
    ensures writes_own { (p q : SctpStreams S) (id n g : ℕ) (binary : Bool) (bytes : List ℕ)
        → WritesStream S.association id binary bytes p (Ok n) q → IsLive id g p.entries → S.association.generation p.association id ≡ g }
    ensures writes { (p q : SctpStreams S) (id s g : ℕ) (binary : Bool) (bytes : List ℕ) (r : Result ℕ SctpError)
        → WritesStream S.association id binary bytes p r q → IsLive s g p.entries → IsLive s g q.entries }
    ensures input { (p q : SctpStreams S) (now s g : ℕ) (bytes : List ℕ) (r : Result (Unit {0}) AllocError)
        → TakesInput S.association now bytes p r q → IsLive s g p.entries → IsLive s g q.entries }
    ensures timeout { (p q : SctpStreams S) (now s g : ℕ) (wake wake' : Signals) (r : Result (Unit {0}) AllocError)
        → TakesTimeout S.association now p wake r q wake' → IsLive s g p.entries → IsLive s g q.entries }
    ensures opens { (p q : SctpStreams S) (id s g : ℕ) (config : ChannelConfig) (r : Result (Unit {0}) AllocError)
        → OpensStream S.association id config p r q → IsLive s g p.entries → IsLive s g q.entries }
    ensures closes { (p q : SctpStreams S) (id s g : ℕ) (r : Result (Unit {0}) AllocError)
        → ClosesDataStream S.association id p r q → IsLive s g p.entries → IsLive s g q.entries }
    ensures threshold { (p q : SctpStreams S) (id n s g : ℕ) → SetsThreshold S n (entry_place id p.entries) p q
        → IsLive s g p.entries → IsLive s g q.entries }
    ensures starts { (p q : SctpStreams S) (client : Bool) (now max s g : ℕ) (snap : Option InitHalves) (r : Result (Unit {0}) SctpError)
        → Inits S.association client now max snap p r q → IsLive s g p.entries → IsLive s g q.entries }
    ensures shuts { (p q : SctpStreams S) (s g : ℕ) (r : Result (Unit {0}) SctpError) → Shuts S.association p r q
        → IsLive s g p.entries → IsLive s g q.entries }
    ensures shows { (s g : ℕ) (heard : List StreamMessage) → are_of_generation s g heard ≡ true
        → data_of s (shown_messages heard) ≡ contents_of (messages_of s g heard) }
    ensures opening { (s g : ℕ) (messages : List StreamMessage) → are_dcep messages ≡ true → contents_of (messages_of s g messages) ≡ [] }
    ensures joins { (xs ys : List StreamMessage) → contents_of (xs ++ ys) ≡ contents_of xs ++ contents_of ys }
    ensures past { GenerationLaws S.association → (s g : ℕ) (acts : List AssociationAct) (a b : S) → Moved S.association a acts b
        → IsPast S.association s g a → StaysPast S.association s g acts b }
    ensures shut { (s g : ℕ) (written heard : List StreamMessage) (a : S) (entries : List StreamEntry)
        → IsUsed S.association s written heard a entries → IsShutDown s entries
        → begins_with_dcep (messages_of s g written) ≡ true → IsPast S.association s g a }
{}
