//! The acts of the calls of streams.
ghost use Rattle.std.specs.Prelude.{◌≡◌, ℕ, List, [], ◌∷◌, Bool, Option, Result};
ghost use Rattle.std.specs.declared.alloc.AllocError.{AllocError};
ghost use Rattle.rtc_ready.specs.Signals.{Signals};
ghost use Rattle.rtc_wire.specs.declared.channel_config.ChannelConfig.{ChannelConfig};
ghost use Rattle.rtc_sctp_entries.specs.declared.sctp_event.SctpEvent.{SctpEvent};
ghost use Rattle.rtc_sctp_values.specs.declared.sctp_error.SctpError.{SctpError};
ghost use Rattle.rtc_sctp_values.specs.InitHalves.{InitHalves};
ghost use Rattle.rtc_sctp.specs.Streams.{SctpStreams};
ghost use Rattle.rtc_sctp.specs.Calls.{Inits, Shuts, WritesStream, TakesInput, TakesTimeout};
ghost use Rattle.rtc_sctp.specs.StreamCalls.{OpensStream, ClosesDataStream};
ghost use Rattle.rtc_sctp.specs.Polls.{PollsStreams};
ghost use Rattle.rtc_sctp_laws.specs.StreamMessages.{met_of};
ghost use Rattle.rtc_sctp_laws.specs.StreamActs.{CallDid, PollDid, written_message, given_packet};

use rtc_parts::Association;

/// What each call on streams did to the association, as acts in order.
///
/// A poll gives the association no packet. What it sends, with what is pushed back afterwards, is what was pushed back
/// before and what it took. The data that it returns is what it read, in order. It writes only open messages and their
/// acknowledgements. A write that is Ok writes one message, and `handle_input` gives one packet. Every other call
/// gives, takes, writes and reads nothing.
pub fn calls_did<S: Association>()
    ensures polls { (p q : SctpStreams S) (r : Result (Option SctpEvent) AllocError) → PollsStreams S.association p r q
        → PollDid S.association p (met_of r) q }
    ensures writes { (p q : SctpStreams S) (id : ℕ) (binary : Bool) (bytes : List ℕ) (r : Result ℕ SctpError)
        → WritesStream S.association id binary bytes p r q
        → CallDid S.association [] (written_message id (S.association.generation p.association id) binary bytes r) p q }
    ensures input { (p q : SctpStreams S) (now : ℕ) (bytes : List ℕ) (r : Result (Unit {0}) AllocError)
        → TakesInput S.association now bytes p r q
        → CallDid S.association (given_packet (S.association.started p.association) bytes) [] p q }
    ensures timeout { (p q : SctpStreams S) (now : ℕ) (wake wake' : Signals) (r : Result (Unit {0}) AllocError)
        → TakesTimeout S.association now p wake r q wake' → CallDid S.association [] [] p q }
    ensures opens { (p q : SctpStreams S) (id : ℕ) (config : ChannelConfig) (r : Result (Unit {0}) AllocError)
        → OpensStream S.association id config p r q → CallDid S.association [] [] p q }
    ensures closes { (p q : SctpStreams S) (id : ℕ) (r : Result (Unit {0}) AllocError)
        → ClosesDataStream S.association id p r q → CallDid S.association [] [] p q }
    ensures starts { (p q : SctpStreams S) (client : Bool) (now max : ℕ) (snap : Option InitHalves) (r : Result (Unit {0}) SctpError)
        → Inits S.association client now max snap p r q → CallDid S.association [] [] p q }
    ensures shuts { (p q : SctpStreams S) (r : Result (Unit {0}) SctpError) → Shuts S.association p r q
        → CallDid S.association [] [] p q }
{}
