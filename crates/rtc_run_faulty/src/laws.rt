//! What holds of every call of a peer over parts that fail.
ghost use Rattle.std.specs.Prelude.{◌≡◌, ◌-◌, ◌^◌, ℕ, Bool, List, Option, Ok, Err};
ghost use Rattle.rtc_change.specs.PendingOffer.{PendingOffer};
ghost use Rattle.rtc_peer_core.specs.Acceptances.{AcceptsAnswer, AcceptsOffer};
ghost use Rattle.rtc_peer_core.specs.declared.phase.Phase.TheVariants.{Closed};
ghost use Rattle.rtc_peer_core.specs.declared.rtc_error.RtcError.{RtcError};
ghost use Rattle.rtc_peer_core.specs.declared.rtc_error.RtcError.TheVariants.{Alloc};
ghost use Rattle.rtc_peer_direct.specs.ChannelMaking.{StartsStreams};
ghost use Rattle.rtc_peer_direct.specs.DtlsCalls.{TakesDtlsRole};
ghost use Rattle.rtc_peer_laws.specs.PeerCalls.{CalledInTurn, PeerCalled};
ghost use Rattle.rtc_peer_polling.specs.Inputs.{HandlesInput};
ghost use Rattle.rtc_peer_polling.specs.Walk.{PollsPeer};
ghost use Rattle.rtc_peer_transport.specs.ChannelCalls.{WritesChannel};
ghost use Rattle.rtc_peer_transport.specs.Closing.{ClosesPeer};
ghost use Rattle.rtc_peer_transport.specs.declared.input.Input.{Input};
ghost use Rattle.rtc_peer_transport.specs.declared.output.Output.TheVariants.{Timeout};
ghost use Rattle.rtc_sctp_values.specs.InitHalves.{InitHalves};
ghost use Rattle.rtc_sdp_values.specs.declared.sdp.Sdp.{Sdp};
ghost use Rattle.rtc_run_faulty.specs.FaultyParts.{FaultyCore, FaultyPolled, faulty_parts};
ghost use Rattle.rtc_run_faulty.specs.ListedFaults.{HasListedCause};

use crate::{FaultyAssociation, FaultyDtls, FaultyMedia};
use rtc_peer_polling::want_of_memory_closes;
use rtc_plain::{CountIds, PlainIce};

/// A call reports a fault of a part only if a listed call of that part failed in it: a poll, an input or a close, the
/// acceptance of an offer or an answer, a write, and a start of DTLS or of the association without descriptions.
pub fn faults_are_of_listed_calls()
    ensures polls { (p q : FaultyPolled) (error : RtcError) → PollsPeer faulty_parts p (Err error) q
        → HasListedCause p.core error q.core }
    ensures inputs { (p q : FaultyPolled) (input : Input) (error : RtcError)
        → HandlesInput faulty_parts input p (Err error) q → HasListedCause p.core error q.core }
    ensures closes { (p q : FaultyPolled) (error : RtcError) → ClosesPeer faulty_parts p (Err error) q
        → HasListedCause p.core error q.core }
    ensures offers { (p q : FaultyCore) (offer : Sdp) (error : RtcError) → AcceptsOffer faulty_parts p offer (Err error) q
        → HasListedCause p error q }
    ensures answers { (p q : FaultyCore) (token : PendingOffer) (answer : Sdp) (error : RtcError)
        → AcceptsAnswer faulty_parts p token answer (Err error) q → HasListedCause p error q }
    ensures writes { (p q : FaultyPolled) (stream : ℕ) (binary : Bool) (bytes : List ℕ) (error : RtcError)
        → WritesChannel faulty_parts stream binary bytes p (Err error) q → HasListedCause p.core error q.core }
    ensures roles { (p q : FaultyPolled) (active : Bool) (error : RtcError) → TakesDtlsRole faulty_parts.dtls active p (Err error) q
        → HasListedCause p.core error q.core }
    ensures starts { (p q : FaultyPolled) (client : Bool) (halves : Option InitHalves) (error : RtcError)
        → StartsStreams faulty_parts.association client halves p (Err error) q → HasListedCause p.core error q.core }
{}

/// Running out of memory in a poll, an input or a close leaves a peer over parts that fail closed. A closed peer polls
/// a timeout that is never reached, takes each input without a change, and stays closed, whatever public calls are made
/// on it.
pub fn faulty_peers_close_for_good()
    ensures polls { (p q : FaultyPolled) → PollsPeer faulty_parts p (Err Alloc) q → q.core.phase ≡ Closed }
    ensures inputs { (p q : FaultyPolled) (input : Input) → HandlesInput faulty_parts input p (Err Alloc) q → q.core.phase ≡ Closed }
    ensures closes { (p q : FaultyPolled) → ClosesPeer faulty_parts p (Err Alloc) q → q.core.phase ≡ Closed }
    ensures rests { (p q : FaultyPolled) (answer : _) → p.core.phase ≡ Closed → PollsPeer faulty_parts p answer q
        → (answer ≡ Ok (Timeout (2 ^ 64 - 1))) × (q.core.phase ≡ Closed) }
    ensures ignores { (p q : FaultyPolled) (input : Input) (answer : _) → p.core.phase ≡ Closed
        → HandlesInput faulty_parts input p answer q → (answer ≡ Ok tt) × (q ≡ p) }
    ensures shut { (p q : FaultyPolled) (answer : _) → p.core.phase ≡ Closed
        → ClosesPeer faulty_parts p answer q → (answer ≡ Ok tt) × (q ≡ p) }
    ensures calls { (p q : FaultyPolled) → PeerCalled faulty_parts p q → p.core.phase ≡ Closed → q.core.phase ≡ Closed }
    ensures in_turn { (p q : FaultyPolled) (between : List FaultyPolled) → CalledInTurn faulty_parts p between q
        → p.core.phase ≡ Closed → q.core.phase ≡ Closed }
{
    want_of_memory_closes::<PlainIce, FaultyDtls, FaultyAssociation, FaultyMedia, CountIds>();
}
