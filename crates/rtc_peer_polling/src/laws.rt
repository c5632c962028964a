//! What holds of every poll, input and close, whatever the parts are.
ghost use Rattle.std.specs.Prelude.{◌≡◌, Err, None};
ghost use Rattle.rtc_peer_core.specs.declared.phase.Phase.TheVariants.{Closed};
ghost use Rattle.rtc_peer_core.specs.Meanings.{meanings};
ghost use Rattle.rtc_peer_core.specs.ChannelRows.{channel_rows};
ghost use Rattle.rtc_peer_core.specs.Stance.{stance_of};
ghost use Rattle.rtc_peer_transport.specs.declared.input.Input.{Input as Given};
ghost use Rattle.rtc_peer_transport.specs.declared.polled_peer.PolledPeer.{PolledPeer as Polled};
ghost use Rattle.rtc_peer_core.specs.declared.rtc_error.RtcError.TheVariants.{Alloc};
ghost use Rattle.rtc_peer_transport.specs.Closing.{ClosesPeer};
ghost use Rattle.rtc_peer_polling.specs.Inputs.{HandlesInput};
ghost use Rattle.rtc_peer_polling.specs.Kept.{KeepsNegotiation, KeepsStart};
ghost use Rattle.rtc_peer_polling.specs.Numbers.{ChannelNumbers, number_told};
ghost use Rattle.rtc_peer_polling.specs.Walk.{PollsPeer};

use rtc_parts::{Association, DtlsInstance, IceAgent, Ids, MediaSession};

/// Polls, inputs and closing change nothing of what negotiation keeps beside the channels and their streams: rows, what is
/// staged, the counter of offers, the announced fingerprint and the source of numbers.
pub fn negotiation_is_kept<I: IceAgent, D: DtlsInstance, S: Association, M: MediaSession, N: Ids>()
    ensures polls { (p q : Polled I D S M N) (answer : _)
        → PollsPeer (meanings I.ice D.dtls S.association M.media N.ids) p answer q → KeepsNegotiation p q }
    ensures inputs { (p q : Polled I D S M N) (input : Given) (answer : _)
        → HandlesInput (meanings I.ice D.dtls S.association M.media N.ids) input p answer q → KeepsNegotiation p q }
    ensures closes { (p q : Polled I D S M N) (answer : _)
        → ClosesPeer (meanings I.ice D.dtls S.association M.media N.ids) p answer q → KeepsNegotiation p q }
{}

/// Polls, inputs and closing leave all that negotiation reads of a peer but for the channels: beside what it keeps, the
/// settings of the ICE agent, the DTLS role, the fingerprint of this side, the longest message, whether the association
/// is started, and SNAP.
pub fn stance_is_kept<I: IceAgent, D: DtlsInstance, S: Association, M: MediaSession, N: Ids>()
    ensures polls { (p q : Polled I D S M N) (answer : _)
        → PollsPeer (meanings I.ice D.dtls S.association M.media N.ids) p answer q
        → stance_of (meanings I.ice D.dtls S.association M.media N.ids) q.core
        ≡ record (stance_of (meanings I.ice D.dtls S.association M.media N.ids) p.core)
        { channels = q.core.channels; rows = channel_rows S.association q.core.sctp q.core.channels } }
    ensures inputs { (p q : Polled I D S M N) (input : Given) (answer : _)
        → HandlesInput (meanings I.ice D.dtls S.association M.media N.ids) input p answer q
        → stance_of (meanings I.ice D.dtls S.association M.media N.ids) q.core
        ≡ record (stance_of (meanings I.ice D.dtls S.association M.media N.ids) p.core)
        { channels = q.core.channels; rows = channel_rows S.association q.core.sctp q.core.channels } }
    ensures closes { (p q : Polled I D S M N) (answer : _)
        → ClosesPeer (meanings I.ice D.dtls S.association M.media N.ids) p answer q
        → stance_of (meanings I.ice D.dtls S.association M.media N.ids) q.core
        ≡ record (stance_of (meanings I.ice D.dtls S.association M.media N.ids) p.core)
        { channels = q.core.channels; rows = channel_rows S.association q.core.sctp q.core.channels } }
{}

/// Polls, inputs and closing leave whether the association is started. Before it is started they bring no stream into use.
pub fn starts_are_kept<I: IceAgent, D: DtlsInstance, S: Association, M: MediaSession, N: Ids>()
    ensures polls { (p q : Polled I D S M N) (answer : _)
        → PollsPeer (meanings I.ice D.dtls S.association M.media N.ids) p answer q
        → KeepsStart S.association p.core.sctp q.core.sctp }
    ensures inputs { (p q : Polled I D S M N) (input : Given) (answer : _)
        → HandlesInput (meanings I.ice D.dtls S.association M.media N.ids) input p answer q
        → KeepsStart S.association p.core.sctp q.core.sctp }
    ensures closes { (p q : Polled I D S M N) (answer : _)
        → ClosesPeer (meanings I.ice D.dtls S.association M.media N.ids) p answer q
        → KeepsStart S.association p.core.sctp q.core.sctp }
{}

/// Running out of memory in a poll, an input or a close leaves the peer closed.
pub fn want_of_memory_closes<
    I: IceAgent,
    D: DtlsInstance,
    S: Association,
    M: MediaSession,
    N: Ids,
>()
    ensures polls { (p q : Polled I D S M N)
        → PollsPeer (meanings I.ice D.dtls S.association M.media N.ids) p (Err Alloc) q → q.core.phase ≡ Closed }
    ensures inputs { (p q : Polled I D S M N) (input : Given)
        → HandlesInput (meanings I.ice D.dtls S.association M.media N.ids) input p (Err Alloc) q → q.core.phase ≡ Closed }
    ensures closes { (p q : Polled I D S M N)
        → ClosesPeer (meanings I.ice D.dtls S.association M.media N.ids) p (Err Alloc) q → q.core.phase ≡ Closed }
{}

/// Channel numbers rise over polls, inputs and closing: a poll gives one at most, and reports it.
pub fn channels_are_numbered<
    I: IceAgent,
    D: DtlsInstance,
    S: Association,
    M: MediaSession,
    N: Ids,
>()
    ensures polls { (p q : Polled I D S M N) (answer : _)
        → PollsPeer (meanings I.ice D.dtls S.association M.media N.ids) p answer q
        → ChannelNumbers (number_told answer) p.core.channels q.core.channels }
    ensures inputs { (p q : Polled I D S M N) (input : Given) (answer : _)
        → HandlesInput (meanings I.ice D.dtls S.association M.media N.ids) input p answer q
        → ChannelNumbers None p.core.channels q.core.channels }
    ensures closes { (p q : Polled I D S M N) (answer : _)
        → ClosesPeer (meanings I.ice D.dtls S.association M.media N.ids) p answer q
        → ChannelNumbers None p.core.channels q.core.channels }
{}
