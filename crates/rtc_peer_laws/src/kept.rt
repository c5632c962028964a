//! What the calls of a peer beside polls leave of the streams of its channels.
ghost use Rattle.std.specs.Prelude.{◌≡◌, ℕ, Bool, true, List, [], Ok};
ghost use Rattle.rtc_wire.specs.declared.channel_config.ChannelConfig.{ChannelConfig};
ghost use Rattle.rtc_sdp_values.specs.declared.sdp.Sdp.{Sdp as Description};
ghost use Rattle.rtc_change.specs.PendingOffer.{PendingOffer};
ghost use Rattle.rtc_peer_core.specs.declared.peer.Peer.{Peer};
ghost use Rattle.rtc_peer_core.specs.declared.phase.Phase.TheVariants.{Closed};
ghost use Rattle.rtc_peer_core.specs.Acceptances.{AcceptsAnswer, AcceptsOffer};
ghost use Rattle.rtc_peer_core.specs.Calls.{AddsChannel, Applies};
ghost use Rattle.rtc_sctp_laws.specs.StreamUses.{IsLive};
ghost use Rattle.rtc_peer_transport.specs.declared.input.Input.{Input as Given};
ghost use Rattle.rtc_peer_transport.specs.declared.polled_peer.PolledPeer.{PolledPeer as Polled};
ghost use Rattle.rtc_peer_transport.specs.ChannelCalls.{ClosesDataChannel, SetsChannelThreshold, WritesChannel};
ghost use Rattle.rtc_peer_transport.specs.Closing.{ClosesPeer};
ghost use Rattle.rtc_peer_polling.specs.Inputs.{HandlesInput};
ghost use Rattle.rtc_peer_core.specs.Meanings.{meanings};
ghost use Rattle.rtc_peer_core.specs.RollingBack.{RollsBack};
ghost use Rattle.rtc_peer_laws.specs.Acts.{message_of_write, with_core};
ghost use Rattle.rtc_peer_laws.specs.KeptChannels.{CallKeepsStreams, CallLeavesStreams};
ghost use Rattle.rtc_sctp_laws.specs.StreamMessages.{StreamMessage};

use rtc_parts::{Association, DtlsInstance, IceAgent, Ids, MediaSession};

/// An input, a close, a write, a channel that is closed and a threshold keep the use of each stream, by the message that was written,
/// if one was; and each channel that is live on a stream. A message that is taken on a live channel is written to its generation.
pub fn other_calls_keep_streams<
    I: IceAgent,
    D: DtlsInstance,
    S: Association,
    M: MediaSession,
    N: Ids,
>()
    ensures inputs { (p q : Polled I D S M N) (input : Given) (answer : _)
        → HandlesInput (meanings I.ice D.dtls S.association M.media N.ids) input p answer q
        → CallKeepsStreams (meanings I.ice D.dtls S.association M.media N.ids) p [] q }
    ensures closes { (p q : Polled I D S M N) (answer : _)
        → ClosesPeer (meanings I.ice D.dtls S.association M.media N.ids) p answer q
        → CallKeepsStreams (meanings I.ice D.dtls S.association M.media N.ids) p [] q }
    ensures writes { (p q : Polled I D S M N) (stream : ℕ) (binary : Bool) (bytes : List ℕ) (answer : _)
        → WritesChannel (meanings I.ice D.dtls S.association M.media N.ids) stream binary bytes p answer q
        → CallKeepsStreams (meanings I.ice D.dtls S.association M.media N.ids) p
        (message_of_write stream (S.association.generation p.core.sctp.association stream) binary bytes answer) q }
    ensures writes_own { (p q : Polled I D S M N) (stream generation : ℕ) (binary : Bool) (bytes : List ℕ)
        → WritesChannel (meanings I.ice D.dtls S.association M.media N.ids) stream binary bytes p (Ok true) q
        → IsLive stream generation p.core.sctp.entries → S.association.generation p.core.sctp.association stream ≡ generation }
    ensures thresholds { (p q : Polled I D S M N) (stream n : ℕ) → SetsChannelThreshold stream n p q
        → CallKeepsStreams (meanings I.ice D.dtls S.association M.media N.ids) p [] q }
    ensures channel_closes { (p q : Polled I D S M N) (id : ℕ) (answer : _)
        → ClosesDataChannel (meanings I.ice D.dtls S.association M.media N.ids) id p answer q
        → CallKeepsStreams (meanings I.ice D.dtls S.association M.media N.ids) p [] q }
{}

/// So does each offer and each answer that is accepted, refused or stopped.
pub fn acceptances_keep_streams<
    I: IceAgent,
    D: DtlsInstance,
    S: Association,
    M: MediaSession,
    N: Ids,
>()
    ensures offers { (p : Polled I D S M N) (core : Peer I D S M N) (offer : Description) (answer : _)
        → AcceptsOffer (meanings I.ice D.dtls S.association M.media N.ids) p.core offer answer core
        → CallKeepsStreams (meanings I.ice D.dtls S.association M.media N.ids) p [] (with_core core p) }
    ensures answers { (p : Polled I D S M N) (core : Peer I D S M N) (token : PendingOffer) (description : Description) (answer : _)
        → AcceptsAnswer (meanings I.ice D.dtls S.association M.media N.ids) p.core token description answer core
        → CallKeepsStreams (meanings I.ice D.dtls S.association M.media N.ids) p [] (with_core core p) }
{}

/// So does a channel that is added, with its row behind the others; what is staged and applied; and every call that
/// leaves the streams and the channels, as one that stages a line, or gives the agent a candidate. One call follows
/// another.
///
/// An offer that is rolled back does so too, except that a live channel may be removed with its row.
pub fn stagings_keep_streams<
    I: IceAgent,
    D: DtlsInstance,
    S: Association,
    M: MediaSession,
    N: Ids,
>()
    ensures channels { (p : Polled I D S M N) (core : Peer I D S M N) (config : ChannelConfig) (answer : _)
        → AddsChannel (meanings I.ice D.dtls S.association M.media N.ids) p.core config answer core
        → CallKeepsStreams (meanings I.ice D.dtls S.association M.media N.ids) p [] (with_core core p) }
    ensures applies { (p : Polled I D S M N) (core : Peer I D S M N) (answer : _)
        → Applies (meanings I.ice D.dtls S.association M.media N.ids) p.core answer core
        → CallKeepsStreams (meanings I.ice D.dtls S.association M.media N.ids) p [] (with_core core p) }
    ensures others { (p q : Polled I D S M N) → q.core.sctp ≡ p.core.sctp → q.core.channels ≡ p.core.channels
        → (p.core.phase ≡ Closed → q.core.phase ≡ Closed)
        → CallKeepsStreams (meanings I.ice D.dtls S.association M.media N.ids) p [] q }
    ensures joins { (p between q : Polled I D S M N)
        → CallKeepsStreams (meanings I.ice D.dtls S.association M.media N.ids) p [] between
        → CallKeepsStreams (meanings I.ice D.dtls S.association M.media N.ids) between [] q
        → CallKeepsStreams (meanings I.ice D.dtls S.association M.media N.ids) p [] q }
    ensures rollbacks { (p : Polled I D S M N) (core : Peer I D S M N) (token : PendingOffer) (answer : _)
        → RollsBack p.core token answer core
        → CallLeavesStreams (meanings I.ice D.dtls S.association M.media N.ids) p [] (with_core core p) }
    ensures leaves { (p q : Polled I D S M N) (wrote : List StreamMessage)
        → CallKeepsStreams (meanings I.ice D.dtls S.association M.media N.ids) p wrote q
        → CallLeavesStreams (meanings I.ice D.dtls S.association M.media N.ids) p wrote q }
{}
