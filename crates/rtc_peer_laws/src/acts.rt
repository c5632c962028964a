//! What each call does to the parts of a peer, as lists of acts.
ghost use Rattle.std.specs.Prelude.{ℕ, Bool, List, []};
ghost use Rattle.rtc_sdp_values.specs.declared.candidate.Candidate.{Candidate as Reachable};
ghost use Rattle.rtc_sdp_values.specs.declared.sdp.Sdp.{Sdp as Description};
ghost use Rattle.rtc_change.specs.PendingOffer.{PendingOffer};
ghost use Rattle.rtc_peer_core.specs.declared.peer.Peer.{Peer};
ghost use Rattle.rtc_peer_core.specs.Acceptances.{AcceptsAnswer, AcceptsOffer};
ghost use Rattle.rtc_peer_core.specs.Meanings.{meanings};
ghost use Rattle.rtc_peer_core.specs.RollingBack.{RollsBack};
ghost use Rattle.rtc_peer_transport.specs.declared.input.Input.{Input as Given};
ghost use Rattle.rtc_peer_transport.specs.declared.polled_peer.PolledPeer.{PolledPeer as Polled};
ghost use Rattle.rtc_peer_transport.specs.ChannelCalls.{ClosesDataChannel, SetsChannelThreshold, WritesChannel};
ghost use Rattle.rtc_peer_transport.specs.Closing.{ClosesPeer};
ghost use Rattle.rtc_peer_polling.specs.Inputs.{HandlesInput};
ghost use Rattle.rtc_peer_polling.specs.Walk.{PollsPeer};
ghost use Rattle.rtc_peer_laws.specs.Acts.{CallActs, InputActs, NegotiationActs, PollActs, message_of_write, with_agent, with_core};

use rtc_parts::{Association, DtlsInstance, IceAgent, Ids, MediaSession};

/// Each call is a list of acts of each part. A poll gives the parts nothing from outside, and returns only what they
/// gave. It reports at most the last message that it read for a channel: the last of its stream, in the generation that
/// the stream has. An input gives its datagram to one part at most, and no moment but its own. A write that is taken
/// writes one message. If a data channel is closed, no packet is received, and no message is written or read.
pub fn calls_act<I: IceAgent, D: DtlsInstance, S: Association, M: MediaSession, N: Ids>()
    ensures polls { (p q : Polled I D S M N) (answer : _)
        → PollsPeer (meanings I.ice D.dtls S.association M.media N.ids) p answer q
        → PollActs (meanings I.ice D.dtls S.association M.media N.ids) p answer q }
    ensures inputs { (p q : Polled I D S M N) (input : Given) (answer : _)
        → HandlesInput (meanings I.ice D.dtls S.association M.media N.ids) input p answer q
        → InputActs (meanings I.ice D.dtls S.association M.media N.ids) input p q }
    ensures closes { (p q : Polled I D S M N) (answer : _)
        → ClosesPeer (meanings I.ice D.dtls S.association M.media N.ids) p answer q
        → CallActs (meanings I.ice D.dtls S.association M.media N.ids) [] p q }
    ensures writes { (p q : Polled I D S M N) (stream : ℕ) (binary : Bool) (bytes : List ℕ) (answer : _)
        → WritesChannel (meanings I.ice D.dtls S.association M.media N.ids) stream binary bytes p answer q
        → CallActs (meanings I.ice D.dtls S.association M.media N.ids)
        (message_of_write stream (S.association.generation p.core.sctp.association stream) binary bytes answer) p q }
    ensures thresholds { (p q : Polled I D S M N) (stream n : ℕ) → SetsChannelThreshold stream n p q
        → CallActs (meanings I.ice D.dtls S.association M.media N.ids) [] p q }
    ensures channel_closes { (p q : Polled I D S M N) (id : ℕ) (answer : _)
        → ClosesDataChannel (meanings I.ice D.dtls S.association M.media N.ids) id p answer q
        → CallActs (meanings I.ice D.dtls S.association M.media N.ids) [] p q }
{}

/// So is each offer and each answer that is accepted, refused or stopped. No packet is received from outside or sent,
/// no message is written or read, and no moment is passed on but the greatest that was taken. So is an offer that is
/// rolled back.
pub fn acceptances_act<I: IceAgent, D: DtlsInstance, S: Association, M: MediaSession, N: Ids>()
    ensures offers { (p : Polled I D S M N) (core : Peer I D S M N) (offer : Description) (answer : _)
        → AcceptsOffer (meanings I.ice D.dtls S.association M.media N.ids) p.core offer answer core
        → NegotiationActs (meanings I.ice D.dtls S.association M.media N.ids) p (with_core core p) }
    ensures answers { (p : Polled I D S M N) (core : Peer I D S M N) (token : PendingOffer) (description : Description) (answer : _)
        → AcceptsAnswer (meanings I.ice D.dtls S.association M.media N.ids) p.core token description answer core
        → NegotiationActs (meanings I.ice D.dtls S.association M.media N.ids) p (with_core core p) }
    ensures rollbacks { (p : Polled I D S M N) (core : Peer I D S M N) (token : PendingOffer) (answer : _)
        → RollsBack p.core token answer core
        → NegotiationActs (meanings I.ice D.dtls S.association M.media N.ids) p (with_core core p) }
{}

/// So is each candidate that is added, of this side or of the other one. The agent is given no message and no moment,
/// and the other parts are as they were.
pub fn candidates_act<I: IceAgent, D: DtlsInstance, S: Association, M: MediaSession, N: Ids>()
    ensures own { (p : Polled I D S M N) (ice : I) (candidate : Reachable) (answer : _)
        → I.ice.local_added p.core.ice candidate answer ice
        → CallActs (meanings I.ice D.dtls S.association M.media N.ids) [] p (with_agent ice p) }
    ensures others { (p : Polled I D S M N) (ice : I) (candidate : Reachable) (answer : _)
        → I.ice.remote_added p.core.ice candidate answer ice
        → CallActs (meanings I.ice D.dtls S.association M.media N.ids) [] p (with_agent ice p) }
{}
