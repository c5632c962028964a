//! How outputs of polls lower the weight of a peer, and what sets no threshold.
ghost use Rattle.std.specs.Prelude.{◌<◌, ℕ, Bool, List, length, Ok};
ghost use Rattle.std.specs.declared.alloc.Global.{Global};
ghost use Rattle.rtc_sdp_values.specs.declared.sdp.Sdp.{Sdp};
ghost use Rattle.rtc_config.specs.RtcConfig.{PeerConfig};
ghost use Rattle.rtc_change.specs.PendingOffer.{PendingOffer};
ghost use Rattle.rtc_peer_core.specs.declared.peer.Peer.{Peer};
ghost use Rattle.rtc_peer_core.specs.Acceptances.{AcceptsAnswer, AcceptsOffer};
ghost use Rattle.rtc_peer_core.specs.Built.{Builds};
ghost use Rattle.rtc_peer_core.specs.Calls.{Applies};
ghost use Rattle.rtc_peer_core.specs.Meanings.{meanings};
ghost use Rattle.rtc_peer_core.specs.RollingBack.{RollsBack};
ghost use Rattle.rtc_peer_transport.specs.declared.input.Input.{Input as Given};
ghost use Rattle.rtc_peer_transport.specs.declared.polled_peer.PolledPeer.{PolledPeer as Polled};
ghost use Rattle.rtc_peer_transport.specs.ChannelCalls.{ClosesDataChannel, WritesChannel};
ghost use Rattle.rtc_peer_transport.specs.Closing.{ClosesPeer};
ghost use Rattle.rtc_peer_polling.specs.Inputs.{HandlesInput};
ghost use Rattle.rtc_peer_polling.specs.Walk.{PollsPeer};
ghost use Rattle.rtc_peer_laws.specs.Weight.{FallsBy, HasNoThreshold, IsHandshakeTold, IsMoment, IsTimely, PutsOut, load, weight};

use rtc_parts::{Association, DtlsInstance, IceAgent, Ids, MediaSession};

/// Each datagram and each event that a poll returns lowers the load of a peer at which no threshold is set, and a
/// timeout does not raise it. After a poll the end of the handshake is reported. So fewer outputs than the weight are
/// returned before a timeout or an error, if there is no other call between.
pub fn outputs_lower_weight<I: IceAgent, D: DtlsInstance, S: Association, M: MediaSession, N: Ids>()
    ensures polls { (p q : Polled I D S M N) (output : _)
        → HasNoThreshold (meanings I.ice D.dtls S.association M.media N.ids) p.core
        → PollsPeer (meanings I.ice D.dtls S.association M.media N.ids) p (Ok output) q
        → FallsBy output (load (meanings I.ice D.dtls S.association M.media N.ids) p)
        (load (meanings I.ice D.dtls S.association M.media N.ids) q) }
    ensures thresholds { (p q : Polled I D S M N) (answer : _)
        → HasNoThreshold (meanings I.ice D.dtls S.association M.media N.ids) p.core
        → PollsPeer (meanings I.ice D.dtls S.association M.media N.ids) p answer q
        → HasNoThreshold (meanings I.ice D.dtls S.association M.media N.ids) q.core }
    ensures handshakes { (p q : Polled I D S M N) (answer : _) → IsHandshakeTold p
        → PollsPeer (meanings I.ice D.dtls S.association M.media N.ids) p answer q → IsHandshakeTold q }
    ensures drains { (p q : Polled I D S M N) (outputs : List _)
        → HasNoThreshold (meanings I.ice D.dtls S.association M.media N.ids) p.core → IsHandshakeTold p
        → PutsOut (meanings I.ice D.dtls S.association M.media N.ids) outputs p q
        → length outputs < weight (meanings I.ice D.dtls S.association M.media N.ids) p }
{}

/// No threshold is set at a peer that was just built, and a call sets none but that which asks for one.
pub fn other_calls_set_no_threshold<
    I: IceAgent,
    D: DtlsInstance,
    S: Association,
    M: MediaSession,
    N: Ids,
>()
    ensures built { (alloc : Global) (config : PeerConfig) (start : ℕ) (ice : I) (dtls : D) (association : S) (media : M) (ids : N)
        (p : Peer I D S M N) → IsMoment start → S.association.fresh association
        → Builds (meanings I.ice D.dtls S.association M.media N.ids) alloc config start ice dtls association media ids p
        → HasNoThreshold (meanings I.ice D.dtls S.association M.media N.ids) p }
    ensures inputs { (p q : Polled I D S M N) (input : Given) (answer : _) → IsTimely input
        → HasNoThreshold (meanings I.ice D.dtls S.association M.media N.ids) p.core
        → HandlesInput (meanings I.ice D.dtls S.association M.media N.ids) input p answer q
        → HasNoThreshold (meanings I.ice D.dtls S.association M.media N.ids) q.core }
    ensures closes { (p q : Polled I D S M N) (answer : _)
        → HasNoThreshold (meanings I.ice D.dtls S.association M.media N.ids) p.core
        → ClosesPeer (meanings I.ice D.dtls S.association M.media N.ids) p answer q
        → HasNoThreshold (meanings I.ice D.dtls S.association M.media N.ids) q.core }
    ensures writes { (p q : Polled I D S M N) (stream : ℕ) (binary : Bool) (bytes : List ℕ) (answer : _)
        → HasNoThreshold (meanings I.ice D.dtls S.association M.media N.ids) p.core
        → WritesChannel (meanings I.ice D.dtls S.association M.media N.ids) stream binary bytes p answer q
        → HasNoThreshold (meanings I.ice D.dtls S.association M.media N.ids) q.core }
    ensures channel_closes { (p q : Polled I D S M N) (id : ℕ) (answer : _)
        → HasNoThreshold (meanings I.ice D.dtls S.association M.media N.ids) p.core
        → ClosesDataChannel (meanings I.ice D.dtls S.association M.media N.ids) id p answer q
        → HasNoThreshold (meanings I.ice D.dtls S.association M.media N.ids) q.core }
    ensures offers { (p q : Peer I D S M N) (offer : Sdp) (answer : _)
        → HasNoThreshold (meanings I.ice D.dtls S.association M.media N.ids) p
        → AcceptsOffer (meanings I.ice D.dtls S.association M.media N.ids) p offer answer q
        → HasNoThreshold (meanings I.ice D.dtls S.association M.media N.ids) q }
    ensures answers { (p q : Peer I D S M N) (token : PendingOffer) (answer : Sdp) (result : _)
        → HasNoThreshold (meanings I.ice D.dtls S.association M.media N.ids) p
        → AcceptsAnswer (meanings I.ice D.dtls S.association M.media N.ids) p token answer result q
        → HasNoThreshold (meanings I.ice D.dtls S.association M.media N.ids) q }
    ensures applies { (p q : Peer I D S M N) (answer : _)
        → HasNoThreshold (meanings I.ice D.dtls S.association M.media N.ids) p
        → Applies (meanings I.ice D.dtls S.association M.media N.ids) p answer q
        → HasNoThreshold (meanings I.ice D.dtls S.association M.media N.ids) q }
    ensures rollbacks { (p q : Peer I D S M N) (token : PendingOffer) (answer : _)
        → HasNoThreshold (meanings I.ice D.dtls S.association M.media N.ids) p
        → RollsBack p token answer q
        → HasNoThreshold (meanings I.ice D.dtls S.association M.media N.ids) q }
{}

/// After other calls the end of the handshake is still reported, if it was.
pub fn other_calls_leave_handshakes_told<
    I: IceAgent,
    D: DtlsInstance,
    S: Association,
    M: MediaSession,
    N: Ids,
>()
    ensures inputs { (p q : Polled I D S M N) (input : Given) (answer : _) → IsHandshakeTold p
        → HandlesInput (meanings I.ice D.dtls S.association M.media N.ids) input p answer q → IsHandshakeTold q }
    ensures closes { (p q : Polled I D S M N) (answer : _) → IsHandshakeTold p
        → ClosesPeer (meanings I.ice D.dtls S.association M.media N.ids) p answer q → IsHandshakeTold q }
    ensures writes { (p q : Polled I D S M N) (stream : ℕ) (binary : Bool) (bytes : List ℕ) (answer : _) → IsHandshakeTold p
        → WritesChannel (meanings I.ice D.dtls S.association M.media N.ids) stream binary bytes p answer q → IsHandshakeTold q }
    ensures channel_closes { (p q : Polled I D S M N) (id : ℕ) (answer : _) → IsHandshakeTold p
        → ClosesDataChannel (meanings I.ice D.dtls S.association M.media N.ids) id p answer q → IsHandshakeTold q }
{}
