//! What staging and applying changes does to the parts of a peer.
ghost use Rattle.std.specs.Prelude.{ℕ, Bool, List, []};
ghost use Rattle.rtc_wire.specs.declared.channel_config.ChannelConfig.{ChannelConfig};
ghost use Rattle.rtc_sdp_values.specs.declared.direction.Direction.{Direction as Way};
ghost use Rattle.rtc_peer_core.specs.declared.peer.Peer.{Peer};
ghost use Rattle.rtc_peer_core.specs.Calls.{AddsChannel, AddsMedia, Applies, SetsDirection, StagesRestart, StopsMedia, Wanted};
ghost use Rattle.rtc_peer_core.specs.Meanings.{meanings};
ghost use Rattle.rtc_peer_transport.specs.declared.polled_peer.PolledPeer.{PolledPeer as Polled};
ghost use Rattle.rtc_peer_laws.specs.Acts.{CallActs, with_core};

use rtc_parts::{Association, DtlsInstance, IceAgent, Ids, MediaSession};

/// Staging and applying are lists of acts of each part. Nothing is received from outside, no message is written or read,
/// and the agent, the DTLS part and the media part are given no moment. By the calls' own relations, staging leaves the
/// parts as they were, and applying may set which side is controlling (`AddsMedia`, `Applies`).
pub fn changes_act<I: IceAgent, D: DtlsInstance, S: Association, M: MediaSession, N: Ids>()
    ensures channels { (p : Polled I D S M N) (core : Peer I D S M N) (config : ChannelConfig) (answer : _)
        → AddsChannel (meanings I.ice D.dtls S.association M.media N.ids) p.core config answer core
        → CallActs (meanings I.ice D.dtls S.association M.media N.ids) [] p (with_core core p) }
    ensures lines { (p : Polled I D S M N) (core : Peer I D S M N) (wanted : Wanted) (answer : _)
        → AddsMedia (meanings I.ice D.dtls S.association M.media N.ids) p.core wanted answer core
        → CallActs (meanings I.ice D.dtls S.association M.media N.ids) [] p (with_core core p) }
    ensures directions { (p : Polled I D S M N) (core : Peer I D S M N) (mid : List ℕ) (dir : Way) (answer : _)
        → SetsDirection p.core mid dir answer core
        → CallActs (meanings I.ice D.dtls S.association M.media N.ids) [] p (with_core core p) }
    ensures stops { (p : Polled I D S M N) (core : Peer I D S M N) (mid : List ℕ) (answer : _) → StopsMedia p.core mid answer core
        → CallActs (meanings I.ice D.dtls S.association M.media N.ids) [] p (with_core core p) }
    ensures restarts { (p : Polled I D S M N) (core : Peer I D S M N) (keeps : Bool) (answer : _)
        → StagesRestart (meanings I.ice D.dtls S.association M.media N.ids) p.core keeps answer core
        → CallActs (meanings I.ice D.dtls S.association M.media N.ids) [] p (with_core core p) }
    ensures applies { (p : Polled I D S M N) (core : Peer I D S M N) (answer : _)
        → Applies (meanings I.ice D.dtls S.association M.media N.ids) p.core answer core
        → CallActs (meanings I.ice D.dtls S.association M.media N.ids) [] p (with_core core p) }
{}
