//! What calls without session descriptions do to the parts of a peer.
ghost use Rattle.std.specs.Prelude.{◌≡◌, ℕ, Bool, List, [], Option};
ghost use Rattle.rtc_wire.specs.declared.channel_config.ChannelConfig.{ChannelConfig};
ghost use Rattle.rtc_sdp_values.specs.declared.candidate.Candidate.{Candidate as Reachable};
ghost use Rattle.rtc_sdp_values.specs.declared.fingerprint.Fingerprint.{Fingerprint};
ghost use Rattle.rtc_sdp_values.specs.declared.ice_creds.IceCreds.{IceCreds};
ghost use Rattle.rtc_sdp_values.specs.declared.media_kind.MediaKind.{MediaKind};
ghost use Rattle.rtc_sdp_values.specs.declared.ssrc.Ssrc.{Ssrc};
ghost use Rattle.rtc_sctp_values.specs.InitHalves.{InitHalves};
ghost use Rattle.rtc_peer_core.specs.Meanings.{meanings};
ghost use Rattle.rtc_peer_transport.specs.declared.polled_peer.PolledPeer.{PolledPeer as Polled};
ghost use Rattle.rtc_peer_direct.specs.ChannelMaking.{CreatesChannel, StartsStreams};
ghost use Rattle.rtc_peer_direct.specs.DeclaredRows.{DeclaresMedia, RemovesMedia};
ghost use Rattle.rtc_peer_direct.specs.DtlsCalls.{TakesDtlsRole, with_fingerprint};
ghost use Rattle.rtc_peer_direct.specs.IceCalls.{InvalidatesCandidate, SetsControlling, SetsLite, SetsLocalCreds, SetsRemoteCreds};
ghost use Rattle.rtc_peer_direct.specs.SourcesAndFeedback.{DrawsSource, EnablesTwcc, SendsAppFeedback, SendsPli, SetsRed};
ghost use Rattle.rtc_peer_direct.specs.Streams.{DeclaresTx, ExpectsRx, LendsNamedRx, LendsNamedTx, LendsRx, LendsTx, LendsWriter};
ghost use Rattle.rtc_peer_direct.specs.Streams.{RemovesRx, RemovesTx, ResetsTx};
ghost use Rattle.rtc_peer_laws.specs.Acts.{CallActs, NegotiationActs};

use rtc_parts::{Association, DtlsInstance, IceAgent, Ids, MediaSession};

/// Each call is a list of acts of each part. No packet is received from outside, no message is written or read, and the
/// agent and the media part are given no moment. If a DTLS role is taken, the DTLS part may be given the greatest
/// moment that was taken, as by a session description.
pub fn direct_calls_act<I: IceAgent, D: DtlsInstance, S: Association, M: MediaSession, N: Ids>()
    ensures controlling { (p q : Polled I D S M N) (on : Bool) → SetsControlling I.ice on p q
        → CallActs (meanings I.ice D.dtls S.association M.media N.ids) [] p q }
    ensures lite { (p q : Polled I D S M N) (on : Bool) → SetsLite I.ice on p q
        → CallActs (meanings I.ice D.dtls S.association M.media N.ids) [] p q }
    ensures local_creds { (p q : Polled I D S M N) (creds : IceCreds) → SetsLocalCreds I.ice creds p q
        → CallActs (meanings I.ice D.dtls S.association M.media N.ids) [] p q }
    ensures remote_creds { (p q : Polled I D S M N) (creds : IceCreds) → SetsRemoteCreds I.ice creds p q
        → CallActs (meanings I.ice D.dtls S.association M.media N.ids) [] p q }
    ensures candidates { (p q : Polled I D S M N) (candidate : Reachable) (found : Bool)
        → InvalidatesCandidate I.ice candidate found p q
        → CallActs (meanings I.ice D.dtls S.association M.media N.ids) [] p q }
    ensures fingerprints { (p q : Polled I D S M N) (fingerprint : Fingerprint) → q ≡ with_fingerprint fingerprint p
        → CallActs (meanings I.ice D.dtls S.association M.media N.ids) [] p q }
    ensures roles { (p q : Polled I D S M N) (active : Bool) (answer : _) → TakesDtlsRole D.dtls active p answer q
        → NegotiationActs (meanings I.ice D.dtls S.association M.media N.ids) p q }
    ensures starts { (p q : Polled I D S M N) (client : Bool) (halves : Option InitHalves) (answer : _)
        → StartsStreams S.association client halves p answer q
        → CallActs (meanings I.ice D.dtls S.association M.media N.ids) [] p q }
    ensures channels { (p q : Polled I D S M N) (config : ChannelConfig) (answer : _) → CreatesChannel config p answer q
        → CallActs (meanings I.ice D.dtls S.association M.media N.ids) [] p q }
{}

/// So is each call on lines, SSRCs and feedback. Nothing is received from outside.
pub fn direct_media_acts<I: IceAgent, D: DtlsInstance, S: Association, M: MediaSession, N: Ids>()
    ensures declares { (p q : Polled I D S M N) (mid : List ℕ) (kind : MediaKind) (answer : _) → DeclaresMedia mid kind p answer q
        → CallActs (meanings I.ice D.dtls S.association M.media N.ids) [] p q }
    ensures removes { (p q : Polled I D S M N) (mid : List ℕ) (answer : Bool) → RemovesMedia M.media mid p answer q
        → CallActs (meanings I.ice D.dtls S.association M.media N.ids) [] p q }
    ensures sources { (p q : Polled I D S M N) (ssrc : Ssrc) → DrawsSource M.media N.ids p ssrc q
        → CallActs (meanings I.ice D.dtls S.association M.media N.ids) [] p q }
    ensures reds { (p q : Polled I D S M N) (mid : List ℕ) (on answer : Bool) → SetsRed M.media mid on p answer q
        → CallActs (meanings I.ice D.dtls S.association M.media N.ids) [] p q }
    ensures twcc { (p q : Polled I D S M N) → EnablesTwcc M.media p q
        → CallActs (meanings I.ice D.dtls S.association M.media N.ids) [] p q }
    ensures app_feedback { (p q : Polled I D S M N) (sender source : Ssrc) (payload : List ℕ) (answer : _)
        → SendsAppFeedback M.media sender source payload p answer q
        → CallActs (meanings I.ice D.dtls S.association M.media N.ids) [] p q }
    ensures plis { (p q : Polled I D S M N) (sender source : Ssrc) (answer : _) → SendsPli M.media sender source p answer q
        → CallActs (meanings I.ice D.dtls S.association M.media N.ids) [] p q }
    ensures rx_removed { (p q : Polled I D S M N) (ssrc : Ssrc) (answer : Bool) → RemovesRx M.media ssrc p answer q
        → CallActs (meanings I.ice D.dtls S.association M.media N.ids) [] p q }
    ensures tx_removed { (p q : Polled I D S M N) (ssrc : Ssrc) (answer : Bool) → RemovesTx M.media ssrc p answer q
        → CallActs (meanings I.ice D.dtls S.association M.media N.ids) [] p q }
{}

/// So is each stream or writer that is lent, whatever is written to it. Nothing is received from outside.
pub fn loans_act<I: IceAgent, D: DtlsInstance, S: Association, M: MediaSession, N: Ids>()
    ensures rx_expected { (p q : Polled I D S M N) (ssrc : Ssrc) (rtx : Option Ssrc) (mid : List ℕ) (rid : Option (List ℕ)) (lent left : _)
        → ExpectsRx M.media ssrc rtx mid rid p lent left q
        → CallActs (meanings I.ice D.dtls S.association M.media N.ids) [] p q }
    ensures tx_declared { (p q : Polled I D S M N) (ssrc : Ssrc) (rtx : Option Ssrc) (mid : List ℕ) (rid : Option (List ℕ)) (lent left : _)
        → DeclaresTx M.media ssrc rtx mid rid p lent left q
        → CallActs (meanings I.ice D.dtls S.association M.media N.ids) [] p q }
    ensures rx_lent { (p q : Polled I D S M N) (ssrc : Ssrc) (lent left : _) → LendsRx M.media ssrc p lent left q
        → CallActs (meanings I.ice D.dtls S.association M.media N.ids) [] p q }
    ensures tx_lent { (p q : Polled I D S M N) (ssrc : Ssrc) (lent left : _) → LendsTx M.media ssrc p lent left q
        → CallActs (meanings I.ice D.dtls S.association M.media N.ids) [] p q }
    ensures rx_named { (p q : Polled I D S M N) (mid : List ℕ) (rid : Option (List ℕ)) (lent left : _)
        → LendsNamedRx M.media mid rid p lent left q
        → CallActs (meanings I.ice D.dtls S.association M.media N.ids) [] p q }
    ensures tx_named { (p q : Polled I D S M N) (mid : List ℕ) (rid : Option (List ℕ)) (lent left : _)
        → LendsNamedTx M.media mid rid p lent left q
        → CallActs (meanings I.ice D.dtls S.association M.media N.ids) [] p q }
    ensures tx_reset { (p q : Polled I D S M N) (mid : List ℕ) (rid : Option (List ℕ)) (ssrc : Ssrc) (rtx : Option Ssrc) (lent left : _)
        → ResetsTx M.media mid rid ssrc rtx p lent left q
        → CallActs (meanings I.ice D.dtls S.association M.media N.ids) [] p q }
    ensures writers { (p q : Polled I D S M N) (mid : List ℕ) (lent left : _) → LendsWriter M.media mid p lent left q
        → CallActs (meanings I.ice D.dtls S.association M.media N.ids) [] p q }
{}
