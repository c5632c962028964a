//! What calls do to the association and to the DTLS connection.
ghost use Rattle.std.specs.Prelude.{List};
ghost use Rattle.rtc_peer_core.specs.Meanings.{meanings};
ghost use Rattle.rtc_peer_transport.specs.declared.polled_peer.PolledPeer.{PolledPeer as Polled};
ghost use Rattle.rtc_peer_laws.specs.PeerCalls.{CalledInTurn, PeerCalled};
ghost use Rattle.rtc_peer_laws.specs.Relay.{Relays};

use rtc_parts::{Association, DtlsInstance, IceAgent, Ids, MediaSession};

/// In each public call, each packet that is given to the association was received over the DTLS connection in that
/// call. Each packet that is sent over it in the call, or waits to be sent after it, was taken from the association in
/// the call or waited to be sent before it (RFC 8261, section 5). So it is over any number of calls, one after the
/// other.
pub fn calls_relay<I: IceAgent, D: DtlsInstance, S: Association, M: MediaSession, N: Ids>()
    ensures calls { (p q : Polled I D S M N) → PeerCalled (meanings I.ice D.dtls S.association M.media N.ids) p q
        → Relays (meanings I.ice D.dtls S.association M.media N.ids) p q }
    ensures in_turn { (p q : Polled I D S M N) (between : List (Polled I D S M N))
        → CalledInTurn (meanings I.ice D.dtls S.association M.media N.ids) p between q
        → Relays (meanings I.ice D.dtls S.association M.media N.ids) p q }
{}
