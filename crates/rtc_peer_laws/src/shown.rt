//! Which datagrams of a peer over plain parts carry application data.
ghost use Rattle.std.specs.Prelude.{◌++◌, ℕ, List};
ghost use Rattle.rtc_parts.specs.DtlsWords.{dtls_taken};
ghost use Rattle.rtc_plain_ice.specs.Contents.{IceContents};
ghost use Rattle.rtc_plain_ice.specs.PlainMeaning.{plain_ice};
ghost use Rattle.rtc_plain_media.specs.MediaContents.{MediaContents};
ghost use Rattle.rtc_plain_media.specs.PlainMediaMeaning.{plain_media_meaning};
ghost use Rattle.rtc_sctp_laws.specs.StreamMessages.{StreamMessage};
ghost use Rattle.rtc_peer_core.specs.Meanings.{meanings};
ghost use Rattle.rtc_peer_transport.specs.declared.polled_peer.PolledPeer.{PolledPeer as Polled};
ghost use Rattle.rtc_peer_laws.specs.Acts.{PeerDid};
ghost use Rattle.rtc_peer_laws.specs.PeerActs.{Came, PeerActs, acts_with};
ghost use Rattle.rtc_peer_laws.specs.JoinedPeers.{CarriesData};
ghost use Rattle.rtc_peer_laws.specs.ShownData.{HasShown, ShownSince};

use rtc_parts::{Association, DtlsInstance, Ids};

/// What a peer over a plain agent and a plain media part has shown grows by what its calls show. Of all of that, each datagram that
/// is a packet of application data of the plain DTLS part was given by the DTLS part.
pub fn shown_data_is_of_dtls<D: DtlsInstance, S: Association, N: Ids>()
    ensures calls { (past : PeerActs) (before after : List (List ℕ)) (p q : Polled IceContents D S MediaContents N) (came : Came)
        (moments : List ℕ) (wrote heard : List StreamMessage) → HasShown past before p
        → (did : PeerDid (meanings plain_ice D.dtls S.association plain_media_meaning N.ids) came moments after wrote heard p q)
        → HasShown (acts_with past did.acts) (before ++ after) q }
    ensures data { (past : PeerActs) (shown packets : List (List ℕ)) (ice : IceContents) (media : MediaContents)
        → ShownSince past shown ice media packets → CarriesData shown (dtls_taken past.dtls) }
{}
