//! Two peers over plain parts that exchange datagrams, and what their associations read.
ghost use Rattle.std.specs.Prelude.{◌++◌, ℕ, List};
ghost use Rattle.rtc_parts.specs.AssociationWords.{written, read};
ghost use Rattle.rtc_plain_ice.specs.Contents.{IceContents};
ghost use Rattle.rtc_plain_ice.specs.PlainMeaning.{plain_ice};
ghost use Rattle.rtc_plain_dtls.specs.Contents.{DtlsContents};
ghost use Rattle.rtc_plain_dtls.specs.PlainMeaning.{plain_dtls};
ghost use Rattle.rtc_assoc_state.specs.Contents.{Contents};
ghost use Rattle.rtc_assoc_state.specs.PlainMeaning.{plain_meaning};
ghost use Rattle.rtc_assoc.specs.Unread.{IsPrefix};
ghost use Rattle.rtc_plain_media.specs.MediaContents.{MediaContents};
ghost use Rattle.rtc_plain_media.specs.PlainMediaMeaning.{plain_media_meaning};
ghost use Rattle.rtc_sctp_laws.specs.StreamMessages.{StreamMessage};
ghost use Rattle.rtc_peer_core.specs.Meanings.{meanings};
ghost use Rattle.rtc_peer_transport.specs.declared.polled_peer.PolledPeer.{PolledPeer as Polled};
ghost use Rattle.rtc_peer_laws.specs.Acts.{PeerDid};
ghost use Rattle.rtc_peer_laws.specs.PeerActs.{Came, PeerActs, acts_with};
ghost use Rattle.rtc_peer_laws.specs.Exchanging.{PeersExchange};
ghost use Rattle.rtc_peer_laws.specs.JoinedPeers.{CarriesData};

use rtc_parts::Ids;

/// Two peers over plain parts that exchange datagrams stay so by every call of one of them whose DTLS part receives
/// application data only in datagrams that the other one sent. This holds whatever is lost, repeated or reordered. What
/// one association reads of a generation of a stream is a prefix of what the other one wrote.
pub fn exchanges_keep_peers_joined<N: Ids>()
    ensures left { (a b : PeerActs) (before after others : List (List ℕ))
        (p next q : Polled IceContents DtlsContents Contents MediaContents N) (came : Came) (moments : List ℕ)
        (wrote heard : List StreamMessage) → PeersExchange a before p b others q → CarriesData came.dtls others
        → (did : PeerDid (meanings plain_ice plain_dtls plain_meaning plain_media_meaning N.ids) came moments after wrote heard p next)
        → PeersExchange (acts_with a did.acts) (before ++ after) next b others q }
    ensures right { (a b : PeerActs) (before after others : List (List ℕ))
        (p q next : Polled IceContents DtlsContents Contents MediaContents N) (came : Came) (moments : List ℕ)
        (wrote heard : List StreamMessage) → PeersExchange a others p b before q → CarriesData came.dtls others
        → (did : PeerDid (meanings plain_ice plain_dtls plain_meaning plain_media_meaning N.ids) came moments after wrote heard q next)
        → PeersExchange a others p (acts_with b did.acts) (before ++ after) next }
    ensures right_reads { (a b : PeerActs) (left right : List (List ℕ))
        (p q : Polled IceContents DtlsContents Contents MediaContents N) (s g : ℕ) → PeersExchange a left p b right q
        → IsPrefix (read s g b.association) (written s g a.association) }
    ensures left_reads { (a b : PeerActs) (left right : List (List ℕ))
        (p q : Polled IceContents DtlsContents Contents MediaContents N) (s g : ℕ) → PeersExchange a left p b right q
        → IsPrefix (read s g a.association) (written s g b.association) }
{}
