//! How calls of two peers join their associations, and what these then read.
ghost use Rattle.std.specs.Prelude.{◌≡◌, ◌++◌, ℕ, List, false, map};
ghost use Rattle.rtc_parts.specs.DtlsWords.{dtls_taken};
ghost use Rattle.rtc_parts.specs.AssociationWords.{written, read, ended};
ghost use Rattle.rtc_plain_dtls.specs.Contents.{DtlsContents};
ghost use Rattle.rtc_plain_dtls.specs.PlainMeaning.{plain_dtls};
ghost use Rattle.rtc_assoc_state.specs.Contents.{Contents};
ghost use Rattle.rtc_assoc_state.specs.Outbox.{has_unacknowledged};
ghost use Rattle.rtc_assoc_state.specs.PlainMeaning.{plain_meaning};
ghost use Rattle.rtc_assoc.specs.Unread.{IsPrefix, unread};
ghost use Rattle.rtc_sctp_laws.specs.StreamMessages.{StreamMessage, read_act, write_act};
ghost use Rattle.rtc_peer_core.specs.Meanings.{meanings};
ghost use Rattle.rtc_peer_transport.specs.declared.polled_peer.PolledPeer.{PolledPeer as Polled};
ghost use Rattle.rtc_peer_laws.specs.Acts.{PeerDid, begun_here};
ghost use Rattle.rtc_peer_laws.specs.PeerActs.{Came, nothing_came};
ghost use Rattle.rtc_peer_laws.specs.JoinedPeers.{AreUnused, CarriesData, PartsPast, PeersJoined, PacketParts, past_with, packet_parts};

use rtc_parts::{Association, DtlsInstance, IceAgent, Ids, MediaSession};

/// Two peers whose parts were not used yet are joined. They stay so by every call of one of them whose DTLS part
/// receives application data only in packets that the other one's DTLS part gave before. This holds whatever is lost,
/// repeated or reordered, and whatever other packets are received.
pub fn calls_keep_peers_joined<I: IceAgent, M: MediaSession, N: Ids>()
    ensures unused { (a b : PartsPast) (left right : PacketParts) → AreUnused a left → AreUnused b right
        → PeersJoined a left b right }
    ensures left { (a b : PartsPast) (p q : Polled I DtlsContents Contents M N) (right : PacketParts) (came : Came) (moments : List ℕ)
        (shown : List (List ℕ)) (wrote heard : List StreamMessage) → PeersJoined a (packet_parts p) b right
        → CarriesData came.dtls (dtls_taken b.dtls)
        → (did : PeerDid (meanings I.ice plain_dtls plain_meaning M.media N.ids) came moments shown wrote heard p q)
        → PeersJoined (past_with a did.acts) (packet_parts q) b right }
    ensures right { (a b : PartsPast) (p q : Polled I DtlsContents Contents M N) (left : PacketParts) (came : Came) (moments : List ℕ)
        (shown : List (List ℕ)) (wrote heard : List StreamMessage) → PeersJoined a left b (packet_parts p)
        → CarriesData came.dtls (dtls_taken a.dtls)
        → (did : PeerDid (meanings I.ice plain_dtls plain_meaning M.media N.ids) came moments shown wrote heard p q)
        → PeersJoined a left (past_with b did.acts) (packet_parts q) }
{}

/// Of each generation of each stream, the association of one peer reads a prefix of the messages that the association
/// of the other one wrote. The messages read and those still unread are together all that were written, if neither
/// closed the generation and the writer holds no unacknowledged item of the stream.
pub fn joined_peers_read_what_was_written()
    ensures right { (a b : PartsPast) (left right : PacketParts) (s g : ℕ) → PeersJoined a left b right
        → IsPrefix (read s g b.association) (written s g a.association) }
    ensures left { (a b : PartsPast) (left right : PacketParts) (s g : ℕ) → PeersJoined a left b right
        → IsPrefix (read s g a.association) (written s g b.association) }
    ensures all_right { (a b : PartsPast) (left right : PacketParts) (s g : ℕ) → PeersJoined a left b right
        → ended s g a.association ≡ false → ended s g b.association ≡ false
        → has_unacknowledged s left.association.outbox.items ≡ false
        → read s g b.association ++ unread s g right.association.inbox.unread ≡ written s g a.association }
    ensures all_left { (a b : PartsPast) (left right : PacketParts) (s g : ℕ) → PeersJoined a left b right
        → ended s g a.association ≡ false → ended s g b.association ≡ false
        → has_unacknowledged s right.association.outbox.items ≡ false
        → read s g a.association ++ unread s g left.association.inbox.unread ≡ written s g b.association }
{}

/// What a call adds to what was written and read of a generation is what it wrote and read.
pub fn messages_are_those_of_calls<
    I: IceAgent,
    D: DtlsInstance,
    S: Association,
    M: MediaSession,
    N: Ids,
>()
    ensures written { (past : PartsPast) (p q : Polled I D S M N) (came : Came) (moments : List ℕ) (shown : List (List ℕ))
        (wrote heard : List StreamMessage) (s g : ℕ)
        → (did : PeerDid (meanings I.ice D.dtls S.association M.media N.ids) came moments shown wrote heard p q)
        → written s g (past_with past did.acts).association ≡ written s g past.association ++ written s g (map write_act wrote) }
    ensures read { (past : PartsPast) (p q : Polled I D S M N) (came : Came) (moments : List ℕ) (shown : List (List ℕ))
        (wrote heard : List StreamMessage) (s g : ℕ)
        → (did : PeerDid (meanings I.ice D.dtls S.association M.media N.ids) came moments shown wrote heard p q)
        → read s g (past_with past did.acts).association ≡ read s g past.association ++ read s g (map read_act heard) }
{}

/// Calls that receive no datagram, and a side that begins the handshake, bring no application data.
pub fn calls_without_datagrams_carry_no_data()
    ensures none { (others : List (List ℕ)) → CarriesData nothing_came.dtls others }
    ensures begun { (others : List (List ℕ)) → CarriesData begun_here.dtls others }
{}
