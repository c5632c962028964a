//! What a write to a channel leaves buffered.
ghost use Rattle.std.specs.Prelude.{◌<◌, ◌≤◌, ℕ, Bool, true, List, Ok, length};
ghost use Rattle.rtc_peer_core.specs.Meanings.{meanings};
ghost use Rattle.rtc_peer_transport.specs.ChannelCalls.{WritesChannel};
ghost use Rattle.rtc_peer_transport.specs.declared.polled_peer.PolledPeer.{PolledPeer as Polled};
ghost use Rattle.rtc_sctp.specs.Calls.{buffered_sum};
ghost use Rattle.rtc_sctp_entries.specs.Entries.{Ascend};

use rtc_peer::{Association, DtlsInstance, IceAgent, Ids, MediaSession};

/// A message of at least one byte that a channel takes leaves no more buffered over all channels than the configuration
/// allows. Streams in use are in order of their numbers, as those of each peer are.
pub fn taken_messages_fit<I: IceAgent, D: DtlsInstance, S: Association, M: MediaSession, N: Ids>()
    ensures fits { (p q : Polled I D S M N) (stream : ℕ) (binary : Bool) (bytes : List ℕ) → Ascend p.core.sctp.entries → 0 < length bytes
        → WritesChannel (meanings I.ice D.dtls S.association M.media N.ids) stream binary bytes p (Ok true) q
        → buffered_sum S.association q.core.sctp.association q.core.sctp.entries ≤ q.core.sctp.max_buffered }
{}
