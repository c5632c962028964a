//! That a channel opens once, and a generation of a stream in-band once.
ghost use Rattle.std.specs.Prelude.{◌≡◌, ◌++◌, ◌⊎◌, ℕ, List, [], Some, None, true};
ghost use Rattle.rtc_channels.specs.Channels.{Channels};
ghost use Rattle.rtc_peer_core.specs.Meanings.{meanings};
ghost use Rattle.rtc_peer_transport.specs.ChannelCalls.{stream_under};
ghost use Rattle.rtc_peer_polling.specs.StreamStages.{channel_over};
ghost use Rattle.rtc_peer_transport.specs.declared.polled_peer.PolledPeer.{PolledPeer as Polled};
ghost use Rattle.rtc_sctp_laws.specs.StreamMessages.{StreamMessage};
ghost use Rattle.rtc_sctp_laws.specs.GenerationLaws.{GenerationLaws};
ghost use Rattle.rtc_sctp_laws.specs.StreamUses.{IsLive, IsShutDown, IsUsed, any_dcep, entries_of, messages_of};
ghost use Rattle.rtc_sctp_entries.specs.declared.stream_entry.StreamEntry.{StreamEntry};
ghost use Rattle.rtc_peer_laws.specs.ChannelStreams.{AreNumberedChannels, IsGone, IsLiveChannel, IsUsedStream, OpensStreamOf};
ghost use Rattle.rtc_peer_laws.specs.KeptChannels.{IsSettledStream};

use rtc_parts::{Association, DtlsInstance, IceAgent, Ids, MediaSession};

/// If a channel is reported as open, its stream was opened out-of-band, or a message that opens a channel was read in
/// its generation, and none before this poll; the channel is live after the poll. A live channel is not reported as
/// open again. A channel that is gone has no stream, and no stream has it.
///
/// The use of a stream may be given by messages from now on alone, if it is live, or has no entry but a closed one.
pub fn channels_open_once<I: IceAgent, D: DtlsInstance, S: Association, M: MediaSession, N: Ids>()
    ensures once { GenerationLaws S.association → (p q : Polled I D S M N) (id : ℕ) (wrote heard written read : List StreamMessage)
        (opens : OpensStreamOf (meanings I.ice D.dtls S.association M.media N.ids) id p wrote heard q)
        → IsUsedStream (meanings I.ice D.dtls S.association M.media N.ids) opens.stream written read p
        → any_dcep (messages_of opens.stream (S.association.generation q.core.sctp.association opens.stream) read) ≡ true
        → IsSettledStream (entries_of opens.stream q.core.sctp.entries) }
    ensures opened { GenerationLaws S.association → (p q : Polled I D S M N) (id : ℕ) (wrote heard written read : List StreamMessage)
        (opens : OpensStreamOf (meanings I.ice D.dtls S.association M.media N.ids) id p wrote heard q)
        → IsUsedStream (meanings I.ice D.dtls S.association M.media N.ids) opens.stream written read p
        → IsSettledStream (entries_of opens.stream q.core.sctp.entries)
        ⊎ (any_dcep (messages_of opens.stream (S.association.generation q.core.sctp.association opens.stream) (read ++ heard)) ≡ true) }
    ensures begins { GenerationLaws S.association → (p q : Polled I D S M N) (id : ℕ)
        (wrote heard written read after later : List StreamMessage)
        (opens : OpensStreamOf (meanings I.ice D.dtls S.association M.media N.ids) id p wrote heard q)
        → IsUsedStream (meanings I.ice D.dtls S.association M.media N.ids) opens.stream written read p
        → IsUsedStream (meanings I.ice D.dtls S.association M.media N.ids) opens.stream after later q
        → IsSettledStream (entries_of opens.stream q.core.sctp.entries)
        ⊎ IsLiveChannel id opens.stream (S.association.generation q.core.sctp.association opens.stream) q }
    ensures live { (p q : Polled I D S M N) (id c s g : ℕ) (wrote heard : List StreamMessage)
        → OpensStreamOf (meanings I.ice D.dtls S.association M.media N.ids) id p wrote heard q → AreNumberedChannels p.core.channels
        → AreNumberedChannels q.core.channels → IsLiveChannel c s g p → IsLiveChannel c s g q → id ≡ c → ⊥ }
    ensures restarts { (s g : ℕ) (a : S) (entries : List StreamEntry) → IsLive s g entries ⊎ IsShutDown s entries
        → IsUsed S.association s [] [] a entries }
    ensures gone { (id s : ℕ) (held : Channels) → IsGone id held → channel_over s held ≡ Some id → ⊥ }
    ensures unplaced { (id : ℕ) (held : Channels) → IsGone id held → stream_under id held ≡ None }
{}
