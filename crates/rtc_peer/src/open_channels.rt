//! The channels of a peer that are open.
ghost use Rattle.std.specs.Prelude.{◌≡◌, None, Some, IfSome, IsSome, MatchOption, ◌↔◌};
ghost use Rattle.std.specs.Borrow.{RestsIfNone, sem};
ghost use Rattle.rtc_peer.specs.contracts.rtc.Rtc.{the_row};
ghost use Rattle.rtc_peer_core.specs.Meanings.{meanings};
ghost use Rattle.rtc_peer_transport.specs.ChannelCalls.{ClosesDataChannel, open_stream_under};
ghost use Rattle.rtc_peer_transport.specs.ChannelCalls.{config_under, stream_under};
ghost use Rattle.rtc_peer.specs.CachedPeer.{polled_of};

use crate::waking::wake_all;
use crate::{Channel, Rtc};
use rtc_parts::{Association, DtlsInstance, IceAgent, Ids, MediaSession};
use rtc_wire::{ChannelConfig, ChannelId};
use std::alloc::AllocError;

impl<I: IceAgent, D: DtlsInstance, S: Association, M: MediaSession, N: Ids> Rtc<I, D, S, M, N> {
    /// An open data channel. None if the peer is closing or closed, if the channel has no stream, and if that is not open.
    pub fn channel(&mut self, id: ChannelId) -> Option<Channel<'_, I, D, S, M, N>>
        ensures* none { sem 𝓛 (RestsIfNone
            (the_row I.row D.row S.row M.row N.row M.E.row M.Rx.row M.Tx.row M.Writer.row
            (record { ice = I.ice }) (record { stun = I.stun }) D.DtlsInstance S.Association M.MediaSession M.E.MediaEvent N.Ids)
            self.entry (λ c. c.rtc.ghost_name) result (λ n. n ≡ self.old)) }
        ensures open { IsSome result ↔ IsSome (open_stream_under id (polled_of self.old)) }
        ensures same_reference { IfSome result (λ c. c.rtc.ghost_name ≡ self.entry.ghost_name) }
        ensures peer { IfSome result (λ c. c.rtc.now ≡ self.old) }
        ensures stream { IfSome result (λ c. open_stream_under id (polled_of self.old) ≡ Some c.stream) }
    {
        match self.polled.open_stream_of(id) {
            Some(stream) => Some(Channel { rtc: self, stream }),
            None => None,
        }
    }

    /// The config of a channel's stream. None if there is no such channel, it has no stream, or that has no config yet.
    pub fn channel_config(&self, id: ChannelId) -> Option<&ChannelConfig>
        ensures { MatchOption result (config_under (stream_under id self.now.core.channels) self.now.core.sctp ≡ None)
            (λ config. config_under (stream_under id self.now.core.channels) self.now.core.sctp ≡ Some config.now) }
    {
        self.polled.channel_config(id)
    }

    /// Closes a data channel: its stream, if it has one, is reset (RFC 8831, section 6.7). Nothing happens if there is
    /// no such channel, or it has no stream yet. Its row is removed by the poll that returns `ChannelClose`.
    pub fn close_data_channel(&mut self, id: ChannelId) -> Result<(), AllocError>
        ensures { ClosesDataChannel (meanings I.ice D.dtls S.association M.media N.ids) id (polled_of self.old) result
            (polled_of self.new) }
    {
        wake_all(&mut self.readiness);
        self.polled.close_data_channel(id)
    }
}
