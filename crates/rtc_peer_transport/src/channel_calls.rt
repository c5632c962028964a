//! What callers read of channels, and do with one that is open.
ghost use Rattle.std.specs.Prelude.{◌≡◌, None, Some, MatchOption, if◌then◌else◌};
ghost use Rattle.rtc_peer_core.specs.Meanings.{meanings};
ghost use Rattle.rtc_peer_transport.specs.ChannelCalls.{is_phase_open, stream_under, if_open, open_stream_under, config_under};
ghost use Rattle.rtc_peer_transport.specs.ChannelCalls.{SetsChannelThreshold, ClosesDataChannel, WritesChannel, write_taken as WriteTaken};

use crate::PolledPeer;
use rtc_parts::{Association, DtlsInstance, IceAgent, Ids, MediaSession};
use rtc_peer_core::{Phase, RtcError};
use rtc_sctp::{RtcSctp, SctpError};
use rtc_wire::{ChannelConfig, ChannelId};
use std::alloc::AllocError;

fn is_open_phase(phase: Phase) -> bool
    ensures { result ≡ is_phase_open phase }
{
    match phase {
        Phase::Alive => true,
        Phase::Closing | Phase::Closed => false,
    }
}

fn open_stream<S: Association>(sctp: &RtcSctp<S>, stream: u16) -> Option<u16>
    ensures { result ≡ if_open sctp.now stream }
{
    if sctp.is_open(stream) {
        return Some(stream);
    }
    None
}

fn write_taken(answer: Result<usize, SctpError>) -> Result<bool, RtcError>
    ensures { result ≡ WriteTaken answer }
{
    match answer {
        Ok(_) => Ok(true),
        Err(error) => Err(RtcError::from(error)),
    }
}

impl<I: IceAgent, D: DtlsInstance, S: Association, M: MediaSession, N: Ids> PolledPeer<
    I,
    D,
    S,
    M,
    N,
> {
    /// The stream of an open channel. None if the peer is closing or closed, if the channel has no stream, and if that is not open.
    pub fn open_stream_of(&self, id: ChannelId) -> Option<u16>
        ensures { result ≡ open_stream_under id self.now }
    {
        if !is_open_phase(self.core.phase) {
            return None;
        }
        match self.core.channels.stream_id_by_channel_id(id) {
            Some(stream) => open_stream(&self.core.sctp, stream),
            None => None,
        }
    }

    /// The config of a channel, if it was given a stream that has one.
    pub fn channel_config(&self, id: ChannelId) -> Option<&ChannelConfig>
        ensures { MatchOption result (config_under (stream_under id self.now.core.channels) self.now.core.sctp ≡ None)
            (λ config. config_under (stream_under id self.now.core.channels) self.now.core.sctp ≡ Some config.now) }
    {
        match self.core.channels.stream_id_by_channel_id(id) {
            Some(stream) => self.core.sctp.config(stream),
            None => None,
        }
    }

    /// Writes a message to the stream of a channel. It is not taken if it is longer than what is available.
    pub fn write_channel(&mut self, stream: u16, binary: bool, buf: &[u8]) -> Result<bool, RtcError>
        ensures { WritesChannel (meanings I.ice D.dtls S.association M.media N.ids) stream binary buf.now self.old result self.new }
    {
        if buf.len() > self.core.sctp.available() {
            return Ok(false);
        }
        write_taken(self.core.sctp.write(stream, binary, buf))
    }

    /// Asks for a `ChannelBufferedAmountLow` event once the channel of a stream has buffered `n` bytes or fewer.
    pub fn set_threshold(&mut self, stream: u16, n: usize)
        ensures { SetsChannelThreshold stream n self.old self.new }
    {
        if self.core.sctp.is_open(stream) {
            self.core.sctp.set_buffered_amount_low_threshold(stream, n);
        }
    }

    /// Closes a channel: its stream, if it has one, is reset (RFC 8831, section 6.7). The channel keeps its row until a
    /// poll reports that it is closed.
    pub fn close_data_channel(&mut self, id: ChannelId) -> Result<(), AllocError>
        ensures { ClosesDataChannel (meanings I.ice D.dtls S.association M.media N.ids) id self.old result self.new }
    {
        self.core.channels.close_channel(id, &mut self.core.sctp)
    }
}
