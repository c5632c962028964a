//! Data channels that are open.
ghost use Rattle.std.specs.Prelude.{◌≡◌, None, Some, MatchOption};
ghost use Rattle.rtc_sctp_entries.specs.Entries.{stream_config};
ghost use Rattle.rtc_peer_core.specs.Meanings.{meanings};
ghost use Rattle.rtc_peer_transport.specs.ChannelCalls.{SetsChannelThreshold, WritesChannel, bytes_buffered};
ghost use Rattle.rtc_peer.specs.CachedPeer.{polled_of};

use crate::Rtc;
use crate::waking::wake_all;
use rtc_parts::{Association, DtlsInstance, IceAgent, Ids, MediaSession};
use rtc_peer_core::RtcError;
use rtc_wire::ChannelConfig;

/// A data channel that is open (RFC 8831, section 6.4).
pub struct Channel<'a, I: IceAgent, D: DtlsInstance, S: Association, M: MediaSession, N: Ids> {
    pub(crate) rtc: &'a mut Rtc<I, D, S, M, N>,
    pub(crate) stream: u16,
}

impl<I: IceAgent, D: DtlsInstance, S: Association, M: MediaSession, N: Ids> Drop
    for Channel<'_, I, D, S, M, N> {
    fn drop(self)
        ensures { self.exit.0.now ≡ self.entry.rtc.now }
    {
        let Channel { rtc: _, stream: _ } = self;
    }
}

impl<I: IceAgent, D: DtlsInstance, S: Association, M: MediaSession, N: Ids> Channel<
    '_,
    I,
    D,
    S,
    M,
    N,
> {
    /// Writes a message, text or binary. Returns false, and writes nothing, if it is longer than what may still be
    /// buffered over all channels.
    pub fn write(&mut self, binary: bool, buf: &[u8]) -> Result<bool, RtcError>
        ensures writes { WritesChannel (meanings I.ice D.dtls S.association M.media N.ids)
            self.old.stream binary buf.now (polled_of self.old.rtc.now) result (polled_of self.new.rtc.now) }
        ensures same_stream { self.new.stream ≡ self.old.stream }
        ensures same_reference { self.new.rtc.ghost_name ≡ self.old.rtc.ghost_name }
    {
        let rtc = &mut *self.rtc;
        wake_all(&mut rtc.readiness);
        rtc.polled.write_channel(self.stream, binary, buf)
    }

    /// The bytes written to the channel that are not acknowledged.
    pub fn buffered_amount(&self) -> usize
        ensures { result ≡ bytes_buffered (meanings I.ice D.dtls S.association M.media N.ids) self.now.stream (polled_of self.now.rtc.now) }
    {
        let rtc = &*self.rtc;
        rtc.polled.core.sctp.buffered_amount(self.stream)
    }

    /// Asks for a `ChannelBufferedAmountLow` event once `threshold` bytes or fewer are buffered.
    pub fn set_buffered_amount_low_threshold(&mut self, threshold: usize)
        ensures asks { SetsChannelThreshold self.old.stream threshold (polled_of self.old.rtc.now) (polled_of self.new.rtc.now) }
        ensures same_stream { self.new.stream ≡ self.old.stream }
        ensures same_reference { self.new.rtc.ghost_name ≡ self.old.rtc.ghost_name }
    {
        let rtc = &mut *self.rtc;
        wake_all(&mut rtc.readiness);
        rtc.polled.set_threshold(self.stream, threshold);
    }

    /// What the channel was opened with.
    pub fn config(&self) -> Option<&ChannelConfig>
        ensures { MatchOption result (stream_config self.now.stream self.now.rtc.now.core.sctp.entries ≡ None)
            (λ config. stream_config self.now.stream self.now.rtc.now.core.sctp.entries ≡ Some config.now) }
    {
        let rtc = &*self.rtc;
        rtc.polled.core.sctp.config(self.stream)
    }
}
