//! Media lines and their streams.
use crate::answers::answer_of;
use crate::{
    MediaError, MediaEvent, MediaSettings, MediaUpdate, NoStream, Reason, SrtpProfile,
    StatsSnapshot,
};
use rtc_sdp_values::{Mid, Rid, Ssrc};
use rtc_wire::{DatagramSend, Moment};
use std::alloc::AllocError;

/// The media lines of a peer with their streams, and the protection of their packets (RFC 3550, RFC 3711).
///
/// Packets and moments are given; datagrams and events are polled. What a call does is its relation in the meaning of
/// the part, and what holds of every part are the laws.
pub trait MediaSession {
    type E: MediaEvent;
    /// A stream that is received.
    type Rx;
    /// A stream that is sent.
    type Tx;
    /// What sends on a line.
    type Writer;

    ghost use Rattle.std.specs.Prelude.{◌≡◌, ◌↔◌, IfOk, IfSome, IsNone, IsTrue, is_some};
    ghost use Rattle.std.specs.Option.{option_copied};
    ghost use Rattle.std.specs.Borrow.{LendsSo, LendsSoOk, sem};
    ghost use Rattle.rtc_parts.specs.MediaMeaning.{MediaMeaning};
    ghost use Rattle.rtc_parts.specs.MediaLaws.{MediaLaws};
    ghost use Rattle.rtc_parts.specs.NoStream.{StreamAnswers};
    ghost use Rattle.rtc_parts.specs.StreamLends.{IfLent, LendsStream};

    ghost media: { MediaMeaning Self Self.E Self.Rx Self.Tx Self.Writer };

    /// Takes the settings. It is called once, when the peer is built.
    fn configure(&mut self, settings: MediaSettings)
        ensures { media.configured self.old settings self.new };

    /// Makes ready what `commit` is to apply, in place of what was made ready before.
    fn prepare(&mut self, updates: &[MediaUpdate]) -> Result<(), AllocError>
        ensures { media.prepared self.old updates.now result self.new };

    /// Applies what was prepared last. No memory is taken.
    fn commit(&mut self)
        ensures { media.committed self.old self.new };

    /// The line of a mid, as the last commit that names it left it.
    fn line(&self, mid: Mid) -> Option<&MediaUpdate>
        ensures { option_copied result ≡ media.line self.now mid };

    /// Whether a stream of this end or of the other one has this SSRC.
    fn ssrc_used(&self, ssrc: Ssrc) -> bool
        ensures { result ≡ media.used self.now ssrc };

    /// Drops a line and its streams.
    fn remove_line(&mut self, mid: Mid)
        ensures { media.line_removed self.old mid self.new };

    /// Takes the keys of the packets' protection (RFC 5764, section 4.2). `active` says that this end is the DTLS client.
    fn set_keying(
        &mut self,
        key: &[u8],
        profile: SrtpProfile,
        active: bool,
    ) -> Result<(), AllocError>
        ensures { media.keyed self.old key.now profile active result self.new };

    /// Whether packets can be sent and received.
    fn is_connected(&self) -> bool
        ensures { result ≡ media.connected self.now };

    /// Takes an RTP packet of the other end.
    fn handle_rtp(&mut self, now: Moment, packet: &[u8]) -> Result<(), AllocError>
        ensures { media.rtp_given self.old now packet.now result self.new };

    /// Takes an RTCP packet of the other end.
    fn handle_rtcp(&mut self, now: Moment, packet: &[u8]) -> Result<(), AllocError>
        ensures { media.rtcp_given self.old now packet.now result self.new };

    fn handle_timeout(&mut self, now: Moment) -> Result<(), MediaError>
        ensures { media.timed self.old now result self.new };

    /// The next event that cannot fail.
    fn poll_event(&mut self) -> Option<Self::E>
        ensures { media.told self.old result self.new };

    /// The next event whose making may fail.
    fn poll_event_fallible(&mut self, now: Moment) -> Result<Option<Self::E>, MediaError>
        ensures { media.told_fallible self.old now result self.new };

    /// The next datagram for the other end.
    fn poll_datagram(&mut self, now: Moment) -> Option<DatagramSend>
        ensures { media.gave self.old now result self.new };

    /// When `handle_timeout` is wanted, and what for.
    fn poll_timeout(&self) -> Option<(Moment, Reason)>
        ensures { result ≡ media.wake self.now };

    /// Drops the feedback that waits to be sent.
    fn clear_feedback(&mut self)
        ensures { media.cleared self.old self.new };

    /// Says goodbye to the other end (RFC 3550, section 6.6).
    fn close_rtp(&mut self) -> Result<(), AllocError>
        ensures { media.rtp_shut self.old result self.new };

    /// Whether `close_rtp` was called and everything that it queued is sent.
    fn is_rtp_closed(&self) -> bool
        ensures { result ≡ media.rtp_closed self.now };

    /// Adds the statistics of the streams to a snapshot.
    fn visit_stats(&mut self, now: Moment, snapshot: &mut StatsSnapshot) -> Result<(), AllocError>
        ensures { media.stats_visited self.old now snapshot.old result snapshot.new self.new };

    /// What sends on a line.
    fn writer(&mut self, mid: Mid) -> Option<&mut Self::Writer>
        ensures* leaves { sem 𝓛 (LendsSo Self.row Self.Writer.row self.entry result
            (λ n w. IfSome result (λ lent. media.writer_lent self.old mid lent.now w n)) (λ n. n ≡ self.old)) }
        ensures found { is_some result ≡ media.has_writer self.old mid };

    /// Switches redundancy (RFC 2198) of what a line sends on or off. False if the line has no redundancy.
    fn set_red_send(&mut self, mid: Mid, on: bool) -> bool
        ensures { media.red_set self.old mid on result self.new };

    /// Switches on feedback on the congestion of the whole transport.
    fn enable_twcc_feedback(&mut self)
        ensures { media.twcc_enabled self.old self.new };

    /// Sends feedback that the application defines (RFC 4585, section 6.4).
    fn send_app_specific_feedback(
        &mut self,
        sender: Ssrc,
        media_source: Ssrc,
        payload: &[u8],
    ) -> Result<(), AllocError>
        ensures { media.app_fed self.old sender media_source payload.now result self.new };

    /// Asks for a new picture (RFC 4585, section 6.3.1).
    fn send_pli_feedback(&mut self, sender: Ssrc, media_source: Ssrc) -> Result<(), AllocError>
        ensures { media.pli_fed self.old sender media_source result self.new };

    /// Makes the stream of an SSRC to be received, or replaces it, and lends it. The error says why there is none.
    fn make_stream_rx(
        &mut self,
        ssrc: Ssrc,
        rtx: Option<Ssrc>,
        mid: Mid,
        rid: Option<Rid>,
    ) -> Result<&mut Self::Rx, NoStream>
        ensures* leaves { sem 𝓛 (LendsSoOk Self.row Self.Rx.row self.entry result
            (λ n x. IfOk result (λ lent. media.rx_expected self.old ssrc rtx mid rid lent.now x n)) (λ n. n ≡ self.old)) }
        ensures answer { StreamAnswers (media.declines_rx self.old ssrc rtx mid rid) result };

    /// Makes the stream of an SSRC to be sent, or replaces it, and lends it. The error says why there is none.
    fn make_stream_tx(
        &mut self,
        ssrc: Ssrc,
        rtx: Option<Ssrc>,
        mid: Mid,
        rid: Option<Rid>,
    ) -> Result<&mut Self::Tx, NoStream>
        ensures* leaves { sem 𝓛 (LendsSoOk Self.row Self.Tx.row self.entry result
            (λ n x. IfOk result (λ lent. media.tx_declared self.old ssrc rtx mid rid lent.now x n)) (λ n. n ≡ self.old)) }
        ensures answer { StreamAnswers (media.declines_tx self.old ssrc rtx mid rid) result };

    /// Drops the received stream of an SSRC. False if there is none.
    fn remove_stream_rx(&mut self, ssrc: Ssrc) -> bool
        ensures { media.rx_removed self.old ssrc result self.new };

    /// Drops the sent stream of an SSRC. False if there is none.
    fn remove_stream_tx(&mut self, ssrc: Ssrc) -> bool
        ensures { media.tx_removed self.old ssrc result self.new };

    /// The stream of an SSRC that is received.
    fn stream_rx(&mut self, ssrc: Ssrc) -> Option<&mut Self::Rx>
        ensures* leaves { sem 𝓛 (LendsSo Self.row Self.Rx.row self.entry result
            (λ n x. IfSome result (λ lent. media.rx_lent self.old ssrc lent.now x n)) (λ n. n ≡ self.old)) }
        ensures found { is_some result ≡ media.has_rx self.old ssrc };

    /// The stream of an SSRC that is sent.
    fn stream_tx(&mut self, ssrc: Ssrc) -> Option<&mut Self::Tx>
        ensures* leaves { sem 𝓛 (LendsSo Self.row Self.Tx.row self.entry result
            (λ n x. IfSome result (λ lent. media.tx_lent self.old ssrc lent.now x n)) (λ n. n ≡ self.old)) }
        ensures found { is_some result ≡ media.has_tx self.old ssrc };

    /// The stream of a line and a layer that is received.
    fn stream_rx_by_mid(&mut self, mid: Mid, rid: Option<Rid>) -> Option<&mut Self::Rx>
        ensures* leaves { sem 𝓛 (LendsSo Self.row Self.Rx.row self.entry result
            (λ n x. IfSome result (λ lent. media.rx_named_lent self.old mid rid lent.now x n)) (λ n. n ≡ self.old)) }
        ensures found { is_some result ≡ media.has_rx_named self.old mid rid };

    /// The stream of a line and a layer that is sent.
    fn stream_tx_by_mid(&mut self, mid: Mid, rid: Option<Rid>) -> Option<&mut Self::Tx>
        ensures* leaves { sem 𝓛 (LendsSo Self.row Self.Tx.row self.entry result
            (λ n x. IfSome result (λ lent. media.tx_named_lent self.old mid rid lent.now x n)) (λ n. n ≡ self.old)) }
        ensures found { is_some result ≡ media.has_tx_named self.old mid rid };

    /// Gives the sent stream of a line and a layer a new SSRC. None if there is no such stream, or if it has this SSRC,
    /// or this RTX SSRC, already.
    fn reset_stream_tx(
        &mut self,
        mid: Mid,
        rid: Option<Rid>,
        new_ssrc: Ssrc,
        new_rtx: Option<Ssrc>,
    ) -> Option<&mut Self::Tx>
        ensures* leaves { sem 𝓛 (LendsSo Self.row Self.Tx.row self.entry result
            (λ n x. IfSome result (λ lent. media.tx_reset self.old mid rid new_ssrc new_rtx lent.now x n)) (λ n. n ≡ self.old)) }
        ensures found { is_some result ≡ media.resets_tx self.old mid rid new_ssrc new_rtx };

    /// `make_stream_rx` with None if the part has no such stream.
    final fn expect_stream_rx(
        &mut self,
        ssrc: Ssrc,
        rtx: Option<Ssrc>,
        mid: Mid,
        rid: Option<Rid>,
    ) -> Result<Option<&mut Self::Rx>, AllocError>
        ensures* leaves { sem 𝓛 (LendsStream Self.row Self.Rx.row self.entry result
            (λ n x. IfLent result (λ lent. media.rx_expected self.old ssrc rtx mid rid lent.now x n)) (λ n. n ≡ self.old)) }
        ensures answer { IfOk result (λ rx. IsNone rx ↔ IsTrue (media.declines_rx self.old ssrc rtx mid rid)) }
    {
        answer_of(self.make_stream_rx(ssrc, rtx, mid, rid))
    }

    /// `make_stream_tx` with None if the part has no such stream.
    final fn declare_stream_tx(
        &mut self,
        ssrc: Ssrc,
        rtx: Option<Ssrc>,
        mid: Mid,
        rid: Option<Rid>,
    ) -> Result<Option<&mut Self::Tx>, AllocError>
        ensures* leaves { sem 𝓛 (LendsStream Self.row Self.Tx.row self.entry result
            (λ n x. IfLent result (λ lent. media.tx_declared self.old ssrc rtx mid rid lent.now x n)) (λ n. n ≡ self.old)) }
        ensures answer { IfOk result (λ tx. IsNone tx ↔ IsTrue (media.declines_tx self.old ssrc rtx mid rid)) }
    {
        answer_of(self.make_stream_tx(ssrc, rtx, mid, rid))
    }

    ghost laws: { MediaLaws media };
}
