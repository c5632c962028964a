//! A faulty media part.
use crate::faulty::Faulty;
use rtc_parts::{
    MediaError, MediaSession, MediaSettings, MediaUpdate, NoStream, Reason, SrtpProfile,
    StatsSnapshot,
};
use rtc_sdp_values::{Mid, Rid, Ssrc};
use rtc_wire::{DatagramSend, Moment};
use std::alloc::AllocError;

impl<M: MediaSession> MediaSession for Faulty<M> {
    type E = M::E;

    type Rx = M::Rx;

    type Tx = M::Tx;

    type Writer = M::Writer;

    ghost use Rattle.rtc_faulty.specs.FaultyMedia.{faulty_media};
    ghost use Rattle.rtc_faulty.specs.FaultyMediaLaws.{faulty_media_laws};

    ghost media = { faulty_media M.media };

    ghost laws = { faulty_media_laws M.media M.laws };

    fn configure(&mut self, settings: MediaSettings) {
        self.inner.configure(settings);
    }

    fn prepare(&mut self, updates: &[MediaUpdate]) -> Result<(), AllocError> {
        self.inner.prepare(updates)
    }

    fn commit(&mut self) {
        self.inner.commit();
    }

    fn line(&self, mid: Mid) -> Option<&MediaUpdate> {
        self.inner.line(mid)
    }

    fn ssrc_used(&self, ssrc: Ssrc) -> bool {
        self.inner.ssrc_used(ssrc)
    }

    fn remove_line(&mut self, mid: Mid) {
        self.inner.remove_line(mid);
    }

    fn set_keying(
        &mut self,
        key: &[u8],
        profile: SrtpProfile,
        active: bool,
    ) -> Result<(), AllocError> {
        self.inner.set_keying(key, profile, active)
    }

    fn is_connected(&self) -> bool {
        self.inner.is_connected()
    }

    fn handle_rtp(&mut self, now: Moment, packet: &[u8]) -> Result<(), AllocError> {
        self.inner.handle_rtp(now, packet)
    }

    fn handle_rtcp(&mut self, now: Moment, packet: &[u8]) -> Result<(), AllocError> {
        self.inner.handle_rtcp(now, packet)
    }

    fn handle_timeout(&mut self, now: Moment) -> Result<(), MediaError> {
        if self.numbers.fail() {
            return Err(MediaError::Rtp);
        }
        let answer = self.inner.handle_timeout(now);
        self.numbers.use_number();
        answer
    }

    fn poll_event(&mut self) -> Option<M::E> {
        self.inner.poll_event()
    }

    /// It uses a number only if it fails.
    fn poll_event_fallible(&mut self, now: Moment) -> Result<Option<M::E>, MediaError> {
        if self.numbers.fail() {
            return Err(MediaError::Rtp);
        }
        self.inner.poll_event_fallible(now)
    }

    fn poll_datagram(&mut self, now: Moment) -> Option<DatagramSend> {
        self.inner.poll_datagram(now)
    }

    fn poll_timeout(&self) -> Option<(Moment, Reason)> {
        self.inner.poll_timeout()
    }

    fn clear_feedback(&mut self) {
        self.inner.clear_feedback();
    }

    fn close_rtp(&mut self) -> Result<(), AllocError> {
        self.inner.close_rtp()
    }

    fn is_rtp_closed(&self) -> bool {
        self.inner.is_rtp_closed()
    }

    fn visit_stats(&mut self, now: Moment, snapshot: &mut StatsSnapshot) -> Result<(), AllocError> {
        self.inner.visit_stats(now, snapshot)
    }

    fn writer(&mut self, mid: Mid) -> Option<&mut M::Writer> {
        self.inner.writer(mid)
    }

    fn set_red_send(&mut self, mid: Mid, on: bool) -> bool {
        self.inner.set_red_send(mid, on)
    }

    fn enable_twcc_feedback(&mut self) {
        self.inner.enable_twcc_feedback();
    }

    fn send_app_specific_feedback(
        &mut self,
        sender: Ssrc,
        media_source: Ssrc,
        payload: &[u8],
    ) -> Result<(), AllocError> {
        self.inner
            .send_app_specific_feedback(sender, media_source, payload)
    }

    fn send_pli_feedback(&mut self, sender: Ssrc, media_source: Ssrc) -> Result<(), AllocError> {
        self.inner.send_pli_feedback(sender, media_source)
    }

    fn make_stream_rx(
        &mut self,
        ssrc: Ssrc,
        rtx: Option<Ssrc>,
        mid: Mid,
        rid: Option<Rid>,
    ) -> Result<&mut M::Rx, NoStream> {
        self.inner.make_stream_rx(ssrc, rtx, mid, rid)
    }

    fn make_stream_tx(
        &mut self,
        ssrc: Ssrc,
        rtx: Option<Ssrc>,
        mid: Mid,
        rid: Option<Rid>,
    ) -> Result<&mut M::Tx, NoStream> {
        self.inner.make_stream_tx(ssrc, rtx, mid, rid)
    }

    fn remove_stream_rx(&mut self, ssrc: Ssrc) -> bool {
        self.inner.remove_stream_rx(ssrc)
    }

    fn remove_stream_tx(&mut self, ssrc: Ssrc) -> bool {
        self.inner.remove_stream_tx(ssrc)
    }

    fn stream_rx(&mut self, ssrc: Ssrc) -> Option<&mut M::Rx> {
        self.inner.stream_rx(ssrc)
    }

    fn stream_tx(&mut self, ssrc: Ssrc) -> Option<&mut M::Tx> {
        self.inner.stream_tx(ssrc)
    }

    fn stream_rx_by_mid(&mut self, mid: Mid, rid: Option<Rid>) -> Option<&mut M::Rx> {
        self.inner.stream_rx_by_mid(mid, rid)
    }

    fn stream_tx_by_mid(&mut self, mid: Mid, rid: Option<Rid>) -> Option<&mut M::Tx> {
        self.inner.stream_tx_by_mid(mid, rid)
    }

    fn reset_stream_tx(
        &mut self,
        mid: Mid,
        rid: Option<Rid>,
        new_ssrc: Ssrc,
        new_rtx: Option<Ssrc>,
    ) -> Option<&mut M::Tx> {
        self.inner.reset_stream_tx(mid, rid, new_ssrc, new_rtx)
    }
}
