//! The plain media part as a part.
use crate::calls::{copy_updates, make_ready, raw_rtcp, raw_rtp, send};
use crate::event_queue::queue_packet;
use crate::line_key::LineKey;
use crate::lines::{apply_all, drop_line, drop_removed};
use crate::readings::{has_red, lines_use};
use crate::{PlainMark, PlainMedia, PlainMediaEvent};
use rtc_parts::{
    MediaError, MediaSession, MediaSettings, MediaUpdate, NoStream, Reason, SrtpProfile,
    StatsSnapshot,
};
use rtc_sdp_values::{Mid, Rid, Ssrc};
use rtc_wire::{DatagramSend, Moment};
use std::alloc::AllocError;

impl MediaSession for PlainMedia {
    type E = PlainMediaEvent;

    type Rx = PlainMark;

    type Tx = PlainMark;

    type Writer = PlainMark;

    ghost use Rattle.rtc_plain_media.specs.PlainMediaMeaning.{plain_media_meaning};
    ghost use Rattle.rtc_plain_media.specs.PlainMediaLaws.{plain_media_laws};

    ghost media = { plain_media_meaning };

    ghost laws = { plain_media_laws };

    /// Only `raw_packets` is used.
    fn configure(&mut self, settings: MediaSettings) {
        self.raw_packets = settings.raw_packets;
    }

    fn prepare(&mut self, updates: &[MediaUpdate]) -> Result<(), AllocError> {
        let most = make_ready(
            &mut self.lines,
            &mut self.counts,
            &mut self.events,
            self.pending.len(),
            self.most,
            updates,
        )?;
        let copies = copy_updates(self.alloc, updates)?;
        self.pending = copies;
        self.most = most;
        Ok(())
    }

    fn commit(&mut self) {
        drop_removed(&mut self.lines, &mut self.counts, &self.pending);
        self.rx.drop_removed(&self.pending);
        self.tx.drop_removed(&self.pending);
        apply_all(
            &mut self.lines,
            &mut self.counts,
            &mut self.events,
            &mut self.pending,
        );
    }

    fn line(&self, mid: Mid) -> Option<&MediaUpdate> {
        match self.lines.get(&LineKey { mid }) {
            Some(line) => Some(&line.update),
            None => None,
        }
    }

    fn ssrc_used(&self, ssrc: Ssrc) -> bool {
        self.rx.uses(ssrc) || self.tx.uses(ssrc) || lines_use(&self.counts, ssrc)
    }

    fn remove_line(&mut self, mid: Mid) {
        drop_line(&mut self.lines, &mut self.counts, mid);
        self.rx.drop_line(mid);
        self.tx.drop_line(mid);
    }

    /// The keys are not kept.
    fn set_keying(
        &mut self,
        _key: &[u8],
        _profile: SrtpProfile,
        _active: bool,
    ) -> Result<(), AllocError> {
        self.is_keyed = true;
        Ok(())
    }

    fn is_connected(&self) -> bool {
        self.is_keyed
    }

    fn handle_rtp(&mut self, _now: Moment, packet: &[u8]) -> Result<(), AllocError> {
        let raw = raw_rtp(self.alloc, self.raw_packets, packet)?;
        let event = PlainMediaEvent::Rtp(packet.len());
        queue_packet(&mut self.events, self.pending.len(), raw, event)?;
        Ok(())
    }

    fn handle_rtcp(&mut self, _now: Moment, packet: &[u8]) -> Result<(), AllocError> {
        let raw = raw_rtcp(self.alloc, self.raw_packets, packet)?;
        let event = PlainMediaEvent::Rtcp(packet.len());
        queue_packet(&mut self.events, self.pending.len(), raw, event)?;
        Ok(())
    }

    /// It has no timers.
    fn handle_timeout(&mut self, _now: Moment) -> Result<(), MediaError> {
        Ok(())
    }

    fn poll_event(&mut self) -> Option<PlainMediaEvent> {
        self.events.pop_front()
    }

    fn poll_event_fallible(&mut self, _now: Moment) -> Result<Option<PlainMediaEvent>, MediaError> {
        Ok(None)
    }

    fn poll_datagram(&mut self, _now: Moment) -> Option<DatagramSend> {
        self.datagrams.pop_front()
    }

    fn poll_timeout(&self) -> Option<(Moment, Reason)> {
        None
    }

    fn clear_feedback(&mut self) {
        self.datagrams.clear();
    }

    fn close_rtp(&mut self) -> Result<(), AllocError> {
        if self.is_shut {
            return Ok(());
        }
        send(self.alloc, &mut self.datagrams, 203, &[])?;
        self.is_shut = true;
        Ok(())
    }

    fn is_rtp_closed(&self) -> bool {
        self.is_shut && self.datagrams.is_empty()
    }

    /// It has no statistics.
    fn visit_stats(
        &mut self,
        _now: Moment,
        _snapshot: &mut StatsSnapshot,
    ) -> Result<(), AllocError> {
        Ok(())
    }

    fn writer(&mut self, mid: Mid) -> Option<&mut PlainMark> {
        match self.lines.get_mut(&LineKey { mid }) {
            Some(line) => Some(&mut line.mark),
            None => None,
        }
    }

    /// Nothing is switched; it returns whether the line has redundancy.
    fn set_red_send(&mut self, mid: Mid, _on: bool) -> bool {
        has_red(&self.lines, mid)
    }

    /// Nothing is switched.
    fn enable_twcc_feedback(&mut self) {}

    fn send_app_specific_feedback(
        &mut self,
        _sender: Ssrc,
        _media_source: Ssrc,
        payload: &[u8],
    ) -> Result<(), AllocError> {
        send(self.alloc, &mut self.datagrams, 204, payload)?;
        Ok(())
    }

    fn send_pli_feedback(&mut self, _sender: Ssrc, _media_source: Ssrc) -> Result<(), AllocError> {
        send(self.alloc, &mut self.datagrams, 206, &[])?;
        Ok(())
    }

    fn make_stream_rx(
        &mut self,
        ssrc: Ssrc,
        rtx: Option<Ssrc>,
        mid: Mid,
        rid: Option<Rid>,
    ) -> Result<&mut PlainMark, NoStream> {
        self.rx.make(ssrc, rtx, mid, rid)
    }

    fn make_stream_tx(
        &mut self,
        ssrc: Ssrc,
        rtx: Option<Ssrc>,
        mid: Mid,
        rid: Option<Rid>,
    ) -> Result<&mut PlainMark, NoStream> {
        self.tx.make(ssrc, rtx, mid, rid)
    }

    fn remove_stream_rx(&mut self, ssrc: Ssrc) -> bool {
        self.rx.remove(ssrc)
    }

    fn remove_stream_tx(&mut self, ssrc: Ssrc) -> bool {
        self.tx.remove(ssrc)
    }

    fn stream_rx(&mut self, ssrc: Ssrc) -> Option<&mut PlainMark> {
        self.rx.mark(ssrc)
    }

    fn stream_tx(&mut self, ssrc: Ssrc) -> Option<&mut PlainMark> {
        self.tx.mark(ssrc)
    }

    fn stream_rx_by_mid(&mut self, mid: Mid, rid: Option<Rid>) -> Option<&mut PlainMark> {
        self.rx.named_mark(mid, rid)
    }

    fn stream_tx_by_mid(&mut self, mid: Mid, rid: Option<Rid>) -> Option<&mut PlainMark> {
        self.tx.named_mark(mid, rid)
    }

    fn reset_stream_tx(
        &mut self,
        mid: Mid,
        rid: Option<Rid>,
        new_ssrc: Ssrc,
        new_rtx: Option<Ssrc>,
    ) -> Option<&mut PlainMark> {
        self.tx.reset(mid, rid, new_ssrc, new_rtx)
    }
}
