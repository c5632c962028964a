//! Words of events.
ghost use Rattle.std.specs.Prelude.{◌≡◌, ◌<◌, ◌^◌, ◌++◌, OnOk, string_bytes};
ghost use Rattle.hex.specs.Hex.{IsBytes};
ghost use Rattle.rtc_script_reports.specs.Fits.{FitsEvent, FitsMediaEvent, FitsPacket, IsName};
ghost use Rattle.rtc_script_reports.specs.Events.{event_text, line_bytes_text, media_event_text, raw_packet_text, state_text};
ghost use Rattle.rtc_script.specs.Words.{hex_word, message_kind_text};
ghost use Rattle.rtc_peer_transport.specs.declared.event.Event.TheVariants.{ChannelData as DataOf, ChannelOpen as OpenOf};
ghost use Rattle.rtc_peer_transport.specs.declared.event.Event.TheVariants.{PeerStats as TotalsOf};

use crate::pushing::{push_named, push_word};
use crate::words::{direction_word, kind_word};
use rtc_parts::{IceConnectionState, PeerStats, RawPacket};
use rtc_peer_transport::{ChannelData, Event};
use rtc_plain_media::PlainMediaEvent;
use rtc_sdp_values::Mid;
use rtc_wire::{ChannelId, Text};
use std::alloc::{AllocError, Global};

fn state_word(state: IceConnectionState) -> &'static str
    ensures { result.now ≡ state_text state }
{
    match state {
        IceConnectionState::New => "new",
        IceConnectionState::Checking => "checking",
        IceConnectionState::Connected => "connected",
        IceConnectionState::Completed => "completed",
        IceConnectionState::Disconnected => "disconnected",
    }
}

// Puts bytes as hex digits behind a text.
fn push_hex(alloc: Global, out: &mut String, bytes: &[u8]) -> Result<(), AllocError>
    ensures text { OnOk result (string_bytes out.new ≡ string_bytes out.old ++ hex_word bytes.now) }
    ensures fit { IsBytes bytes.now }
{
    if bytes.is_empty() {
        return out.push_str("-");
    }
    let word = hex::encode(alloc, bytes)?;
    out.push_str(word.as_str())
}

fn push_raw(out: &mut String, packet: &RawPacket) -> Result<(), AllocError>
    ensures text { OnOk result (string_bytes out.new ≡ string_bytes out.old ++ raw_packet_text packet.now) }
    ensures fit { FitsPacket packet.now }
{
    match packet {
        RawPacket::RtcpTx(bytes) => { push_named(out, "rtcptx ", bytes.as_slice().len() as u64) }
        RawPacket::RtcpRx(bytes) => { push_named(out, "rtcprx ", bytes.as_slice().len() as u64) }
        RawPacket::RtpTx(bytes) => { push_named(out, "rtptx ", bytes.as_slice().len() as u64) }
        RawPacket::RtpRx(bytes) => { push_named(out, "rtprx ", bytes.as_slice().len() as u64) }
    }
}

fn push_media_event(out: &mut String, event: &PlainMediaEvent) -> Result<(), AllocError>
    ensures text { OnOk result (string_bytes out.new ≡ string_bytes out.old ++ media_event_text event.now) }
    ensures fit { OnOk result (FitsMediaEvent event.now) }
{
    match event {
        PlainMediaEvent::Added(mid, kind, dir) => {
            out.push_str("added ")?;
            out.push_str(mid.as_str())?;
            push_word(out, kind_word(*kind))?;
            push_word(out, direction_word(*dir))
        }
        PlainMediaEvent::Changed(mid, dir) => {
            out.push_str("changed ")?;
            out.push_str(mid.as_str())?;
            push_word(out, direction_word(*dir))
        }
        PlainMediaEvent::Rtp(len) => { push_named(out, "rtp ", *len as u64) }
        PlainMediaEvent::Rtcp(len) => { push_named(out, "rtcp ", *len as u64) }
        PlainMediaEvent::Raw(packet) => {
            out.push_str("raw ")?;
            push_raw(out, packet)
        }
    }
}

fn message_kind_word(binary: bool) -> &'static str
    ensures { result.now ≡ message_kind_text binary }
{
    if binary { "binary" } else { "text" }
}

fn push_message(alloc: Global, out: &mut String, message: &ChannelData) -> Result<(), AllocError>
    ensures text { OnOk result (string_bytes out.new ≡ string_bytes out.old ++ event_text (DataOf message.now)) }
    ensures fit { OnOk result (FitsEvent (DataOf message.now)) }
{
    push_named(out, "data ", message.id.number())?;
    push_word(out, message_kind_word(message.binary))?;
    out.push_str(" ")?;
    push_hex(alloc, out, message.bytes.as_slice())
}

fn push_opening(
    alloc: Global,
    out: &mut String,
    id: ChannelId,
    label: &Text,
) -> Result<(), AllocError>
    ensures text { OnOk result (string_bytes out.new ≡ string_bytes out.old ++ event_text (OpenOf id label.now)) }
    ensures fit { OnOk result (FitsEvent (OpenOf id label.now)) }
{
    push_named(out, "open ", id.number())?;
    out.push_str(" ")?;
    push_hex(alloc, out, label.as_str().as_bytes())
}

// Puts how many bytes were counted of a peer.
fn push_totals(out: &mut String, stats: &PeerStats) -> Result<(), AllocError>
    ensures text { OnOk result (string_bytes out.new ≡ string_bytes out.old ++ event_text (TotalsOf stats.now)) }
    ensures fit { OnOk result (FitsEvent (TotalsOf stats.now)) }
{
    push_named(out, "stats ", stats.peer_bytes_rx)?;
    push_named(out, " ", stats.peer_bytes_tx)
}

// Puts how many bytes were counted of a line.
fn push_line_bytes(out: &mut String, mid: Mid, bytes: u64) -> Result<(), AllocError>
    ensures text { OnOk result (string_bytes out.new ≡ string_bytes out.old ++ line_bytes_text mid bytes) }
    ensures fit { OnOk result (IsName mid × (bytes < 2 ^ 64)) }
{
    out.push_str(mid.as_str())?;
    push_named(out, " ", bytes)
}

/// Puts the words of an event behind a text.
pub fn push_event(
    alloc: Global,
    out: &mut String,
    event: &Event<PlainMediaEvent>,
) -> Result<(), AllocError>
    ensures text { OnOk result (string_bytes out.new ≡ string_bytes out.old ++ event_text event.now) }
    ensures fit { OnOk result (FitsEvent event.now) }
{
    match event {
        Event::Connected => out.push_str("connected"),
        Event::IceConnectionStateChange(state) => {
            out.push_str("ice ")?;
            out.push_str(state_word(*state))
        }
        Event::ChannelOpen(id, label) => push_opening(alloc, out, *id, label),
        Event::ChannelData(message) => push_message(alloc, out, message),
        Event::ChannelClose(id) => { push_named(out, "close ", id.number()) }
        Event::ChannelBufferedAmountLow(id) => { push_named(out, "low ", id.number()) }
        Event::PeerStats(stats) => push_totals(out, stats),
        Event::MediaIngressStats(stats) => {
            out.push_str("ingress ")?;
            push_line_bytes(out, stats.mid, stats.bytes)
        }
        Event::MediaEgressStats(stats) => {
            out.push_str("egress ")?;
            push_line_bytes(out, stats.mid, stats.bytes)
        }
        Event::Media(event) => {
            out.push_str("media ")?;
            push_media_event(out, event)
        }
        Event::Closed => out.push_str("closed"),
    }
}
