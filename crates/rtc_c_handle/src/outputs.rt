//! Outputs of a poll as rows.
ghost use Rattle.std.specs.Prelude.{◌≡◌};
ghost use Rattle.rtc_c_handle.specs.Outputs.{blank_output, row_of_event, row_of_media, row_of_output};

use crate::numbers::{number_of_direction, number_of_kind, number_of_protocol, number_of_state};
use crate::{Address, OutputRow};
use rtc::{Event, Output, PlainMediaEvent};

// A row of a kind, whose other numbers are 0.
fn blank(kind: u32) -> OutputRow
    ensures { result ≡ blank_output kind }
{
    let nowhere = Address {
        a: 0,
        b: 0,
        c: 0,
        d: 0,
        port: 0,
    };
    OutputRow {
        kind,
        state: 0,
        moment: 0,
        channel: 0,
        size: 0,
        source: nowhere,
        destination: nowhere,
        protocol: 0,
        media: 0,
        direction: 0,
        binary: false,
    }
}

fn media_row(event: &PlainMediaEvent) -> OutputRow
    ensures { result ≡ row_of_media event.now }
{
    match event {
        PlainMediaEvent::Added(mid, kind, dir) => OutputRow {
            size: mid.as_str().len(),
            media: number_of_kind(*kind),
            direction: number_of_direction(*dir),
            ..blank(12)
        },
        PlainMediaEvent::Changed(mid, dir) => OutputRow {
            size: mid.as_str().len(),
            direction: number_of_direction(*dir),
            ..blank(13)
        },
        PlainMediaEvent::Rtp(size) => OutputRow {
            size: *size,
            ..blank(14)
        },
        PlainMediaEvent::Rtcp(size) => OutputRow {
            size: *size,
            ..blank(15)
        },
        PlainMediaEvent::Raw(_) => blank(16),
    }
}

fn event_row(event: &Event<PlainMediaEvent>) -> OutputRow
    ensures { result ≡ row_of_event event.now }
{
    match event {
        Event::Connected => blank(3),
        Event::IceConnectionStateChange(state) => OutputRow {
            state: number_of_state(*state),
            ..blank(4)
        },
        Event::ChannelOpen(id, label) => OutputRow {
            channel: id.number(),
            size: label.as_str().len(),
            ..blank(5)
        },
        Event::ChannelData(message) => OutputRow {
            channel: message.id.number(),
            size: message.bytes.as_slice().len(),
            binary: message.binary,
            ..blank(6)
        },
        Event::ChannelClose(id) => OutputRow {
            channel: id.number(),
            ..blank(7)
        },
        Event::ChannelBufferedAmountLow(id) => OutputRow {
            channel: id.number(),
            ..blank(8)
        },
        Event::PeerStats(_) => blank(9),
        Event::MediaIngressStats(_) => blank(10),
        Event::MediaEgressStats(_) => blank(11),
        Event::Media(event) => media_row(event),
        Event::Closed => blank(17),
    }
}

/// Returns the row of an output.
// (a call, so that the output stays in memory and is not split over registers byte by byte)
#[inline(never)]
pub(crate) fn output_row(output: &Output<PlainMediaEvent>) -> OutputRow
    ensures { result ≡ row_of_output output.now }
{
    match output {
        Output::Timeout(moment) => OutputRow {
            moment: moment.nanos(),
            ..blank(1)
        },
        Output::Transmit(datagram) => OutputRow {
            size: datagram.contents.as_slice().len(),
            source: Address::of_addr(datagram.source),
            destination: Address::of_addr(datagram.destination),
            protocol: number_of_protocol(datagram.proto),
            ..blank(2)
        },
        Output::Event(event) => event_row(event),
    }
}
