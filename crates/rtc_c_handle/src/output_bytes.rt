//! What is kept of an output.
ghost use Rattle.std.specs.Prelude.{◌≡◌};
ghost use Rattle.rtc_c_handle.specs.Outputs.{bytes_kept, kept_of_event, kept_of_media, kept_of_output};

use rtc::{Bytes, DatagramSend, Event, Mid, Output, PlainMediaEvent, Text};

/// The bytes that come with an output, moved out of it.
#[derive(Drop)]
pub enum OutputBytes {
    /// No bytes come with it, or nothing was polled yet.
    Nothing,
    /// A datagram to be sent.
    Datagram(DatagramSend),
    /// A message of a channel.
    Message(Bytes),
    /// The label of a channel.
    Label(Text),
    /// The name of an m-line.
    Mid(Mid),
}

// The name of the line of an event of the media part.
fn of_media(event: &PlainMediaEvent) -> OutputBytes
    ensures { result ≡ kept_of_media event.now }
{
    match event {
        PlainMediaEvent::Added(mid, _, _) => OutputBytes::Mid(*mid),
        PlainMediaEvent::Changed(mid, _) => OutputBytes::Mid(*mid),
        PlainMediaEvent::Rtp(_) | PlainMediaEvent::Rtcp(_) | PlainMediaEvent::Raw(_) => {
            OutputBytes::Nothing
        }
    }
}

fn of_event(event: Event<PlainMediaEvent>) -> OutputBytes
    ensures { result ≡ kept_of_event event }
{
    match event {
        Event::ChannelOpen(_, label) => OutputBytes::Label(label),
        Event::ChannelData(message) => OutputBytes::Message(message.bytes),
        Event::Media(event) => of_media(&event),
        Event::Connected
        | Event::IceConnectionStateChange(_)
        | Event::ChannelClose(_)
        | Event::ChannelBufferedAmountLow(_)
        | Event::PeerStats(_)
        | Event::MediaIngressStats(_)
        | Event::MediaEgressStats(_)
        | Event::Closed => OutputBytes::Nothing,
    }
}

impl OutputBytes {
    /// Returns the bytes that come with an output.
    pub(crate) fn of_output(output: Output<PlainMediaEvent>) -> OutputBytes
        ensures { result ≡ kept_of_output output }
    {
        match output {
            Output::Timeout(_) => OutputBytes::Nothing,
            Output::Transmit(datagram) => OutputBytes::Datagram(datagram.contents),
            Output::Event(event) => of_event(event),
        }
    }

    /// Returns the bytes, lent.
    pub fn as_slice(&self) -> &[u8]
        ensures { result.now ≡ bytes_kept self.now }
    {
        match self {
            OutputBytes::Nothing => &[],
            OutputBytes::Datagram(datagram) => datagram.as_slice(),
            OutputBytes::Message(bytes) => bytes.as_slice(),
            OutputBytes::Label(label) => label.as_str().as_bytes(),
            OutputBytes::Mid(mid) => mid.as_str().as_bytes(),
        }
    }
}
