//! What a peer sends and reports.
ghost use Rattle.std.specs.Prelude.{◌≡◌};

use rtc::{
    ChannelData, ChannelId, Event, Lines, PlainMediaEvent, PlainRtc, RtcError, Sink, Transmit,
};
use std::alloc::{AllocError, Global};

// Prints a message as text.
fn print_message(log: &mut String, message: &ChannelData) -> Result<(), AllocError> {
    let text = std::str::from_utf8(message.bytes.as_slice()).unwrap_or("bytes");
    writeln!(log, "  received {text}")
}

/// The datagrams of a peer that are not delivered yet, the channel that is open, and what is to be printed.
#[derive(Drop)]
pub struct Outbox {
    pub sent: Vec<Transmit>,
    pub channel: Option<ChannelId>,
    pub log: String,
}

impl Outbox {
    pub fn new(alloc: Global) -> Outbox {
        Outbox {
            sent: Vec::new(alloc),
            channel: None,
            log: String::new(alloc),
        }
    }

    /// Prints the m-lines of a peer.
    pub fn describe(&mut self, lines: &Lines) -> Result<(), AllocError> {
        for row in lines.rows() {
            let place = row.place();
            let mid = row.mid();
            writeln!(self.log, "  line {place} is {}", mid.as_str())?;
        }
        Ok(())
    }

    /// Writes a message to the channel that is open.
    pub fn write(&self, peer: &mut PlainRtc, message: &str) -> Result<(), RtcError> {
        let Some(id) = self.channel else {
            return Ok(());
        };
        if let Some(mut channel) = peer.channel(id) {
            channel.write(false, message.as_bytes())?;
        }
        Ok(())
    }
}

impl Sink<PlainMediaEvent> for Outbox {
    fn send(&mut self, datagram: Transmit) -> Result<(), RtcError> {
        self.sent.push(datagram)?;
        Ok(())
    }

    fn report(&mut self, event: Event<PlainMediaEvent>) -> Result<(), RtcError>
        ensures { self.new.sent ≡ self.old.sent }
    {
        if let Event::ChannelOpen(id, _) = &event {
            self.channel = Some(*id);
        }
        match &event {
            Event::ChannelData(message) => print_message(&mut self.log, message)?,
            _ => writeln!(self.log, "  {event:?}")?,
        }
        Ok(())
    }
}
