//! What a peer gave.
use crate::fault::Fault;
use rtc_examples_cases::is_ok;
use rtc_peer::{ChannelData, Event, Output, RtcError, Why};
use rtc_plain::PlainMediaEvent;
use rtc_wire::{Bytes, Moment, Transmit};
use rtc_wire_drops::release;
use std::alloc::Global;

/// The datagrams that a peer has sent and the other one did not get yet, what it reported, and why it failed first.
#[derive(Drop)]
pub struct Outputs {
    pub sent: Vec<Transmit>,
    /// The received messages.
    pub messages: Vec<Bytes>,
    /// How many of them are text.
    pub texts: usize,
    /// How many channels are open.
    pub opened: usize,
    /// How many of them were closed.
    pub closed: usize,
    /// How often what a channel has buffered fell to its threshold.
    pub lows: usize,
    /// How many events of the media part there were, and how many of them have the bytes of a packet.
    pub media: usize,
    pub raws: usize,
    /// The moment of the last timeout.
    pub timeout: Moment,
    pub fault: Option<Fault>,
}

fn fault_of(error: &RtcError) -> Fault {
    match error {
        RtcError::RemoteSdp(Why::NoMatch { .. }) => Fault::OtherCertificate,
        RtcError::RemoteSdp(Why::UnknownHash(_)) => Fault::UnknownHash,
        _ => Fault::Other,
    }
}

impl Outputs {
    /// Nothing was given.
    pub fn new(alloc: Global) -> Outputs {
        Outputs {
            sent: Vec::new(alloc),
            messages: Vec::new(alloc),
            texts: 0,
            opened: 0,
            closed: 0,
            lows: 0,
            media: 0,
            raws: 0,
            timeout: Moment::FAR_FUTURE,
            fault: None,
        }
    }

    fn fail(&mut self, fault: Fault) {
        if self.fault.is_none() {
            self.fault = Some(fault);
        }
    }

    // If memory runs out for what a peer gave, it has failed. Returns whether there may be more.
    fn note(&mut self, kept: bool) -> bool {
        if !kept {
            self.fail(Fault::Other);
        }
        kept
    }

    /// Notes why an input was refused. It returns whether it was taken.
    pub fn note_input(&mut self, answer: Result<(), RtcError>) -> bool {
        match answer {
            Ok(()) => true,
            Err(error) => {
                self.fail(fault_of(&error));
                release(error, false)
            }
        }
    }

    fn keep_message(&mut self, message: ChannelData) -> bool {
        if !message.binary {
            self.texts = self.texts.saturating_add(1);
        }
        let kept = is_ok(self.messages.push(message.bytes));
        self.note(kept)
    }

    fn count_raw(&mut self, event: &Event<PlainMediaEvent>) {
        if event.as_raw_packet().is_some() {
            self.raws = self.raws.saturating_add(1);
        }
    }

    fn keep_event(&mut self, event: Event<PlainMediaEvent>) -> bool {
        match event {
            Event::ChannelOpen(_, _) => {
                self.opened = self.opened.saturating_add(1);
                true
            }
            Event::ChannelData(message) => self.keep_message(message),
            Event::ChannelClose(_) => {
                self.closed = self.closed.saturating_add(1);
                true
            }
            Event::ChannelBufferedAmountLow(_) => {
                self.lows = self.lows.saturating_add(1);
                true
            }
            Event::Connected
            | Event::IceConnectionStateChange(_)
            | Event::PeerStats(_)
            | Event::MediaIngressStats(_)
            | Event::MediaEgressStats(_)
            | Event::Closed => true,
            Event::Media(_) => {
                self.media = self.media.saturating_add(1);
                true
            }
        }
    }

    fn keep_output(&mut self, output: Output<PlainMediaEvent>) -> bool {
        match output {
            Output::Timeout(moment) => {
                self.timeout = moment;
                false
            }
            Output::Transmit(transmit) => {
                let kept = is_ok(self.sent.push(transmit));
                self.note(kept)
            }
            Output::Event(event) => {
                self.count_raw(&event);
                self.keep_event(event)
            }
        }
    }

    /// Keeps what a poll gave. Returns whether there may be more.
    pub fn keep(&mut self, given: Result<Output<PlainMediaEvent>, RtcError>) -> bool {
        match given {
            Ok(output) => self.keep_output(output),
            Err(error) => {
                self.fail(fault_of(&error));
                release(error, false)
            }
        }
    }
}
