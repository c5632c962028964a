//! The streams of two peers in one process. Every packet arrives, and what each reports is noted.
use crate::log::Log;
use crate::streams::Streams;
use rtc_sctp::SctpEvent;
use rtc_wire::{Bytes, ChannelConfig, Seq, Text};
use rtc_wire_drops::release;
use std::alloc::{AllocError, Global};

// A config of a channel: in-band, or negotiated out-of-band.
fn config(alloc: Global, label: &str, settled: Option<u16>) -> Result<ChannelConfig, AllocError> {
    let label = Text::from_str(alloc, label)?;
    let mut config = ChannelConfig::new(alloc);
    config.label = label;
    config.negotiated = settled;
    Ok(config)
}

/// Opens a channel with a label at a side, in-band.
pub fn open<T: Streams>(alloc: Global, peer: &mut T, id: u16, label: &str) -> bool {
    match config(alloc, label, None) {
        Ok(config) => peer.open(id, config),
        Err(_) => false,
    }
}

/// Opens a channel with a label at a side, negotiated out-of-band.
pub fn settle<T: Streams>(alloc: Global, peer: &mut T, id: u16, label: &str) -> bool {
    match config(alloc, label, Some(id)) {
        Ok(config) => peer.open(id, config),
        Err(_) => false,
    }
}

fn deliver<T: Streams>(packets: &Seq<Bytes>, to: &mut T) -> bool {
    let mut taken = true;
    for packet in packets.as_slice() {
        taken = taken & to.take(packet.as_slice());
    }
    taken
}

// Notes what a side reports, as a line behind the name of the side.
fn note(name: &str, event: &SctpEvent, log: &mut Log) {
    match event {
        SctpEvent::Open { label, .. } => log.add_line(name, "open ", label.as_str()),
        SctpEvent::Close { reset_pending, .. } => {
            let pending = if *reset_pending {
                ", reset pending"
            } else {
                ""
            };
            log.add_line(name, "close", pending)
        }
        SctpEvent::StreamResetComplete { .. } => log.add_line(name, "reset complete", ""),
        SctpEvent::Data { bytes, .. } => {
            let text = std::str::from_utf8(bytes.as_slice()).unwrap_or("bytes");
            log.add_line(name, "text ", text)
        }
        _ => log.add_line(name, "other", ""),
    }
}

// Passes on what a side gave. Returns whether there may be more.
fn hand_on<T: Streams>(
    name: &str,
    given: &Result<Option<SctpEvent>, AllocError>,
    to: &mut T,
    log: &mut Log,
) -> bool {
    match given {
        Ok(Some(SctpEvent::Transmit { packets })) => {
            log.need(deliver(packets, to));
            true
        }
        Ok(Some(event)) => {
            note(name, event, log);
            true
        }
        Ok(None) => false,
        Err(_) => {
            log.need(false);
            false
        }
    }
}

/// Passes on a packet of a side, or notes an event. Returns whether there may be more.
pub fn carry_one<T: Streams>(name: &str, from: &mut T, to: &mut T, log: &mut Log) -> bool {
    let given = from.next();
    let more = hand_on(name, &given, to, log);
    release(given, more)
}

/// Polls one side to its end, and passes its packets to the other one.
pub fn carry<T: Streams>(name: &str, from: &mut T, to: &mut T, log: &mut Log) {
    for _ in 0..u32::MAX {
        if !carry_one(name, from, to, log) {
            break;
        }
    }
}

/// A peer and the other one exchange their packets, the left one first.
pub fn exchange<T: Streams>(left: &mut T, right: &mut T, log: &mut Log) {
    for _ in 0..4 {
        carry("left", left, right, log);
        carry("right", right, left, log);
    }
    log.need(left.pass(0) & right.pass(0));
}
