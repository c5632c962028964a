//! The signals that timeouts of streams and channels raise. Both are cleared before.
use crate::channels::{config, makes};
use crate::scenes::fresh;
use rtc_channels::ChannelHandler;
use rtc_examples_cases::{every, is_ok};
use rtc_parts::Association;
use rtc_ready::Readiness;
use rtc_sctp::{RtcSctp, SctpEvent};
use rtc_wire::{ChannelId, Moment};
use std::alloc::Global;

#[derive(Clone, Copy, PartialEq, Eq)]
enum Raised {
    Neither,
    Timeout,
    Both,
}

fn cleared() -> Readiness {
    let mut readiness = Readiness::armed();
    readiness.clear_events();
    readiness.clear_timeout();
    readiness
}

// Whether these signals are set.
fn are_set(readiness: &Readiness, raised: Raised) -> bool {
    let timeout = readiness.wants_timeout();
    let events = readiness.wants_events();
    match raised {
        Raised::Neither => !events & !timeout,
        Raised::Timeout => !events & timeout,
        Raised::Both => events & timeout,
    }
}

// Whether a timeout of the streams raises this.
fn times<S: Association>(sctp: &mut RtcSctp<S>, now: Moment, raised: Raised) -> bool {
    let mut readiness = cleared();
    let mut wake = readiness.wake();
    let passed = is_ok(sctp.handle_timeout(now, &mut wake));
    readiness.fold(wake);
    passed & are_set(&readiness, raised)
}

// Whether a timeout of the channels raises this.
fn progresses<S: Association>(
    channels: &mut ChannelHandler,
    sctp: &mut RtcSctp<S>,
    raised: Raised,
) -> bool {
    let mut readiness = cleared();
    let mut wake = readiness.wake();
    let passed = is_ok(channels.handle_timeout(Moment::FAR_PAST, sctp, &mut wake));
    readiness.fold(wake);
    passed & are_set(&readiness, raised)
}

fn start<S: Association>(sctp: &mut RtcSctp<S>, client: bool) -> bool {
    is_ok(sctp.init(client, Moment::FAR_PAST, None, None))
}

// Whether there is a packet to be sent.
fn sends<S: Association>(sctp: &mut RtcSctp<S>) -> bool {
    match sctp.poll() {
        Ok(Some(SctpEvent::Transmit { .. })) => true,
        _ => false,
    }
}

// A server that has no datagram yet has nothing to give.
fn serve<S: Association>(sctp: &mut RtcSctp<S>) -> bool {
    let started = start(sctp, false);
    let raised = times(sctp, Moment::from_nanos(1), Raised::Timeout);
    started & raised & !sends(sctp)
}

// A client sends its first packet again at the moment that it wants.
fn send_again<S: Association>(sctp: &mut RtcSctp<S>) -> bool {
    let started = start(sctp, true);
    let sent = sends(sctp) & !sends(sctp);
    let Some(due) = sctp.poll_timeout() else {
        return false;
    };
    let raised = times(sctp, due, Raised::Both);
    every(&[started, sent, raised, sends(sctp)])
}

// A channel that is not confirmed is given a stream and not opened.
fn give<S: Association>(
    alloc: Global,
    channels: &mut ChannelHandler,
    sctp: &mut RtcSctp<S>,
) -> bool {
    let Ok(config) = config(alloc, None) else {
        return false;
    };
    let made = is_ok(channels.new_channel(&config)) & start(sctp, true);
    let raised = progresses(channels, sctp, Raised::Timeout);
    let given = channels.stream_id_by_channel_id(ChannelId::new(0)) == Some(0);
    every(&[
        made,
        raised,
        given,
        progresses(channels, sctp, Raised::Neither),
    ])
}

// A confirmed channel waits for the start of the association, and is then opened.
fn open<S: Association>(
    alloc: Global,
    channels: &mut ChannelHandler,
    sctp: &mut RtcSctp<S>,
) -> bool {
    let made = makes(alloc, channels, None, 0);
    let waits = progresses(channels, sctp, Raised::Neither) & start(sctp, true);
    let opened = progresses(channels, sctp, Raised::Both);
    every(&[
        made,
        waits,
        opened,
        progresses(channels, sctp, Raised::Neither),
    ])
}

fn agrees<S: Association + Drop>(alloc: Global, sctp: RtcSctp<S>, example: &str) -> bool {
    let mut sctp = sctp;
    let mut channels = ChannelHandler::new(alloc);
    match example {
        "of streams before the start" => {
            times(&mut sctp, Moment::from_nanos(1), Raised::Neither)
        }
        "of a server before a datagram" => serve(&mut sctp),
        "of a client that sends again" => send_again(&mut sctp),
        "of a channel that is given a stream" => give(alloc, &mut channels, &mut sctp),
        "of a channel that is opened" => open(alloc, &mut channels, &mut sctp),
        _ => false,
    }
}

/// Whether timeouts raise the signals that an example expects.
pub fn does_agree(alloc: Global, example: &str) -> bool {
    agrees(alloc, fresh(alloc, false), example)
}
