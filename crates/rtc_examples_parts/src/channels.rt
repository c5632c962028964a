//! Streams that the channels of one side are given, hold and drop.
use crate::scenes::fresh;
use crate::work::Work;
use rtc_channels::{ChannelError, ChannelHandler};
use rtc_examples_cases::{every, gives, is_ok};
use rtc_parts::Association;
use rtc_ready::Readiness;
use rtc_sctp::RtcSctp;
use rtc_wire::{ChannelConfig, ChannelId, Moment, Text};
use std::alloc::{AllocError, Global};

/// The config of a channel, negotiated out-of-band for a stream, if there is one.
pub fn config(alloc: Global, settled: Option<u16>) -> Result<ChannelConfig, AllocError> {
    let label = Text::from_str(alloc, "chat")?;
    let mut config = ChannelConfig::new(alloc);
    config.label = label;
    config.negotiated = settled;
    Ok(config)
}

// Confirms a channel with a config whose texts are short.
fn confirm(channels: &mut ChannelHandler, id: ChannelId, config: ChannelConfig) {
    let label = config.label.as_str().len();
    let protocol = config.protocol.as_str().len();
    if channels.has_channel(id) && label <= 65_535 && protocol <= 65_535 {
        channels.confirm(id, config);
    }
}

// Makes a channel and confirms it, for a stream that is negotiated out-of-band, if there is one.
fn make(
    alloc: Global,
    channels: &mut ChannelHandler,
    settled: Option<u16>,
) -> Result<ChannelId, ChannelError> {
    let config = config(alloc, settled)?;
    let id = channels.new_channel(&config)?;
    confirm(channels, id, config);
    Ok(id)
}

/// Whether a channel is made and confirmed with this number.
pub fn makes(
    alloc: Global,
    channels: &mut ChannelHandler,
    settled: Option<u16>,
    number: u64,
) -> bool {
    gives(make(alloc, channels, settled), &ChannelId::new(number))
}

// Holds a stream once more: its channel is removed while its reset is pending.
fn hold(channels: &mut ChannelHandler, stream: u16) -> bool {
    let taken = is_ok(channels.ensure_channel_id_for(stream));
    match channels.channel_id_by_stream_id(stream) {
        Some(id) => {
            channels.remove_channel(id, true);
            taken
        }
        None => false,
    }
}

// A stream is held as often as channels that had it went, and each completed reset ends one hold.
fn hold_twice(channels: &mut ChannelHandler) -> bool {
    let held = hold(channels, 4) & hold(channels, 4);
    let twice = channels.held_count(4) == 2;
    channels.stream_reset_complete(4);
    let once = channels.held_count(4) == 1;
    channels.stream_reset_complete(4);
    let none = channels.held_count(4) == 0;
    let again = hold(channels, 4);
    channels.association_lost();
    every(&[held, twice, once, none, again, channels.held_count(4) == 0])
}

// However often streams are given, one that is held stays held.
fn hold_on(alloc: Global, channels: &mut ChannelHandler) -> bool {
    let mut given = hold(channels, 4) & makes(alloc, channels, Some(4), 1);
    for _ in 0..100u8 {
        given = given & is_ok(channels.do_allocations(true));
    }
    given & (channels.held_count(4) == 1)
}

// A stream that the other side opened is given to a channel, even one that is held here, and is then held on.
fn take_held(channels: &mut ChannelHandler) -> bool {
    let held = hold(channels, 4);
    let none = channels.channel_id_by_stream_id(4).is_none();
    let taken = is_ok(channels.ensure_channel_id_for(4));
    let given = channels.channel_id_by_stream_id(4).is_some();
    every(&[held, none, taken, given, channels.held_count(4) == 1])
}

// The number of a channel that went is not given again.
fn count_up(alloc: Global, channels: &mut ChannelHandler) -> bool {
    let first = makes(alloc, channels, None, 0) & makes(alloc, channels, None, 1);
    channels.remove_channel(ChannelId::new(0), false);
    first & makes(alloc, channels, None, 2) & makes(alloc, channels, None, 3)
}

fn pass<S: Association>(channels: &mut ChannelHandler, sctp: &mut RtcSctp<S>) -> bool {
    let mut readiness = Readiness::armed();
    let mut wake = readiness.wake();
    let passed = is_ok(channels.handle_timeout(Moment::FAR_PAST, sctp, &mut wake));
    readiness.fold(wake);
    passed
}

fn start<S: Association>(sctp: &mut RtcSctp<S>, client: bool) -> bool {
    is_ok(sctp.init(client, Moment::FAR_PAST, None, None))
}

fn is_labelled<S: Association>(sctp: &RtcSctp<S>, stream: u16) -> bool {
    match sctp.config(stream) {
        Some(config) => config.label.as_str() == "chat",
        None => false,
    }
}

// A negotiated stream that is held is given once its reset is complete, and then opened.
fn wait<S: Association>(
    alloc: Global,
    channels: &mut ChannelHandler,
    sctp: &mut RtcSctp<S>,
) -> bool {
    let held = start(sctp, true) & hold(channels, 4) & makes(alloc, channels, Some(4), 1);
    let passed = pass(channels, sctp);
    let waits = channels
        .stream_id_by_channel_id(ChannelId::new(1))
        .is_none();
    let still = channels.poll_timeout(sctp).is_none();
    channels.stream_reset_complete(4);
    let wakes = channels.poll_timeout(sctp).is_some();
    let opened = pass(channels, sctp) & is_labelled(sctp, 4);
    let given = channels.stream_id_by_channel_id(ChannelId::new(1)) == Some(4);
    let closed = is_ok(channels.close_channel(ChannelId::new(1), sctp));
    every(&[held, passed, waits, still, wakes, opened, given, closed])
}

// If every stream of a side is held, a channel gets none, and no moment is wanted.
fn get_none<S: Association>(
    alloc: Global,
    channels: &mut ChannelHandler,
    sctp: &mut RtcSctp<S>,
) -> bool {
    let mut held = start(sctp, false);
    for place in 0..32_768u16 {
        held = held & hold(channels, 2 * place + 1);
    }
    let made = makes(alloc, channels, None, 32_768) & is_ok(channels.do_allocations(false));
    let none = channels
        .stream_id_by_channel_id(ChannelId::new(32_768))
        .is_none();
    held & made & none & channels.poll_timeout(sctp).is_none()
}

fn agrees<S: Association + Drop>(alloc: Global, sctp: RtcSctp<S>, example: &str) -> bool {
    let mut sctp = sctp;
    let mut channels = ChannelHandler::new(alloc);
    match example {
        "hold a stream twice" => hold_twice(&mut channels),
        "hold a stream however often streams are given" => hold_on(alloc, &mut channels),
        "take a held stream that the other side opened" => take_held(&mut channels),
        "have numbers that count up" => count_up(alloc, &mut channels),
        "wait for a settled stream" => wait(alloc, &mut channels, &mut sctp),
        "get no stream where all are held" => get_none(alloc, &mut channels, &mut sctp),
        _ => false,
    }
}

/// Whether an example of the channels of one side gives what is expected.
pub fn does_agree(alloc: Global, example: &str) -> bool {
    agrees(alloc, fresh(alloc, false), example)
}

/// Whether so many channels of a client, which are given streams so often, have this stream at the last of them; 0 if it has none.
pub fn is_done(alloc: Global, work: &Work<'_>) -> bool {
    let mut channels = ChannelHandler::new(alloc);
    let mut done = true;
    for _ in 0..work.amounts.0 {
        done = done & is_ok(make(alloc, &mut channels, None));
    }
    for _ in 0..work.amounts.1 {
        done = done & is_ok(channels.do_allocations(true));
    }
    let last = ChannelId::new(u64::from(work.amounts.0.saturating_sub(1)));
    let stream = channels.stream_id_by_channel_id(last).unwrap_or(0);
    done & (stream as usize == work.answer)
}
