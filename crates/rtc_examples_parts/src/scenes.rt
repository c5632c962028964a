//! Streams of two peers that are opened, closed, opened again and not opened, and chunks of descriptions that are refused.
use crate::log::Log;
use crate::streams::Streams;
use crate::two_peers::{carry, carry_one, exchange, open, settle};
use rtc_assoc_end::PlainAssociation;
use rtc_examples_cases::{every, gives, is_ok};
use rtc_parts::Association;
use rtc_plain::CountIds;
use rtc_sctp::RtcSctp;
use rtc_wire::Moment;
use std::alloc::{AllocError, Global};

// The left side starts as the client, and the right one as the server.
fn start<T: Streams>(left: &mut T, right: &mut T, log: &mut Log) {
    log.need(left.start(true) & right.start(false));
    exchange(left, right, log);
}

// A negotiated stream is closed behind a message that nobody reads, and opened again.
fn opened_again<T: Streams>(alloc: Global, left: &mut T, right: &mut T, log: &mut Log) {
    start(left, right, log);
    log.need(settle(alloc, left, 0, "first") & settle(alloc, right, 0, "first"));
    exchange(left, right, log);
    log.need(left.tell(0, "unread") & left.shut(0));
    exchange(left, right, log);
    log.need((left.resets(0) == 1) & (right.resets(0) == 1));
    log.need(settle(alloc, left, 0, "second") & settle(alloc, right, 0, "second"));
    exchange(left, right, log);
    log.need(left.tell(0, "hello"));
    exchange(left, right, log);
}

const OPENED_AGAIN: &str =
    "left open first\nright open first\nleft close, reset pending\nright close, reset pending\nleft reset complete\n\
    right reset complete\nleft open second\nright open second\nright text hello\n";

// A negotiated stream that was closed here is opened once its reset is complete, and not before.
fn wait_for_reset<T: Streams>(alloc: Global, left: &mut T, right: &mut T, log: &mut Log) {
    start(left, right, log);
    log.need(settle(alloc, left, 0, "first") & settle(alloc, right, 0, "first"));
    exchange(left, right, log);
    log.need(left.shut(0));
    carry("left", left, right, log);
    log.need(settle(alloc, left, 0, "second"));
    carry("left", left, right, log);
    log.need((left.resets(0) == 0) & (right.resets(0) == 0));
    exchange(left, right, log);
}

const WAIT_FOR_RESET: &str =
    "left open first\nright open first\nleft close, reset pending\nright close, reset pending\nleft open second\n\
    left reset complete\nright reset complete\n";

// A stream of the other end, which has no channel here, went before it is negotiated here.
fn went<T: Streams>(alloc: Global, left: &mut T, right: &mut T, log: &mut Log) {
    start(left, right, log);
    log.need(settle(alloc, right, 1, "theirs"));
    exchange(left, right, log);
    log.need(right.tell(1, "hello"));
    exchange(left, right, log);
    log.need(left.shut(1));
    carry_one("left", left, right, log);
    carry("right", right, left, log);
    log.need(settle(alloc, left, 1, "ours"));
    exchange(left, right, log);
}

const WENT: &str =
    "right open theirs\nleft text hello\nright close, reset pending\nleft close\nleft reset complete\nright reset complete\n";

// A stream that the other end began is not taken for one that is announced here: its opening is tried for ten seconds.
fn given_up<T: Streams>(alloc: Global, left: &mut T, right: &mut T, log: &mut Log) {
    start(left, right, log);
    log.need(open(alloc, right, 0, "theirs"));
    carry("right", right, left, log);
    log.need(open(alloc, left, 0, "ours"));
    carry("left", left, right, log);
    log.need(left.pass(11_000_000_000));
    carry("left", left, right, log);
}

// The text of a chunk of the other end.
const OTHER_CHUNK: &str = "AQAAFAAAAAsAEAAA/////wAAAAw=";

// Whether a text of a chunk is carried, or none.
fn tells(told: Result<Option<String>, AllocError>, text: Option<&str>) -> bool {
    match told {
        Ok(Some(told)) => text == Some(told.as_str()),
        Ok(None) => text.is_none(),
        Err(_) => false,
    }
}

// Whether the text of a chunk is taken, or not.
fn takes<S: Association>(sctp: &mut RtcSctp<S>, text: &str, taken: bool) -> bool {
    if sctp.is_inited() {
        return false;
    }
    gives(sctp.set_remote_snap_init_string(text), &taken)
}

// A text that is no base64 lets the chunk go that was drawn before, and another one may be drawn.
fn refuse_chunks<S: Association>(sctp: &mut RtcSctp<S>) -> bool {
    let mut ids = CountIds::starting(7);
    sctp.enable_snap();
    let other = takes(sctp, "!!!", false);
    let drawn = is_ok(sctp.ensure_local_snap_init(&mut ids));
    let own = tells(
        sctp.local_sctp_init_for_sdp(),
        Some("AQAAFAAAAAcAEAAA/////wAAAAg="),
    );
    let short = takes(sctp, "AQ", false);
    let enabled = sctp.snap_enabled();
    let none = tells(sctp.local_sctp_init_for_sdp(), None);
    let again = is_ok(sctp.ensure_local_snap_init(&mut ids));
    let next = tells(
        sctp.local_sctp_init_for_sdp(),
        Some("AQAAFAAAAAkAEAAA/////wAAAAo="),
    );
    let taken = takes(sctp, OTHER_CHUNK, true);
    let told = tells(sctp.snap_remote_init_string(), Some(OTHER_CHUNK));
    let built = is_ok(sctp.build_snap_init_data());
    every(&[
        other, drawn, own, short, enabled, none, again, next, taken, told, built,
    ])
}

// Whether two sides report this of what they do.
fn are_told<T: Streams>(alloc: Global, left: &mut T, right: &mut T, example: &str) -> bool {
    let mut log = Log::new(alloc);
    match example {
        "are opened again" => {
            opened_again(alloc, left, right, &mut log);
            log.is(OPENED_AGAIN)
        }
        "wait for their reset" => {
            wait_for_reset(alloc, left, right, &mut log);
            log.is(WAIT_FOR_RESET)
        }
        "went before they are settled" => {
            went(alloc, left, right, &mut log);
            log.is(WENT)
        }
        "are given up" => {
            given_up(alloc, left, right, &mut log);
            log.is("left close, reset pending\n")
        }
        _ => false,
    }
}

fn agrees<S: Association + Drop>(
    alloc: Global,
    left: RtcSctp<S>,
    right: RtcSctp<S>,
    example: &str,
) -> bool {
    let mut left = left;
    let mut right = right;
    match example {
        "over short datagrams" => left.max_payload_size() == 812,
        "refuse a chunk" => refuse_chunks(&mut left),
        _ => are_told(alloc, &mut left, &mut right, example),
    }
}

/// The streams of a side that is not started, over datagrams of at most 1200 bytes, or of 900.
pub fn fresh(alloc: Global, short: bool) -> RtcSctp<PlainAssociation> {
    let association = PlainAssociation::new(alloc);
    if short {
        RtcSctp::new(alloc, 900, 262_144, Moment::FAR_PAST, association)
    } else {
        RtcSctp::new(alloc, 1200, 262_144, Moment::FAR_PAST, association)
    }
}

/// Whether an example of streams gives what is expected.
pub fn does_agree(alloc: Global, example: &str) -> bool {
    let left = fresh(alloc, example == "over short datagrams");
    let right = fresh(alloc, false);
    agrees(alloc, left, right, example)
}
