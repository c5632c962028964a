//! Calls of an association for one of many streams.
use crate::log::Log;
use crate::streams::Streams;
use crate::two_peers::{carry, exchange, settle};
use rtc_assoc_end::PlainAssociation;
use rtc_faulty::{CallCounts, Counted};
use rtc_sctp::RtcSctp;
use rtc_wire::Moment;
use std::alloc::{AllocError, Global};
use std::rc::Rc;

// Opens so many streams at both sides, negotiated out-of-band.
fn open_all<T: Streams>(alloc: Global, left: &mut T, right: &mut T, count: u16, log: &mut Log) {
    log.need(left.start(true) & right.start(false));
    exchange(left, right, log);
    for id in 0..count {
        log.need(settle(alloc, left, id, "many") & settle(alloc, right, id, "many"));
    }
    exchange(left, right, log);
}

// How many calls of its association the right side makes for a packet, which is for the last of so many open streams; 0 if the
// message was not received.
fn count_calls<T: Streams>(
    alloc: Global,
    left: &mut T,
    right: &mut T,
    count: u16,
    calls: &CallCounts,
) -> u64 {
    let mut opened = Log::new(alloc);
    open_all(alloc, left, right, count, &mut opened);
    let mut heard = Log::new(alloc);
    heard.need(left.tell(count.saturating_sub(1), "hello"));
    let before = calls.total();
    carry("left", left, right, &mut heard);
    carry("right", right, left, &mut heard);
    let after = calls.total();
    if heard.is("right text hello\n") {
        return after.saturating_sub(before);
    }
    0
}

fn streams(alloc: Global, calls: Rc<CallCounts>) -> RtcSctp<Counted<PlainAssociation>> {
    let association = Counted::new(PlainAssociation::new(alloc), calls);
    RtcSctp::new(alloc, 1200, 262_144, Moment::FAR_PAST, association)
}

fn calls_at(alloc: Global, count: u16) -> Result<u64, AllocError> {
    let others = Rc::new(alloc, CallCounts::new())?;
    let calls = Rc::new(alloc, CallCounts::new())?;
    let mut left = streams(alloc, others);
    let mut right = streams(alloc, Rc::clone(&calls)?);
    Ok(count_calls(alloc, &mut left, &mut right, count, &calls))
}

// Whether two counts of calls are the same.
fn are_same(few: Result<u64, AllocError>, many: Result<u64, AllocError>) -> bool {
    match few {
        Ok(few) => match many {
            Ok(many) => (few > 0) & (few == many),
            Err(_) => false,
        },
        Err(_) => false,
    }
}

/// Whether an example of the calls of an association gives what is expected.
pub fn does_agree(alloc: Global, example: &str) -> bool {
    match example {
        "for a packet are as many at 1000 open streams as at 10" => {
            are_same(calls_at(alloc, 10), calls_at(alloc, 1000))
        }
        _ => false,
    }
}
