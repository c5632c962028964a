//! Runs whose refusals are compared with the calls that failed.
use crate::course::Course;
use crate::part::Part;
use crate::performing::perform;
use crate::ran::Ran;
use crate::refusals::{
    error_of, have_same_lines, is_acceptance, is_accepted, is_fault_of, is_of_closed, is_poll,
    is_unannounced,
};
use rtc_peer::RtcError;
use rtc_plain::PlainMediaEvent;
use rtc_run_history::{Reply, Side, Step, Table};
use std::alloc::{AllocError, Global};

/// How a run went.
#[derive(Clone, Copy)]
pub struct Judged {
    /// Whether every rule holds.
    pub holds: bool,
    /// How many refusals there were.
    pub refusals: usize,
    /// How many of them were of polls in which a timer of DTLS failed.
    pub timers: usize,
}

// What cannot be run holds in no way.
const BROKEN: Judged = Judged {
    holds: false,
    refusals: 0,
    timers: 0,
};

impl Judged {
    /// No run yet.
    pub fn new() -> Judged {
        Judged {
            holds: true,
            refusals: 0,
            timers: 0,
        }
    }

    /// Adds what was found beside it.
    pub fn add(&mut self, other: Judged) {
        self.holds = self.holds & other.holds;
        self.refusals = self.refusals.saturating_add(other.refusals);
        self.timers = self.timers.saturating_add(other.timers);
    }
}

// What the left peer's last reply before a place shows of it.
fn last_table<'a>(
    steps: &[Step],
    replies: &'a [Reply<PlainMediaEvent>],
    place: usize,
) -> Option<&'a Table> {
    let mut last = None;
    for k in 0..place {
        if let (Some(step), Some(reply)) = (steps.get(k), replies.get(k)) {
            if step.side() == Side::Left {
                last = reply.table.as_ref();
            }
        }
    }
    last
}

// Whether the left peer continues from a place as a closed one.
fn rests(steps: &[Step], replies: &[Reply<PlainMediaEvent>], place: usize) -> bool {
    for k in place..steps.len() {
        if let (Some(step), Some(reply)) = (steps.get(k), replies.get(k)) {
            if step.side() == Side::Left && !is_of_closed(step, reply) {
                return false;
            }
        }
    }
    true
}

// Whether the left peer accepted an offer or an answer before a place.
fn has_accepted(steps: &[Step], replies: &[Reply<PlainMediaEvent>], place: usize) -> bool {
    for k in 0..place {
        if let (Some(step), Some(reply)) = (steps.get(k), replies.get(k)) {
            if step.side() == Side::Left && is_accepted(reply) {
                return true;
            }
        }
    }
    false
}

/// A course over a left part that fails at the calls of these numbers.
#[derive(Clone, Copy)]
pub struct Case<'a> {
    pub course: &'a Course,
    pub part: Part,
    pub numbers: &'a [u64],
}

impl Case<'_> {
    // The run of the first so many steps.
    fn run(&self, alloc: Global, count: usize) -> Result<Option<Ran>, AllocError> {
        match self.course.front(count) {
            Some(steps) => Ok(Some(perform(alloc, None, self.part, self.numbers, steps)?)),
            None => Ok(None),
        }
    }

    // Whether the part failed in a step that was refused so.
    fn has_fault(&self, before: &Ran, after: &Ran, error: &RtcError) -> bool {
        is_fault_of(error, self.part) & (after.faults.of(self.part) > before.faults.of(self.part))
    }

    // A refusal at a place: whether it has its cause, leaves the lines if an acceptance was refused, wakes a peer that it
    // does not close, and is followed by what may follow. Also whether a timer of DTLS failed in a poll, which closes the
    // peer.
    fn judge_refusal(
        &self,
        alloc: Global,
        whole: &Ran,
        place: usize,
        error: &RtcError,
    ) -> Result<Judged, AllocError> {
        let steps = self.course.steps();
        let replies = whole.replies.as_slice();
        let (Some(step), Some(reply)) = (steps.get(place), replies.get(place)) else {
            return Ok(BROKEN);
        };
        let Some(before) = self.run(alloc, place)? else {
            return Ok(BROKEN);
        };
        let Some(after) = self.run(alloc, place.saturating_add(1))? else {
            return Ok(BROKEN);
        };
        // A certificate has no fingerprint to match if the answer that announced it was refused. The peer is then closed.
        let unannounced = is_unannounced(error)
            & is_poll(step)
            & !has_accepted(steps, replies, place)
            & !after.is_alive;
        let caused = self.has_fault(&before, &after, error) | unannounced;
        let own = step.side() == Side::Left;
        let leaves = !is_acceptance(step)
            | have_same_lines(last_table(steps, replies, place), reply.table.as_ref());
        let follows = after.is_alive | rests(steps, replies, place.saturating_add(1));
        let timed = is_poll(step) & (after.faults.dtls_timers > before.faults.dtls_timers);
        Ok(Judged {
            holds: own & caused & leaves & follows & (!after.is_alive | (after.is_awake & !timed)),
            refusals: 1,
            timers: if timed { 1 } else { 0 },
        })
    }

    // The refusals of a run, each with its cause.
    fn judge_refusals(&self, alloc: Global, whole: &Ran) -> Result<Judged, AllocError> {
        let mut judged = Judged::new();
        let mut place = 0usize;
        for reply in whole.replies.as_slice() {
            if let Some(error) = error_of(reply) {
                judged.add(self.judge_refusal(alloc, whole, place, error)?);
            }
            place = place.saturating_add(1);
        }
        Ok(judged)
    }

    /// Runs the course, and judges it.
    pub fn judge(&self, alloc: Global) -> Result<Judged, AllocError> {
        let Some(whole) = self.run(alloc, self.course.len())? else {
            return Ok(BROKEN);
        };
        let mut judged = self.judge_refusals(alloc, &whole)?;
        let few = whole.faults.of(self.part) <= self.numbers.len() as u64;
        let own = whole.faults.are_of(self.part) & whole.others.are_none();
        judged.holds = judged.holds & few & own;
        Ok(judged)
    }
}
