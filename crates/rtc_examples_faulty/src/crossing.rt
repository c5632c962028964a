//! Offers that cross between a polite and an impolite peer, of which a part of the left one fails.
use crate::course::Course;
use crate::part::Part;
use crate::performing::perform;
use crate::ran::Ran;
use crate::refusals::{error_of, have_same_lines, is_fault_of};
use crate::table::number;
use rtc_peer::{LineRow, RtcError};
use rtc_plain::PlainMediaEvent;
use rtc_run_history::{Outcome, Reply, Side, Table};
use std::alloc::{AllocError, Global};

// Numbers of calls are below.
const NUMBERS: u64 = 64;

// The number of the answer, behind both offers.
const ANSWER: u32 = 2;

// A step behind two offers that cross.
#[derive(Clone, Copy, PartialEq, Eq)]
enum Act {
    // The impolite side refuses the other offer.
    Refuse,
    // The polite side rolls its own offer back.
    RollBack,
    // The polite side answers the other offer.
    Answer,
    // The impolite side accepts the answer.
    End,
}

// The answer is behind the rollback, and the refusal before the end.
static ORDERS: [[Act; 4]; 3] = [
    [Act::Refuse, Act::RollBack, Act::Answer, Act::End],
    [Act::RollBack, Act::Refuse, Act::Answer, Act::End],
    [Act::RollBack, Act::Answer, Act::Refuse, Act::End],
];

// Who is polite, and the numbers of the two offers.
#[derive(Clone, Copy)]
struct Crossing {
    polite: Side,
    impolite: Side,
    polite_offer: u32,
    impolite_offer: u32,
}

impl Crossing {
    // The polite offer is the first one, or the second.
    fn new(left_polite: bool, polite_first: bool) -> Crossing {
        let (polite, impolite) = if left_polite {
            (Side::Left, Side::Right)
        } else {
            (Side::Right, Side::Left)
        };
        let (polite_offer, impolite_offer) = if polite_first { (0, 1) } else { (1, 0) };
        Crossing {
            polite,
            impolite,
            polite_offer,
            impolite_offer,
        }
    }

    // Both offers, the first one first.
    fn offer(&self, alloc: Global, course: &mut Course) -> Result<(), AllocError> {
        let (first, second) = if self.polite_offer == 0 {
            (self.polite, self.impolite)
        } else {
            (self.impolite, self.polite)
        };
        course.offer(alloc, first)?;
        course.offer(alloc, second)
    }

    fn perform(&self, course: &mut Course, act: Act) -> Result<(), AllocError> {
        match act {
            Act::Refuse => course.accept_offer(self.impolite, self.polite_offer),
            Act::RollBack => course.roll_back(self.polite, self.polite_offer),
            Act::Answer => course.accept_offer(self.polite, self.impolite_offer),
            Act::End => course.accept_answer(self.impolite, self.impolite_offer, ANSWER),
        }
    }

    // Whether the left peer acts.
    fn is_left(&self, act: Act) -> bool {
        let at = match act {
            Act::Refuse | Act::End => self.impolite,
            Act::RollBack | Act::Answer => self.polite,
        };
        at == Side::Left
    }
}

// Whether a step ended as it does if no part fails.
fn is_due(act: Act, reply: &Reply<PlainMediaEvent>) -> bool {
    match (act, &reply.outcome) {
        (Act::Refuse, Outcome::Refused(RtcError::Glare)) => true,
        (Act::RollBack, Outcome::Done) => true,
        (Act::Answer, Outcome::Answered { text }) => *text == ANSWER,
        (Act::End, Outcome::Finished) => true,
        _ => false,
    }
}

// Whether a table has one line, of data channels.
fn has_channels_alone(table: &Table) -> bool {
    match table.lines.as_slice() {
        [LineRow::App { .. }] => true,
        _ => false,
    }
}

// Whether the replies to the answer and to its acceptance have the one line of data channels.
fn have_met(replies: &[Reply<PlainMediaEvent>], answered: usize, ended: usize) -> bool {
    match (replies.get(answered), replies.get(ended)) {
        (Some(answer), Some(end)) => match &end.table {
            Some(table) => has_channels_alone(table)
                & have_same_lines(answer.table.as_ref(), Some(table)),
            None => false,
        },
        _ => false,
    }
}

// Where the answer is among the steps.
fn answer_place(acts: &[Act]) -> usize {
    let mut place = 2usize;
    for act in acts {
        if *act == Act::Answer {
            return place;
        }
        place = place.saturating_add(1);
    }
    place
}

// Whether a fault of a part refused a step, which leaves the lines.
fn is_refused(reply: &Reply<PlainMediaEvent>, part: Part, before: Option<&Table>) -> bool {
    match error_of(reply) {
        Some(error) => is_fault_of(error, part) & have_same_lines(before, reply.table.as_ref()),
        None => false,
    }
}

// Whether the steps behind the offers ended as they do, up to the first that a fault of the part of the left peer refused.
fn holds(crossing: &Crossing, acts: &[Act], part: Part, ran: &Ran) -> bool {
    let replies = ran.replies.as_slice();
    let mut lines = None;
    let mut place = 2usize;
    for act in acts {
        let Some(reply) = replies.get(place) else {
            return false;
        };
        if !is_due(*act, reply) {
            return crossing.is_left(*act)
                & is_refused(reply, part, lines)
                & (ran.faults.of(part) == 1);
        }
        if crossing.is_left(*act) {
            lines = reply.table.as_ref();
        }
        place = place.saturating_add(1);
    }
    have_met(replies, answer_place(acts), 5)
}

// The runs of one order, with a fault at each number: whether all hold, and in how many a call failed.
fn cross(
    alloc: Global,
    crossing: &Crossing,
    acts: &[Act],
    part: Part,
) -> Result<(bool, u64), AllocError> {
    let mut course = Course::new(alloc);
    crossing.offer(alloc, &mut course)?;
    for act in acts {
        crossing.perform(&mut course, *act)?;
    }
    let Some(steps) = course.front(course.len()) else {
        return Ok((false, 0));
    };
    let polite = crossing.polite == Side::Left;
    let mut all = true;
    let mut failed = 0u64;
    for number in 0..NUMBERS {
        let numbers = [number];
        let ran = perform(alloc, Some(polite), part, &numbers, steps)?;
        let own = ran.faults.are_of(part) & ran.others.are_none();
        all = all & own & holds(crossing, acts, part, &ran);
        failed = failed.saturating_add(ran.faults.of(part));
    }
    Ok((all, failed))
}

/// Whether offers that cross end as they do if no part fails, in each order, with either offer first, and with a fault at
/// each number of a call; or a fault refused a step. The line names the part, the role of the left peer, and how many calls
/// of the part its steps make.
pub fn does_meet(alloc: Global, line: &str) -> Result<bool, AllocError> {
    let mut words = line.split(' ');
    let part = words.next().and_then(Part::read);
    let left_polite = words.next() == Some("polite");
    let calls = number(words.next());
    let Some(part) = part else {
        return Ok(false);
    };
    let mut all = true;
    for acts in &ORDERS {
        let first = cross(alloc, &Crossing::new(left_polite, true), acts, part)?;
        let second = cross(alloc, &Crossing::new(left_polite, false), acts, part)?;
        all = all & first.0 & (first.1 == calls) & second.0 & (second.1 == calls);
    }
    Ok(all)
}
