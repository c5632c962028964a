//! Tables of runs over parts that fail.
use crate::checking::{Case, Judged};
use crate::course::Course;
use crate::growing::grow;
use crate::part::Part;
use rtc_wire::Span;
use std::alloc::{AllocError, Global};

// Numbers of calls are below.
const NUMBERS: u64 = 64;

/// A number of digits; 0 if it is none.
pub fn number(word: Option<&str>) -> u64 {
    match word {
        Some(word) => word.parse().unwrap_or(0),
        None => 0,
    }
}

// A run for each number.
fn judge_singles(alloc: Global, course: &Course, part: Part) -> Result<Judged, AllocError> {
    let mut sum = Judged::new();
    for number in 0..NUMBERS {
        let numbers = [number];
        let case = Case {
            course,
            part,
            numbers: &numbers,
        };
        sum.add(case.judge(alloc)?);
    }
    Ok(sum)
}

// The next of numbers that a seed determines.
fn scrambled(seed: u64) -> u64 {
    seed.wrapping_mul(6_364_136_223_846_793_005)
        .wrapping_add(1_442_695_040_888_963_407)
}

// A run for each of so many pairs of numbers.
fn judge_pairs(
    alloc: Global,
    course: &Course,
    part: Part,
    count: u64,
    seed: u64,
) -> Result<Judged, AllocError> {
    let mut sum = Judged::new();
    let mut state = seed;
    for _ in 0..count {
        state = scrambled(state);
        let first = (state >> 33) % NUMBERS;
        state = scrambled(state);
        let second = (state >> 33) % NUMBERS;
        let numbers = [first, second];
        let case = Case {
            course,
            part,
            numbers: &numbers,
        };
        sum.add(case.judge(alloc)?);
    }
    Ok(sum)
}

// Whether every rule held in all runs, and some were refused; if time passes, some polls by a timer of DTLS.
fn hold(sum: Judged, part: Part, span: Span) -> bool {
    let timed = (part != Part::Dtls) | (span.nanos() == 0) | (sum.timers > 0);
    sum.holds & (sum.refusals > 0) & timed
}

/// Whether the rules hold if a part fails at one call, for each number of a call. The line names the part, and the
/// milliseconds that pass before each of the first rounds.
pub fn does_hold_once(alloc: Global, line: &str) -> Result<bool, AllocError> {
    let mut words = line.split(' ');
    let part = words.next();
    let span = Span::from_millis(number(words.next()));
    let (Some(part), Some(course)) = (part.and_then(Part::read), grow(alloc, span)?) else {
        return Ok(false);
    };
    let sum = judge_singles(alloc, &course, part)?;
    Ok(hold(sum, part, span))
}

/// The same if it fails at two calls, for so many pairs of numbers that a seed determines.
pub fn does_hold_twice(alloc: Global, line: &str) -> Result<bool, AllocError> {
    let mut words = line.split(' ');
    let part = words.next();
    let span = Span::from_millis(number(words.next()));
    let count = number(words.next());
    let seed = number(words.next());
    let (Some(part), Some(course)) = (part.and_then(Part::read), grow(alloc, span)?) else {
        return Ok(false);
    };
    let sum = judge_pairs(alloc, &course, part, count, seed)?;
    Ok(hold(sum, part, span))
}
