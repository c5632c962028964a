//! The program over sources and sinks that fail.
ghost use Rattle.std.specs.Prelude.{◌<◌};

use crate::pair_main;
use rtc_io::{MemSink, MemSource};
use rtc_wire::{Bytes, Seq};
use std::alloc::{AllocError, Global};

const SCRIPT: &[u8] = b"str0m-pair 1\nL offer audio:sendrecv\nR accept 0\nL answer 0 1\n";

const REPORT: &[u8] =
    b"step 0 L ops m3 text 0\nstep 1 R answered 1\nline 0 m3 audio sendrecv live remote\n\
    step 2 L finished\nline 0 m3 audio sendrecv live local\n";

// The status of a run of the script, and what it writes. The source gives so many bytes a call, the sink takes so many,
// and each fails at the calls that are listed for it.
struct Case {
    given: usize,
    unread: &'static [u64],
    taken: usize,
    unwritten: &'static [u64],
    status: u8,
    written: &'static [u8],
}

// A source that fails at its first call, and one that fails in the middle of the script.
const READ_FAULTS: [Case; 2] = [
    Case {
        given: 64,
        unread: &[0],
        taken: 4096,
        unwritten: &[],
        status: 4,
        written: b"read fault\n",
    },
    Case {
        given: 10,
        unread: &[3],
        taken: 4096,
        unwritten: &[],
        status: 4,
        written: b"read fault\n",
    },
];

// A sink that fails at its first call, one that takes no byte, one that fails behind seven bytes, and one beside a source that fails.
const WRITE_FAULTS: [Case; 4] = [
    Case {
        given: 64,
        unread: &[],
        taken: 4096,
        unwritten: &[0],
        status: 5,
        written: b"",
    },
    Case {
        given: 64,
        unread: &[],
        taken: 0,
        unwritten: &[],
        status: 5,
        written: b"",
    },
    Case {
        given: 64,
        unread: &[],
        taken: 1,
        unwritten: &[7],
        status: 5,
        written: b"step 0 ",
    },
    Case {
        given: 64,
        unread: &[0],
        taken: 4,
        unwritten: &[1],
        status: 5,
        written: b"read",
    },
];

// Nothing fails: pieces of one byte are joined, and calls that are not made are listed.
const NO_FAULTS: [Case; 2] = [
    Case {
        given: 1,
        unread: &[],
        taken: 1,
        unwritten: &[],
        status: 0,
        written: REPORT,
    },
    Case {
        given: 4096,
        unread: &[2],
        taken: 4096,
        unwritten: &[1],
        status: 0,
        written: REPORT,
    },
];

// A status, once what was kept is dropped.
fn status_of<P: Drop>(status: u8, _kept: Option<P>) -> u8 {
    status
}

fn does_hold(alloc: Global, case: &Case) -> Result<bool, AllocError> {
    if case.given == 0 {
        return Ok(false);
    }
    let mut words = Vec::new(alloc);
    words.push(String::from_str(alloc, "run")?)?;
    let bytes = Bytes::new(SCRIPT.to_vec(alloc)?);
    let unread = Seq::new(case.unread.to_vec(alloc)?);
    let unwritten = Seq::new(case.unwritten.to_vec(alloc)?);
    let mut input = MemSource::new(bytes, case.given, unread);
    let mut output = MemSink::new(alloc, case.taken, unwritten);
    let mut last = None;
    let status = pair_main(alloc, words.as_slice(), &mut input, &mut output, &mut last);
    let status = status_of(status, last);
    Ok((status == case.status) & (output.written() == case.written))
}

fn do_hold(alloc: Global, cases: &[Case]) -> Result<bool, AllocError> {
    for case in cases {
        if !does_hold(alloc, case)? {
            return Ok(false);
        }
    }
    Ok(true)
}

#[test]
fn a_source_that_fails_ends_with_status_4(rt: HostRuntime) {
    assert_eq!(rt; do_hold(rt.alloc(), &READ_FAULTS), Ok(true));
}

#[test]
fn a_sink_that_fails_or_takes_nothing_ends_with_status_5(rt: HostRuntime) {
    assert_eq!(rt; do_hold(rt.alloc(), &WRITE_FAULTS), Ok(true));
}

#[test]
fn pieces_of_one_byte_are_joined(rt: HostRuntime) {
    assert_eq!(rt; do_hold(rt.alloc(), &NO_FAULTS), Ok(true));
}
