//! Sources and sinks: pieces, and calls that fail.
ghost use Rattle.std.specs.Prelude.{◌<◌, ◌-◌, ◌^◌};

use rtc_examples_cases::{every, is_true};
use rtc_io::{INPUT_LIMIT, MemSink, MemSource, ReadError, Sink, Source, read_all, write_all};
use rtc_wire::{Bytes, Seq};
use std::alloc::{AllocError, Global};

const WORDS: &[u8] = b"L offer";

// Whether a source gives these bytes, or this error.
fn reads<R: Source>(
    alloc: Global,
    input: &mut R,
    limit: usize,
    want: Result<&[u8], ReadError>,
) -> bool
    requires { limit < 2 ^ 64 - 1 }
{
    match read_all(alloc, input, limit) {
        Ok(bytes) => want == Ok(bytes.as_slice()),
        Err(error) => want == Err(error),
    }
}

// Whether a source of bytes in memory, in pieces and with calls that fail, gives these bytes or this error.
fn reads_from(
    alloc: Global,
    bytes: &[u8],
    piece: usize,
    failing: &[u64],
    want: Result<&[u8], ReadError>,
) -> Result<bool, AllocError>
    requires { 0 < piece }
{
    let bytes = Bytes::new(bytes.to_vec(alloc)?);
    let failing = Seq::new(failing.to_vec(alloc)?);
    let mut input = MemSource::new(bytes, piece, failing);
    Ok(reads(alloc, &mut input, INPUT_LIMIT, want))
}

// Whether a sink takes the words whole.
fn takes<W: Sink>(output: &mut W) -> bool {
    write_all(output, WORDS).is_ok()
}

fn sink(alloc: Global, piece: usize, failing: &[u64]) -> Result<MemSink, AllocError> {
    let failing = Seq::new(failing.to_vec(alloc)?);
    Ok(MemSink::new(alloc, piece, failing))
}

// Whether a sink that takes so many bytes a call, and fails at these calls, takes the words, and what it has then.
fn writes(
    alloc: Global,
    piece: usize,
    failing: &[u64],
    taken: bool,
    want: &[u8],
) -> Result<bool, AllocError> {
    let mut output = sink(alloc, piece, failing)?;
    let took = takes(&mut output);
    Ok((took == taken) & (output.written() == want))
}

// Whether pieces of one byte are joined, as they are read and as they are written.
fn joins_pieces(alloc: Global) -> bool {
    every(&[
        is_true(reads_from(alloc, WORDS, 1, &[], Ok(WORDS))),
        is_true(writes(alloc, 1, &[], true, WORDS)),
    ])
}

fn fails_at_listed(alloc: Global) -> bool {
    every(&[
        is_true(reads_from(alloc, WORDS, 1, &[0], Err(ReadError::Fault))),
        is_true(reads_from(alloc, WORDS, 1, &[3], Err(ReadError::Fault))),
        is_true(reads_from(alloc, WORDS, 1, &[7], Err(ReadError::Fault))),
        is_true(writes(alloc, 2, &[2], false, b"L of")),
    ])
}

/// Whether a source or a sink does what is expected.
pub fn does_agree(alloc: Global, example: &str) -> bool {
    match example {
        "pieces of one byte are joined" => joins_pieces(alloc),
        "listed calls fail" => fails_at_listed(alloc),
        "a sink that takes no byte fails" => is_true(writes(alloc, 0, &[], false, b"")),
        _ => false,
    }
}
