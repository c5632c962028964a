//! Sinks in memory.
ghost use Rattle.std.specs.Prelude.{◌≡◌, ◌<◌, [], length, min, true, Some, IfOk, IsErr};
ghost use Rattle.std.specs.Io.{WritesAtMost};
ghost use Rattle.std.specs.Io.KnownBytes.{WriteAppends};
ghost use Rattle.rtc_io.specs.Faults.{Rose, HasCause};
ghost use Rattle.rtc_io.specs.Tape.{will_refuse, after_write};

use crate::{Sink, WriteFailed};
use rtc_wire::Seq;
use std::alloc::Global;
use std::marker::Model;

/// Keeps what is written. It fails at the listed calls, and if memory runs out.
#[derive(Debug, Drop)]
pub struct MemSink {
    written: Vec<u8>,
    piece: usize,
    failing: Seq<u64>,
    calls: u64,
    faults: u64,
}

impl Model for MemSink {
    ghost use Rattle.rtc_io.specs.Tape.{Tape};

    ghost Value = { Tape };

    ghost use Rattle.rtc_io.specs.MemSink.{tape_of};

    ghost view = { tape_of };
}

impl MemSink {
    /// An empty sink that takes at most `piece` bytes a call, and fails at each call whose number, from 0, is in
    /// `failing`. One whose piece is 0 takes nothing.
    pub fn new(alloc: Global, piece: usize, failing: Seq<u64>) -> MemSink
        ensures { result ≡ record { written = []; piece = piece; failing = failing; calls = 0; faults = 0 } }
    {
        MemSink {
            written: Vec::new(alloc),
            piece,
            failing,
            calls: 0,
            faults: 0,
        }
    }

    /// What was written, lent.
    pub fn written(&self) -> &[u8]
        ensures { result.now ≡ self.now.written }
    {
        self.written.as_slice()
    }
}

impl Sink for MemSink {
    ghost written = { λ tape. Some tape.written };

    ghost faults = { λ tape. tape.faults };

    fn write(&mut self, bytes: &[u8]) -> Result<usize, WriteFailed>
        ensures bound { WritesAtMost result bytes.now }
        ensures bytes { WriteAppends (Some self.old.written) (Some self.new.written) result bytes.now }
        ensures cause { HasCause self.old.faults self.new.faults result }
        ensures stuck { IfOk result (λ count. count ≡ 0 → 0 < length bytes.now → Rose self.old.faults self.new.faults) }
        ensures fails { will_refuse self.old ≡ true → IsErr result }
        ensures count { IfOk result (λ count. count ≡ min self.old.piece (length bytes.now)) }
        ensures after { self.new ≡ after_write self.old bytes.now result }
    {
        let fails = self.failing.as_slice().contains(&self.calls);
        self.calls = self.calls.saturating_add(1);
        let count = self.piece.min(bytes.len());
        if fails || self.written.extend_from_slice(&bytes[..count]).is_err() {
            self.faults = self.faults.saturating_add(1);
            return Err(WriteFailed);
        }
        if count == 0 && !bytes.is_empty() {
            self.faults = self.faults.saturating_add(1);
        }
        Ok(count)
    }
}
