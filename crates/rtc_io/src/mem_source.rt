//! Sources in memory.
ghost use Rattle.std.specs.Prelude.{◌≡◌, ◌<◌, ◌++◌, length, min, take, drop, Some, IfOk, OnErr, is_err};
ghost use Rattle.std.specs.Io.{ReadsAtMost};
ghost use Rattle.std.specs.Io.KnownBytes.{ReadConsumes};
ghost use Rattle.rtc_io.specs.Faults.{HasCause};
ghost use Rattle.rtc_io.specs.Feed.{will_fail, after_read};

use crate::{ReadFailed, Source};
use rtc_wire::{Bytes, Seq};
use std::marker::Model;

/// Gives bytes that it holds, and fails at the listed calls.
#[derive(Debug, Drop)]
pub struct MemSource {
    bytes: Bytes,
    taken: usize,
    piece: usize,
    failing: Seq<u64>,
    calls: u64,
    faults: u64,
}

impl Model for MemSource {
    ghost use Rattle.rtc_io.specs.Feed.{Feed};

    ghost Value = { Feed };

    ghost use Rattle.rtc_io.specs.MemSource.{feed_of, IsFeeding};

    ghost view = { feed_of };

    ghost invariant = { IsFeeding };
}

impl MemSource {
    /// A source of these bytes that gives at most `piece` of them a call, and fails at each call whose number, from
    /// 0, is in `failing`.
    pub fn new(bytes: Bytes, piece: usize, failing: Seq<u64>) -> MemSource
        requires { 0 < piece }
        ensures { result ≡ record { left = bytes; piece = piece; failing = failing; calls = 0; faults = 0 } }
    {
        MemSource {
            bytes,
            taken: 0,
            piece,
            failing,
            calls: 0,
            faults: 0,
        }
    }
}

// Fills the front of a buffer with one piece of what is left, at most what it has room for.
fn fill(left: &[u8], piece: usize, buf: &mut [u8]) -> usize
    ensures count { result ≡ min (min piece (length buf.old)) (length left.now) }
    ensures filled { buf.new ≡ take result left.now ++ drop result buf.old }
{
    let count = piece.min(buf.len()).min(left.len());
    buf[..count].copy_from_slice(&left[..count]);
    count
}

impl Source for MemSource {
    ghost left = { λ feed. Some feed.left };

    ghost faults = { λ feed. feed.faults };

    fn read(&mut self, buf: &mut [u8]) -> Result<usize, ReadFailed>
        requires { 0 < length buf.old }
        ensures bound { ReadsAtMost result buf.new }
        ensures bytes { ReadConsumes (Some self.old.left) (Some self.new.left) result buf.new }
        ensures cause { HasCause self.old.faults self.new.faults result }
        ensures fails { is_err result ≡ will_fail self.old }
        ensures count { IfOk result (λ count. count ≡ min (min self.old.piece (length buf.old)) (length self.old.left)) }
        ensures filled { IfOk result (λ count. buf.new ≡ take count self.old.left ++ drop count buf.old) }
        ensures unfilled { OnErr result (buf.new ≡ buf.old) }
        ensures after { self.new ≡ after_read self.old result }
    {
        let fails = self.failing.as_slice().contains(&self.calls);
        self.calls = self.calls.saturating_add(1);
        if fails {
            self.faults = self.faults.saturating_add(1);
            return Err(ReadFailed);
        }
        let count = fill(&self.bytes.as_slice()[self.taken..], self.piece, buf);
        self.taken += count;
        Ok(count)
    }
}
