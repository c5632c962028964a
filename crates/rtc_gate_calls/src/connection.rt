//! One connection: the received stream, and the frames that wait for it.
ghost use Rattle.std.specs.Prelude.{
  ◌≡◌,
  ℕ,
  Bool,
  List,
  ◌+◌,
  ◌<◌,
  ◌≤◌,
  ◌^◌,
  [],
  ◌++◌,
  OnOk,
  OnErr,
  length,
  take,
  drop,
  slice_get,
  if◌then◌else◌,
};
ghost use Rattle.rtc_gate_calls.specs.GateState.{ConnectionState, Incoming, fresh_connection};

use rtc_wire::Bytes;
use rtc_wire_text::ShortToken;
use std::alloc::{AllocError, Global};
use std::collections::LinkedList;
use std::marker::Model;

/// One connection: the received stream, and the frames that wait for it.
#[derive(Drop)]
pub struct Connection {
    number: u32,
    name: ShortToken,
    done: u64,
    kept: Vec<u8>,
    stuck: bool,
    queue: LinkedList<Bytes>,
}

impl Model for Connection {
    ghost use Rattle.rtc_gate_calls.specs.GateState.{ConnectionState};

    ghost Value = { ConnectionState };

    ghost use Rattle.rtc_gate_calls.specs.Connection.{connection_state};

    ghost view = { connection_state };
}

impl Connection {
    pub fn new(alloc: Global, number: u32, name: ShortToken) -> Connection
        ensures { result ≡ fresh_connection number name }
    {
        Connection {
            number,
            name,
            done: 0,
            kept: Vec::new(alloc),
            stuck: false,
            queue: LinkedList::new(alloc),
        }
    }

    pub fn number(&self) -> u32
        ensures { result ≡ self.now.number }
    {
        self.number
    }

    pub fn name(&self) -> ShortToken
        ensures { result ≡ self.now.name }
    {
        self.name
    }

    pub fn is_stuck(&self) -> bool
        ensures { result ≡ self.now.incoming.stuck }
    {
        self.stuck
    }

    pub fn done(&self) -> u64
        ensures { result ≡ self.now.incoming.done }
    {
        self.done
    }

    pub fn kept(&self) -> &[u8]
        ensures { result.now ≡ self.now.incoming.kept }
    {
        self.kept.as_slice()
    }

    /// How many frames wait.
    pub fn waiting(&self) -> usize
        ensures { result ≡ length self.now.queue }
    {
        self.queue.len()
    }

    /// Keeps a piece of the stream behind what is kept.
    pub fn keep(&mut self, piece: &[u8]) -> Result<(), AllocError>
        ensures ok { OnOk result (self.new
            ≡ record self.old { incoming = record self.old.incoming { kept = self.old.incoming.kept ++ piece.now } }) }
        ensures err { OnErr result (self.new ≡ self.old) }
    {
        self.kept.extend_from_slice(piece)
    }

    /// Forgets what is kept past so many bytes.
    pub fn forget(&mut self, count: usize)
        ensures { self.new ≡ record self.old { incoming = record self.old.incoming { kept = take count self.old.incoming.kept } } }
    {
        self.kept.truncate(count);
    }

    /// Drops the whole frames at the front of what is kept, and the rest too if the stream is stuck.
    pub fn advance(&mut self, size: usize, stuck: bool)
        requires within { size ≤ length self.old.incoming.kept }
        requires fits { self.old.incoming.done + size < 2 ^ 64 }
        ensures { self.new ≡ record self.old {
          incoming = record {
            done = self.old.incoming.done + size;
            kept = if stuck then [] else drop size self.old.incoming.kept;
            stuck = stuck;
          };
        } }
    {
        let left = self.kept.len() - size;
        self.done += size as u64;
        self.stuck = stuck;
        self.kept.rotate_left(size);
        self.kept.truncate(if stuck { 0 } else { left });
    }

    /// Puts frames behind those that wait.
    pub fn receive(&mut self, mut frames: LinkedList<Bytes>)
        requires { length self.old.queue + length frames < 2 ^ 63 }
        ensures { self.new ≡ record self.old { queue = self.old.queue ++ frames } }
    {
        match self.queue.append(&mut frames) {
            Ok(()) => (),
            Err(_) => unreachable!(),
        }
    }

    /// The frame that waited longest.
    pub fn next(&mut self) -> Option<Bytes>
        ensures frame { result ≡ slice_get self.old.queue 0 }
        ensures left { self.new ≡ record self.old { queue = drop 1 self.old.queue } }
    {
        self.queue.pop_front()
    }
}
