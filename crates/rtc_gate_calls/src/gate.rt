//! The gateway.
ghost use Rattle.std.specs.Prelude.{◌≡◌, ◌+◌, ◌<◌, ◌^◌, [], IfSome, IsTrue, length};
ghost use Rattle.rtc_gate_calls.specs.GateState.{
  IsAnswered,
  connection_numbered,
  roster_of,
  after_join,
  after_leave,
  after_feed,
  after_take,
  leave_answer,
  feed_answer,
  take_answer,
};
ghost use Rattle.rtc_gate_calls.specs.Routing.{join_answer};

use crate::GateError;
use crate::acting::{NotHere, leave_from, room_for, take_from};
use crate::connection::Connection;
use crate::feeding::feed_to;
use rtc_wire::Bytes;
use rtc_wire_text::ShortToken;
use std::alloc::Global;
use std::collections::BTreeMap;
use std::marker::Model;

// As many connections are here at most.
const CONNECTION_LIMIT: usize = 1024;

/// Passes frames on between connections that have names.
#[derive(Drop)]
pub struct Gate {
    joined: u64,
    names: BTreeMap<ShortToken, u32>,
    connections: Vec<Connection>,
}

impl Model for Gate {
    ghost use Rattle.rtc_gate_calls.specs.GateState.{GateState};

    ghost Value = { GateState };

    ghost use Rattle.rtc_gate_calls.specs.Gate.{IsKept};

    ghost view = { λ gate. record { joined = gate.joined; connections = gate.connections.items } };

    ghost invariant = { λ gate. IsKept gate.joined gate.names gate.connections.items };
}

impl Gate {
    /// Nobody is here, and nobody joined.
    pub fn new(alloc: Global) -> Gate
        ensures { result ≡ record { joined = 0; connections = [] } }
    {
        Gate {
            joined: 0,
            names: BTreeMap::new(alloc),
            connections: Vec::new(alloc),
        }
    }

    /// A connection joins under a name, and gets the next number, from 0.
    pub fn join(&mut self, name: &str) -> Result<u32, GateError>
        requires { self.old.joined < 2 ^ 32 }
        ensures { IsAnswered result (join_answer self.old.joined (roster_of self.old.connections) name.now) self.old self.new
            (after_join self.old name.now) }
    {
        let Some(name) = ShortToken::read(name) else {
            return Err(GateError::BadName);
        };
        if self.names.contains_key(&name) {
            return Err(GateError::NameTaken);
        }
        if self.connections.len() >= CONNECTION_LIMIT {
            return Err(GateError::Full);
        }
        let number = self.joined as u32;
        let alloc = *self.connections.allocator();
        self.connections.push(Connection::new(alloc, number, name))?;
        match self.names.insert(name, number) {
            Ok(_) => {
                self.joined += 1;
                Ok(number)
            }
            Err(_) => {
                self.connections.pop();
                Err(GateError::Alloc)
            }
        }
    }

    /// A connection leaves. What waits for it is dropped.
    pub fn leave(&mut self, conn: u32) -> Result<(), GateError>
        ensures { IsAnswered result (leave_answer (connection_numbered self.old.connections conn)) self.old self.new
            (after_leave self.old conn) }
    {
        match leave_from(&mut self.connections, conn) {
            Ok(name) => {
                self.names.remove(&name);
                Ok(())
            }
            Err(NotHere) => Err(GateError::NoSuch),
        }
    }

    /// The frame that waited longest for a connection.
    pub fn take(&mut self, conn: u32) -> Result<Option<Bytes>, GateError>
        ensures { IsAnswered result (take_answer (connection_numbered self.old.connections conn)) self.old self.new
            (after_take self.old conn) }
    {
        match take_from(self.connections.as_mut_slice(), conn) {
            Ok(frame) => Ok(frame),
            Err(NotHere) => Err(GateError::NoSuch),
        }
    }

    /// Receives a piece of the stream of a connection; the frames that become whole are sent on. Returns how many these are.
    pub fn feed(&mut self, conn: u32, piece: &[u8]) -> Result<u32, GateError>
        requires { IfSome (connection_numbered self.old.connections conn)
            (λ connection. connection.incoming.done + length connection.incoming.kept + length piece.now < 2 ^ 64) }
        ensures { IsAnswered result (feed_answer (connection_numbered self.old.connections conn) piece.now) self.old self.new
            (after_feed self.old conn piece.now) }
    {
        let alloc = *self.connections.allocator();
        let connections = self.connections.as_mut_slice();
        match feed_to(alloc, connections, &self.names, conn, piece) {
            Ok(count) => Ok(count),
            Err(error) => Err(error),
        }
    }

    /// How many connections joined so far.
    pub fn joined(&self) -> u64
        ensures { result ≡ self.now.joined }
    {
        self.joined
    }

    /// Whether a connection's stream stays shorter than 2^64 bytes with so many more; true if nobody has the number.
    pub fn has_room(&self, conn: u32, count: usize) -> bool
        ensures { IsTrue result → IfSome (connection_numbered self.now.connections conn)
            (λ connection. connection.incoming.done + length connection.incoming.kept + count < 2 ^ 64) }
    {
        room_for(self.connections.as_slice(), conn, count)
    }
}
