//! Calls on a connection by its number.
ghost use Rattle.std.specs.Prelude.{
  ◌≡◌,
  ℕ,
  ◌^◌,
  ◌+◌,
  ◌<◌,
  IsTrue,
  IfSome,
  length,
  MatchResult,
  Some,
  None,
  map,
  filter,
  not,
  drop,
  slice_get,
  ◌==◌,
};
ghost use Rattle.std.specs.List.{remove};
ghost use Rattle.rtc_gate_calls.specs.GateState.{ConnectionState, connection_numbered, without_first};
ghost use Rattle.rtc_gate_calls.specs.Gate.{AreNumbered};
ghost use Rattle.rtc_gate_calls.specs.Delivering.{connection_changed_at, IsAt};

use crate::connection::Connection;
use crate::places::place_of;
use rtc_wire::Bytes;
use rtc_wire_text::ShortToken;

/// No connection that is here has the number.
pub struct NotHere;

// The frame that waited longest for the connection at a place.
fn next_at(connections: &mut [Connection], place: usize) -> Option<Bytes>
    requires { place < length connections.old }
    ensures left { (number : ℕ) → IsAt connections.old place number → connections.new ≡ map (without_first number) connections.old }
    ensures frame { (connection : ConnectionState) → slice_get connections.old place ≡ Some connection → result
        ≡ slice_get connection.queue 0 }
{
    let connection = &mut connections[place];
    connection.next()
}

/// The frame that waited longest for a connection.
pub fn take_from(connections: &mut [Connection], conn: u32) -> Result<Option<Bytes>, NotHere>
    requires { AreNumbered 0 connections.old (2 ^ 32) }
    ensures answer { MatchResult result (λ frame. (connection : ConnectionState) → connection_numbered connections.old conn
        ≡ Some connection → frame ≡ slice_get connection.queue 0) (λ _. connection_numbered connections.old conn ≡ None) }
    ensures here { MatchResult result (λ _. (connection : ConnectionState)
        × (connection_numbered connections.old conn ≡ Some connection)) (λ _. connection_numbered connections.old conn ≡ None) }
    ensures left { connections.new ≡ map (without_first conn) connections.old }
{
    let Some(place) = place_of(connections, conn) else {
        return Err(NotHere);
    };
    Ok(next_at(connections, place))
}

// Takes the connection at a place out, and returns its name.
#[tactic(auto, using(crate::proofs::ConnectionLemmas::got))]
fn take_out(connections: &mut Vec<Connection>, place: usize) -> ShortToken
    requires { place < length connections.old.items }
    ensures name { (connection : ConnectionState) → slice_get connections.old.items place ≡ Some connection → result ≡ connection.name }
    ensures left { connections.new.items ≡ remove connections.old.items place }
{
    let connection = connections.remove(place);
    connection.name()
}

/// Drops a connection, and returns its name.
pub fn leave_from(connections: &mut Vec<Connection>, conn: u32) -> Result<ShortToken, NotHere>
    requires { AreNumbered 0 connections.old.items (2 ^ 32) }
    ensures name { MatchResult result (λ name. (connection : ConnectionState)
        × (connection_numbered connections.old.items conn ≡ Some connection)
        × (connection.name ≡ name)) (λ _. connection_numbered connections.old.items conn ≡ None) }
    ensures left { connections.new.items ≡ filter (λ connection. not (connection.number == conn)) connections.old.items }
{
    let Some(place) = place_of(connections.as_slice(), conn) else {
        return Err(NotHere);
    };
    let name = take_out(connections, place);
    Ok(name)
}

/// Whether the stream of a connection stays shorter than 2^64 bytes with so many more; true if nobody has the number.
pub fn room_for(connections: &[Connection], conn: u32, count: usize) -> bool
    requires { AreNumbered 0 connections.now (2 ^ 32) }
    ensures { IsTrue result → IfSome (connection_numbered connections.now conn)
        (λ connection. connection.incoming.done + length connection.incoming.kept + count < 2 ^ 64) }
{
    let Some(place) = place_of(connections, conn) else {
        return true;
    };
    let connection = &connections[place];
    let left = u64::MAX - connection.done();
    let kept = connection.kept().len() as u64;
    kept <= left && count as u64 <= left - kept
}
