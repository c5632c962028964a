//! A piece of a connection's stream.
ghost use Rattle.std.specs.Prelude.{◌≡◌, ◌+◌, ◌<◌, ◌^◌, IsSomeAnd, IfSome, Some, IfOk, OnOk, OnErr, ◌≤◌, false, slice_get, length, map};
ghost use Rattle.rtc_gate_calls.specs.GateState.{
  ConnectionState,
  IsAnswered,
  fed_answer,
  resumed,
  arriving,
  letters_of,
  roster_of,
  after_mail,
  connection_numbered,
  feed_answer,
  fed_connections,
};
ghost use Rattle.rtc_gate_calls.specs.Gate.{AreNumbered, IsIndex};
ghost use Rattle.rtc_gate_calls.specs.Delivering.{CanRoute, HasRoom, Sorts, IsAt, connection_changed_at, with_piece, cut_to, advanced};

use crate::GateError;
use crate::connection::Connection;
use crate::delivering::deliver;
use crate::places::place_of;
use crate::posting::Sender;
use crate::sorting::{Sorted, sort};
use rtc_wire_text::ShortToken;
use std::alloc::{AllocError, Global};
use std::collections::BTreeMap;

// Sorts what is kept of the sender's stream.
fn sort_kept(
    alloc: Global,
    connections: &[Connection],
    names: &BTreeMap<ShortToken, u32>,
    sender: &Sender,
) -> Result<Sorted, AllocError>
    requires { CanRoute connections.now names.now sender.now }
    ensures { (connection : ConnectionState) → slice_get connections.now sender.now.place ≡ Some connection
        → IfOk result (λ sorted. Sorts connections.now sender.now connection.incoming.kept sorted) }
{
    let bytes = connections[sender.place].kept();
    sort(alloc, connections, names, sender, bytes)
}

// Keeps a piece of the sender's stream.
fn keep_at(connections: &mut [Connection], sender: &Sender, piece: &[u8]) -> Result<(), AllocError>
    requires { IsAt connections.old sender.now.place sender.now.number }
    ensures ok { OnOk result (connections.new ≡ map (connection_changed_at sender.now.number (with_piece piece.now)) connections.old) }
    ensures err { OnErr result (connections.new ≡ connections.old) }
{
    let connection = &mut connections[sender.place];
    connection.keep(piece)?;
    Ok(())
}

// Cuts what is kept of the sender's stream.
fn cut_at(connections: &mut [Connection], sender: &Sender, count: usize)
    requires { IsAt connections.old sender.now.place sender.now.number }
    ensures { connections.new ≡ map (connection_changed_at sender.now.number (cut_to count)) connections.old }
{
    let connection = &mut connections[sender.place];
    connection.forget(count);
}

// Lets the whole frames of the sender's stream go.
fn advance_at(connections: &mut [Connection], sender: &Sender, size: usize, stuck: bool)
    requires there { IsAt connections.old sender.now.place sender.now.number }
    requires fits { IsSomeAnd (slice_get connections.old sender.now.place) (λ connection. (size ≤ length connection.incoming.kept)
        × (connection.incoming.done + size < 2 ^ 64)) }
    ensures { connections.new ≡ map (connection_changed_at sender.now.number (advanced size stuck)) connections.old }
{
    let connection = &mut connections[sender.place];
    connection.advance(size, stuck);
}

// Feeds a connection whose stream is not stuck.
fn feed_more(
    alloc: Global,
    connections: &mut [Connection],
    names: &BTreeMap<ShortToken, u32>,
    sender: &Sender,
    piece: &[u8],
) -> Result<u32, GateError>
    requires can { CanRoute connections.old names.now sender.now }
    requires room { HasRoom connections.old sender.now piece.now }
    ensures { (connection : ConnectionState) → slice_get connections.old sender.now.place ≡ Some connection
        → connection.incoming.stuck ≡ false
        → IsAnswered result (fed_answer (resumed connection.incoming piece.now)
        (arriving connection.incoming piece.now)) connections.old connections.new (map
        (after_mail connection.number piece.now (letters_of (roster_of connections.old) connection piece.now)) connections.old) }
{
    let kept = connections[sender.place].kept().len();
    let done = connections[sender.place].done();
    keep_at(connections, sender, piece)?;
    let Ok(sorted) = sort_kept(alloc, connections, names, sender) else {
        cut_at(connections, sender, kept);
        return Err(GateError::Alloc);
    };
    let count = sorted.deliveries.len() as u32;
    let size = sorted.size;
    let stuck = sorted.stuck;
    deliver(connections, sorted.deliveries);
    advance_at(connections, sender, size, stuck);
    if stuck {
        Err(GateError::BadFrame {
            at: done + size as u64,
        })
    } else {
        Ok(count)
    }
}

/// Feeds the connection that has a number.
pub fn feed_to(
    alloc: Global,
    connections: &mut [Connection],
    names: &BTreeMap<ShortToken, u32>,
    conn: u32,
    piece: &[u8],
) -> Result<u32, GateError>
    requires numbered { AreNumbered 0 connections.old (2 ^ 32) }
    requires index { IsIndex names.now (roster_of connections.old) }
    requires room { IfSome (connection_numbered connections.old conn)
        (λ connection. connection.incoming.done + length connection.incoming.kept + length piece.now < 2 ^ 64) }
    ensures { IsAnswered result (feed_answer (connection_numbered connections.old conn) piece.now) connections.old connections.new
        (fed_connections (connection_numbered connections.old conn) connections.old piece.now) }
{
    let Some(place) = place_of(connections, conn) else {
        return Err(GateError::NoSuch);
    };
    let connection = &connections[place];
    if connection.is_stuck() {
        return Err(GateError::BadFrame {
            at: connection.done(),
        });
    }
    let sender = Sender {
        place,
        number: conn,
        name: connection.name(),
    };
    feed_more(alloc, connections, names, &sender, piece)
}
