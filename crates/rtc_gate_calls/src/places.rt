//! Places of connections among those that are here.
ghost use Rattle.std.specs.Prelude.{◌≡◌, ◌≢◌, ◌<◌, ◌≤◌, ◌^◌, ℕ, IfSome, IfNone, IsSomeAnd, None, slice_get, length};
ghost use Rattle.rtc_gate_calls.specs.GateState.{connection_numbered};
ghost use Rattle.rtc_gate_calls.specs.Gate.{AreNumbered};

use crate::connection::Connection;

/// The place of the connection that has a number, among connections whose numbers rise.
pub fn place_of(connections: &[Connection], number: u32) -> Option<usize>
    requires { AreNumbered 0 connections.now (2 ^ 32) }
    ensures some { IfSome result (λ place. IsSomeAnd (slice_get connections.now place) (λ connection. connection.number ≡ number)) }
    ensures none { IfNone result (connection_numbered connections.now number ≡ None) }
{
    let mut low = 0;
    let mut high = connections.len();
    while low < high {
        let middle = low + (high - low) / 2;
        let there = connections[middle].number();
        if there == number {
            return Some(middle);
        }
        if there < number {
            low = middle + 1;
        } else {
            high = middle;
        }
    }
    None
}
