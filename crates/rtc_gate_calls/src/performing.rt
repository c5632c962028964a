//! A call that is a value, performed.
ghost use Rattle.std.specs.Prelude.{◌≡◌, IsTrue};
ghost use Rattle.rtc_gate_calls.specs.Replies as spec;

use crate::{Gate, GateCall, GateError, GateReply};
use rtc_wire::Bytes;

fn joined_reply(answer: Result<u32, GateError>) -> GateReply
    ensures { result ≡ spec.joined_reply answer }
{
    match answer {
        Ok(number) => GateReply::Joined(number),
        Err(error) => GateReply::Refused(error),
    }
}

fn left_reply(answer: Result<(), GateError>) -> GateReply
    ensures { result ≡ spec.left_reply answer }
{
    match answer {
        Ok(()) => GateReply::Left,
        Err(error) => GateReply::Refused(error),
    }
}

fn fed_reply(answer: Result<u32, GateError>) -> GateReply
    ensures { result ≡ spec.fed_reply answer }
{
    match answer {
        Ok(count) => GateReply::Fed(count),
        Err(error) => GateReply::Refused(error),
    }
}

fn took_reply(answer: Result<Option<Bytes>, GateError>) -> GateReply
    ensures { result ≡ spec.took_reply answer }
{
    match answer {
        Ok(frame) => GateReply::Took(frame),
        Err(error) => GateReply::Refused(error),
    }
}

/// Whether a gate can perform a call: fewer than 2^32 joined before, and the stream of a piece stays shorter than 2^64.
pub fn can_perform(gate: &Gate, call: &GateCall) -> bool
    ensures { IsTrue result → spec.IsPossible gate.now call.now }
{
    match call {
        GateCall::Join { name: _ } => gate.joined() <= u32::MAX as u64,
        GateCall::Feed { conn, piece } => gate.has_room(*conn, piece.as_slice().len()),
        GateCall::Leave { conn: _ } | GateCall::Take { conn: _ } => true,
    }
}

/// Performs a call.
pub fn perform(gate: &mut Gate, call: &GateCall) -> GateReply
    requires { spec.IsPossible gate.old call.now }
    ensures reply { spec.IsReplyTo gate.old call.now result }
    ensures left { gate.new ≡ spec.gate_behind gate.old call.now result }
{
    match call {
        GateCall::Join { name } => joined_reply(gate.join(name.as_str())),
        GateCall::Leave { conn } => left_reply(gate.leave(*conn)),
        GateCall::Feed { conn, piece } => fed_reply(gate.feed(*conn, piece.as_slice())),
        GateCall::Take { conn } => took_reply(gate.take(*conn)),
    }
}
