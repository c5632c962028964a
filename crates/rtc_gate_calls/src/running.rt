//! Calls in order.
ghost use Rattle.std.specs.Prelude.{◌≡◌, ◌<◌, ◌^◌, IfOk};
ghost use Rattle.rtc_gate_calls.specs.Histories.{RunsCalls, empty_gate};
ghost use Rattle.rtc_gate_calls.specs.Sizes.{calls_size};

use crate::{Gate, GateCall, GateReply, perform};
use rtc_wire::Seq;
use std::alloc::{AllocError, Global};

/// Performs calls in order on a gate that is empty, and gives the reply of each. It stops at the first in which memory runs out.
pub fn run_calls(
    alloc: Global,
    gate: &mut Gate,
    calls: &[GateCall],
) -> Result<Seq<GateReply>, AllocError>
    requires empty { gate.old ≡ empty_gate }
    requires sizes { calls_size calls.now < 2 ^ 32 }
    ensures { IfOk result (λ replies. RunsCalls calls.now replies gate.new) }
{
    let mut replies = Vec::new(alloc);
    for call in calls {
        let reply = perform(gate, call);
        if reply.is_out_of_memory() {
            return Err(AllocError);
        }
        replies.push(reply)?;
    }
    Ok(Seq::new(replies))
}
