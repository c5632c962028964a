//! One step of two ends.
ghost use Rattle.std.specs.Prelude.{◌≡◌, ◌<◌, ◌≤◌, ◌+◌, ◌^◌, length, IfOk};
ghost use Rattle.rtc_assoc.specs.Steps.{at_left, PerformsAssocStep, Steps, world};

use crate::assoc_reply::AssocReply;
use crate::assoc_step::AssocStep;
use crate::calls::{
    accept, close_stream, connect, deliver, open, poll, read, time, transmit, write,
};
use crate::sent::Sent;
use rtc_assoc_end::PlainAssociation;
use std::alloc::AllocError;

// A step at an end.
fn act(
    step: &AssocStep,
    end: &mut PlainAssociation,
    packets: &mut Vec<Sent>,
) -> Result<AssocReply, AllocError>
    requires { length packets.old.items < 2 ^ 32 }
    ensures performs { IfOk result (λ reply. PerformsAssocStep step.now reply end.old end.new packets.old.items packets.new.items) }
    ensures few { length packets.new.items ≤ length packets.old.items + 1 }
{
    match step {
        AssocStep::Connect { .. } => Ok(connect(end)?),
        AssocStep::Accept { .. } => Ok(accept(end)?),
        AssocStep::Open { id, .. } => Ok(open(end, *id)?),
        AssocStep::Write { id, ppi, bytes, .. } => Ok(write(end, *id, *ppi, bytes.as_slice())?),
        AssocStep::CloseStream { id, .. } => Ok(close_stream(end, *id)?),
        AssocStep::Time { now, .. } => Ok(time(end, *now)?),
        AssocStep::Transmit { left } => Ok(transmit(end, *left, packets)?),
        AssocStep::Deliver { left, packet, now } => Ok(deliver(
            end,
            *left,
            *packet,
            *now,
            packets.as_slice(),
        )?),
        AssocStep::Poll { .. } => Ok(poll(end)),
        AssocStep::Read { id, .. } => Ok(read(end, *id)?),
    }
}

/// A step at the end that it names.
pub fn perform(
    step: &AssocStep,
    left: &mut PlainAssociation,
    right: &mut PlainAssociation,
    packets: &mut Vec<Sent>,
) -> Result<AssocReply, AllocError>
    requires { length packets.old.items < 2 ^ 32 }
    ensures steps { IfOk result (λ reply. Steps (at_left step.now) step.now reply
        (world left.old right.old packets.old.items) (world left.new right.new packets.new.items)) }
    ensures few { length packets.new.items ≤ length packets.old.items + 1 }
{
    if step.at_left() {
        let reply = act(step, left, packets)?;
        return Ok(reply);
    }
    let reply = act(step, right, packets)?;
    Ok(reply)
}
