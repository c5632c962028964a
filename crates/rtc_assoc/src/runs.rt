//! Steps of two ends, one after the other.
ghost use Rattle.std.specs.Prelude.{◌≡◌, ◌<◌, ◌≤◌, ◌^◌, ◌++◌, ◌∷◌, [], length, IfOk, OnOk, true, false};
ghost use Rattle.rtc_assoc_state.specs.Contents.{fresh_contents};
ghost use Rattle.rtc_assoc.specs.Steps.{RunsEnds};
ghost use Rattle.rtc_assoc.specs.Law.{OneWay, TellsEvents};

use crate::assoc_reply::AssocReply;
use crate::assoc_step::AssocStep;
use crate::world::perform;
use rtc_assoc_end::PlainAssociation;
use rtc_parts::Association;
use rtc_wire::LOCAL_MAX_MESSAGE_SIZE;
use std::alloc::{AllocError, Global};

fn add(replies: &mut Vec<AssocReply>, reply: AssocReply) -> Result<(), AllocError>
    ensures { OnOk result (replies.new.items ≡ replies.old.items ++ reply ∷ []) }
{
    replies.push(reply)?;
    Ok(())
}

/// Takes steps at two fresh ends, whose packets have at most `max_payload` bytes, and returns a reply for each.
///
/// The reply is `NoSuch`, and nothing is done, in three cases: a start of an end that is started; every other step at
/// one that is not; and the delivery of a packet that the other end did not transmit. A step that runs out of memory
/// ends the run.
pub fn run_assoc(
    alloc: Global,
    max_payload: usize,
    steps: &[AssocStep],
    left: &mut PlainAssociation,
    right: &mut PlainAssociation,
) -> Result<Vec<AssocReply>, AllocError>
    requires least { 29 ≤ max_payload }
    requires most { max_payload ≤ 1900 }
    requires few { length steps.now < 2 ^ 32 }
    requires fresh_left { left.old ≡ fresh_contents }
    requires fresh_right { right.old ≡ fresh_contents }
    ensures runs { IfOk result (λ replies. RunsEnds max_payload steps.now replies.items left.new right.new) }
    ensures from_left { IfOk result (λ replies. OneWay steps.now replies.items true left.new right.new) }
    ensures from_right { IfOk result (λ replies. OneWay steps.now replies.items false right.new left.new) }
    ensures told_left { IfOk result (λ replies. TellsEvents steps.now replies.items true left.new) }
    ensures told_right { IfOk result (λ replies. TellsEvents steps.now replies.items false right.new) }
{
    left.set_limits(max_payload, LOCAL_MAX_MESSAGE_SIZE);
    right.set_limits(max_payload, LOCAL_MAX_MESSAGE_SIZE);
    let mut packets = Vec::new(alloc);
    let mut replies = Vec::new(alloc);
    for step in steps {
        let reply = perform(step, left, right, &mut packets)?;
        add(&mut replies, reply)?;
    }
    Ok(replies)
}
