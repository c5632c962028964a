//! Runs over parts that fail.
ghost use Rattle.std.specs.Prelude.{◌≡◌, ◌<◌, ◌^◌, IfOk, OnErr};
ghost use Rattle.rtc_plain_ice.specs.Messages.{is_ice_message};
ghost use Rattle.rtc_run_laws.specs.Crossed.{CrossedOffersMeet};
ghost use Rattle.rtc_run_laws.specs.Drains.{AreUndriven, DrainsWithin};
ghost use Rattle.rtc_run_history.specs.DrawnInRuns.{AllPlain, DrawsUnused, HaveNoLines};
ghost use Rattle.rtc_run_history.specs.Fresh.{ArePeersFormed, IsFresh};
ghost use Rattle.rtc_run_history.specs.Runs.{Runs};
ghost use Rattle.rtc_run_history.specs.Signalled.{AllReadBack};
ghost use Rattle.rtc_run_history.specs.Sizes.{steps_size};
ghost use Rattle.rtc_run_faulty.specs.FaultyParts.{faulty_parts};
ghost use Rattle.rtc_run_faulty.specs.ListedFaults.{TellListedFaults};

use crate::FaultyPair;
use rtc_plain::PlainMediaEvent;
use rtc_run::run_pair;
use rtc_run_history::{Reply, Step};
use std::alloc::{AllocError, Global};

/// Performs steps in order over parts that fail at listed calls, as `run_pair` does over any parts, and gives a reply for each. An error
/// leaves both peers as they were.
///
/// A reply reports a fault of a DTLS part, an association or a media part only if a listed call of that part failed in its step. A drain
/// shows at most as many outputs as its peer weighs before it.
pub fn run_faulty_pair(
    alloc: Global,
    pair: &mut FaultyPair,
    steps: &[Step],
) -> Result<Vec<Reply<PlainMediaEvent>>, AllocError>
    requires fresh { IsFresh faulty_parts pair.old }
    requires sizes { steps_size steps.now < 2 ^ 32 }
    ensures runs { IfOk result (λ replies. Runs faulty_parts is_ice_message pair.old steps.now replies.items pair.new) }
    ensures faults { IfOk result (λ replies. (run : Runs faulty_parts is_ice_message pair.old steps.now replies.items pair.new)
        → TellListedFaults pair.old run.past pair.new run.went) }
    ensures read_back { ArePeersFormed faulty_parts pair.old → IfOk result (λ replies. AllReadBack pair.new.sdps) }
    ensures plain { ArePeersFormed faulty_parts pair.old → HaveNoLines faulty_parts pair.old
        → IfOk result (λ replies. (run : Runs faulty_parts is_ice_message pair.old steps.now replies.items pair.new)
        → DrawsUnused faulty_parts is_ice_message pair.old steps.now replies.items pair.new run → AllPlain pair.new.sdps) }
    ensures crossed { ArePeersFormed faulty_parts pair.old → CrossedOffersMeet faulty_parts is_ice_message pair.old }
    ensures drains { AreUndriven faulty_parts pair.old
        → IfOk result (λ replies. (run : Runs faulty_parts is_ice_message pair.old steps.now replies.items pair.new)
        → DrainsWithin faulty_parts is_ice_message pair.old run.past pair.new) }
    ensures untouched { OnErr result (pair.new ≡ pair.old) }
{
    run_pair(alloc, pair, steps)
}
