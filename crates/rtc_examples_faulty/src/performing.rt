//! Runs over parts that fail.
ghost use Rattle.std.specs.Prelude.{◌<◌, ◌^◌};
ghost use Rattle.rtc_run_history.specs.Sizes.{steps_size};

use crate::part::Part;
use crate::ran::{Faults, Ran};
use rtc_plain::PlainMediaEvent;
use rtc_run::PeerSettings;
use rtc_run_faulty::{FailingCalls, PartWatches, make_faulty_pair, run_faulty_pair};
use rtc_run_history::{Reply, Step};
use rtc_wire::Seq;
use rtc_wire_drops::release;
use std::alloc::{AllocError, Global};

// The calls at which the left peer's parts fail.
fn failing_calls(alloc: Global, part: Part, numbers: &[u64]) -> Result<FailingCalls, AllocError> {
    let listed = Seq::new(numbers.to_vec(alloc)?);
    let none = FailingCalls::none(alloc);
    Ok(match part {
        Part::Dtls => FailingCalls {
            dtls: listed,
            association: none.association,
            media: none.media,
        },
        Part::Association => FailingCalls {
            dtls: none.dtls,
            association: listed,
            media: none.media,
        },
        Part::Media => FailingCalls {
            dtls: none.dtls,
            association: none.association,
            media: listed,
        },
    })
}

// A peer as it is by default, but for its role on glare.
fn settings(polite: Option<bool>) -> PeerSettings {
    PeerSettings {
        lite: false,
        snap: false,
        max_buffered: 131_072,
        max_message_size: 262_144,
        stats_interval: None,
        polite,
    }
}

// What is seen of a run with these replies.
fn see(
    replies: Result<Vec<Reply<PlainMediaEvent>>, AllocError>,
    is_alive: bool,
    is_awake: bool,
    left: &PartWatches,
    right: &PartWatches,
) -> Result<Ran, AllocError> {
    let replies = replies?;
    Ok(Ran {
        replies,
        is_alive,
        is_awake,
        faults: Faults::seen(left),
        others: Faults::seen(right),
    })
}

/// Performs steps on a fresh pair whose left part fails at the calls of these numbers. If the left peer is given a role on glare, the right
/// one has the other role. This function alone names the parts.
pub fn perform(
    alloc: Global,
    polite: Option<bool>,
    part: Part,
    numbers: &[u64],
    steps: &[Step],
) -> Result<Ran, AllocError>
    requires { steps_size steps.now < 2 ^ 32 }
{
    let failing = failing_calls(alloc, part, numbers)?;
    let left = PartWatches::new(alloc)?;
    let right = PartWatches::new(alloc)?;
    let none = FailingCalls::none(alloc);
    let own = settings(polite);
    let other = settings(polite.map(|polite| !polite));
    let mut pair = make_faulty_pair(alloc, own, other, failing, none, &left, &right)?;
    let replies = run_faulty_pair(alloc, &mut pair, steps);
    let is_alive = pair.left().is_alive();
    let is_awake = pair.left().kept_timeout().is_none();
    release(pair, see(replies, is_alive, is_awake, &left, &right))
}
