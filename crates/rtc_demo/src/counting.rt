//! Counting over replies.
ghost use Rattle.std.specs.Prelude.{◌≡◌};
ghost use Rattle.rtc_demo.specs.DemoCounts as spec;

use crate::DemoCounts;
use crate::last_rows::last_counts;
use rtc_run_history::{Outcome, Reply, Side, Step};

fn tells_finished<E>(outcome: &Outcome<E>) -> bool
    ensures { result ≡ spec.tells_finished outcome.now }
{
    match outcome {
        Outcome::Negotiated { .. } => false,
        Outcome::Answered { .. } => false,
        Outcome::Finished => true,
        Outcome::Done => false,
        Outcome::Wrote { .. } => false,
        Outcome::Polled { .. } => false,
        Outcome::Refused(_) => false,
        Outcome::NoSuch => false,
        Outcome::Alloc => false,
    }
}

fn count_finished<E>(replies: &[Reply<E>]) -> usize
    ensures { result ≡ spec.count_finished replies.now }
{
    replies
        .iter()
        .filter(|reply| tells_finished(&reply.outcome))
        .count()
}

/// The counts of a demo of so many rounds, over its steps and the replies to them.
pub fn count_demo<E>(rounds: u32, steps: &[Step], replies: &[Reply<E>]) -> DemoCounts
    ensures { result ≡ spec.counts_in rounds steps.now replies.now }
{
    let left = last_counts(Side::Left, steps, replies);
    let right = last_counts(Side::Right, steps, replies);
    DemoCounts {
        rounds,
        finished: count_finished(replies),
        lines: left.lines,
        stopped: left.stopped,
        channels: left.channels + right.channels,
    }
}
