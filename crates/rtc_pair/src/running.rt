//! Scripts that are run on the pair of the program.
ghost use Rattle.std.specs.Prelude.{◌≡◌, ◌<◌, ◌^◌, IfOk, Ok};
ghost use Rattle.rtc_run_history.specs.Sizes.{steps_size};
ghost use Rattle.rtc_pair.specs.Performed.{peer_settings, RanScript, lack_memory};

use rtc_plain::PlainMediaEvent;
use rtc_run::{PeerSettings, PlainPair, make_pair, run_pair};
use rtc_run_history::{Reply, Side};
use rtc_script::Script;
use std::alloc::{AllocError, Global};

/// Whether a reply reports that memory ran out.
pub fn lack_memory(replies: &[Reply<PlainMediaEvent>]) -> bool
    ensures { result ≡ lack_memory replies.now }
{
    for reply in replies {
        if reply.is_out_of_memory() {
            return true;
        }
    }
    false
}

// What the settings of a script set a peer to.
fn settings_of(script: &Script, at: Side) -> PeerSettings
    ensures { result ≡ peer_settings at script.now.settings }
{
    let side = script.side_settings(at);
    PeerSettings {
        lite: side.lite,
        snap: side.snap,
        max_buffered: side.max_buffered,
        max_message_size: side.max_message_size,
        stats_interval: side.stats_interval,
        polite: side.polite,
    }
}

// Replies, with what the steps were performed on.
fn join_replies<P: Drop>(
    performed: P,
    replies: Result<Vec<Reply<PlainMediaEvent>>, AllocError>,
) -> Result<(P, Vec<Reply<PlainMediaEvent>>), AllocError>
    ensures { IfOk result (λ joined. (joined.0 ≡ performed) × (replies ≡ Ok joined.1)) }
{
    match replies {
        Ok(replies) => Ok((performed, replies)),
        Err(error) => Err(error),
    }
}

/// The pair of the program after the steps of a script, and their replies.
pub fn run_script(
    alloc: Global,
    script: &Script,
) -> Result<(PlainPair, Vec<Reply<PlainMediaEvent>>), AllocError>
    requires { steps_size script.now.steps < 2 ^ 32 }
    ensures { IfOk result (λ ran. RanScript alloc script.now ran.1.items ran.0) }
{
    let left_settings = settings_of(script, Side::Left);
    let right_settings = settings_of(script, Side::Right);
    let mut pair = make_pair(alloc, left_settings, right_settings)?;
    let replies = run_pair(alloc, &mut pair, script.steps.as_slice());
    join_replies(pair, replies)
}
