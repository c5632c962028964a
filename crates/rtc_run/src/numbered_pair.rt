//! One pair of many.
ghost use Rattle.std.specs.Prelude.{◌≡◌, ◌<◌, IfOk};
ghost use Rattle.rtc_run_history.specs.Fresh.{ArePeersFormed, IsFresh};
ghost use Rattle.rtc_run.specs.NumberedPair.{IsNumberedPair, default_settings};
ghost use Rattle.rtc_run.specs.ProgramPair.{plain_parts};

use crate::plain_pair::{PlainPair, make_peer};
use crate::{Pair, PeerSettings};
use rtc_wire::{Addr, DEFAULT_MAX_BUFFERED_AMOUNT, LOCAL_MAX_MESSAGE_SIZE};
use std::alloc::{AllocError, Global};

fn default_settings() -> PeerSettings
    ensures { result ≡ default_settings }
{
    PeerSettings {
        lite: false,
        snap: false,
        max_buffered: DEFAULT_MAX_BUFFERED_AMOUNT,
        max_message_size: LOCAL_MAX_MESSAGE_SIZE,
        stats_interval: None,
        polite: None,
    }
}

/// The pair of a number, of which no setting was changed: two fresh peers at moment 0. The left peers of all numbers have one address, and
/// each right one has an address of its own. No two peers draw the same numbers.
pub fn make_numbered_pair(alloc: Global, number: u8) -> Result<PlainPair, AllocError>
    ensures state { IfOk result (λ pair. IsNumberedPair alloc number pair) }
    ensures fresh { IfOk result (λ pair. IsFresh plain_parts pair) }
    ensures formed { IfOk result (λ pair. ArePeersFormed plain_parts pair) }
{
    let first = 2_000_000 * number as u64;
    let left_addr = Addr {
        ip: [1, 1, 1, 1],
        port: 1000,
    };
    let right_addr = Addr {
        ip: [2, 2, 0, number],
        port: 2000,
    };
    let left = make_peer(alloc, default_settings(), "abc", first + 1, left_addr)?;
    let right = make_peer(
        alloc,
        default_settings(),
        "def",
        first + 1_000_001,
        right_addr,
    )?;
    Ok(Pair::new(alloc, left, right, left_addr, right_addr))
}
