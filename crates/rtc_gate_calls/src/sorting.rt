//! A stream, split into frames that are on their way.
ghost use Rattle.std.specs.Prelude.{◌≡◌, ◌<◌, ◌^◌, IfOk, length};
ghost use Rattle.rtc_gate_calls.specs.Delivering.{CanRoute, Sorts};

use crate::connection::Connection;
use crate::delivering::Delivery;
use crate::posting::{Sender, route};
use crate::{StreamFront, read_front};
use rtc_wire_text::ShortToken;
use std::alloc::{AllocError, Global};
use std::collections::{BTreeMap, VecDeque};

// A call that would send out more frames than a u32 counts lacks memory.
const FRAME_LIMIT: usize = 4294967294;

/// A stream, split: the frames that go out for those at its front, how many bytes these have, and whether it is stuck behind them.
#[derive(Drop)]
pub struct Sorted {
    pub deliveries: VecDeque<Delivery>,
    pub size: usize,
    pub stuck: bool,
}

/// Splits the bytes of a sender. The work is linear in them.
pub fn sort(
    alloc: Global,
    connections: &[Connection],
    names: &BTreeMap<ShortToken, u32>,
    sender: &Sender,
    bytes: &[u8],
) -> Result<Sorted, AllocError>
    requires { CanRoute connections.now names.now sender.now }
    ensures { IfOk result (λ sorted. Sorts connections.now sender.now bytes.now sorted) }
{
    let mut deliveries = VecDeque::new(alloc);
    let mut at = 0;
    'frames: loop {
        match read_front(&bytes[at..]) {
            StreamFront::Unfinished => {
                return Ok(Sorted {
                    deliveries,
                    size: at,
                    stuck: false,
                });
            }
            StreamFront::Malformed => {
                return Ok(Sorted {
                    deliveries,
                    size: at,
                    stuck: true,
                });
            }
            StreamFront::Arrived(frame, size) => {
                if deliveries.len() >= FRAME_LIMIT {
                    return Err(AllocError);
                }
                let delivery = route(alloc, connections, names, sender, &frame)?;
                deliveries.push_back(delivery)?;
                at += size;
            }
        }
    }
}
