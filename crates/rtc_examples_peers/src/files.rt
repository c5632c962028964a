//! Files from one peer to another.
use crate::exchanging::{meet, pass};
use crate::numbers::number;
use crate::polled::Polled;
use crate::signals::Signals;
use crate::texts::Texts;
use crate::transfer::Transfer;
use crate::way::Way;
use crate::wire::Wire;
use rtc_wire::Span;
use rtc_wire_drops::release;
use std::alloc::{AllocError, Global};

// The rounds in which each file of a stored example is received.
const ROUNDS: usize = 1000;

// The file whose bytes are their places modulo 251.
fn make_file(alloc: Global, size: u32) -> Result<Vec<u8>, AllocError> {
    let mut file = Vec::new(alloc);
    for place in 0..size {
        file.push((place % 251) as u8)?;
    }
    Ok(file)
}

fn send_all<P: Polled>(left: &mut P, right: &mut P, wire: &mut Wire, transfer: &mut Transfer<'_>) {
    for _ in 0..ROUNDS {
        if !transfer.is_whole() {
            transfer.write_on(left);
            pass(left, right, wire, Span::from_secs(1));
            transfer.take(&mut wire.right);
        }
    }
}

// Whether two peers agree on a channel, over which a file is sent on a way, and neither fails.
fn carry<P: Signals + Polled>(
    alloc: Global,
    left: &mut P,
    right: &mut P,
    way: Way,
    transfer: &mut Transfer<'_>,
) -> bool {
    let mut wire = Wire::new(alloc, way);
    let mut texts = Texts::new(alloc);
    let met = meet(alloc, left, right, 1, &mut texts);
    send_all(left, right, &mut wire, transfer);
    met & wire.is_faultless()
}

/// Whether a file of a size is received whole on a way of a seed, by the four numbers of a line.
pub fn does_come_over<P: Signals + Polled>(
    alloc: Global,
    left: &mut P,
    right: &mut P,
    case: &str,
) -> Result<bool, AllocError> {
    let mut words = case.split(' ');
    let size = number(words.next());
    let seed = number(words.next());
    let lost = number(words.next());
    let twice = number(words.next());
    let file = make_file(alloc, size)?;
    let mut transfer = Transfer::new(alloc, file.as_slice())?;
    let carried = carry(alloc, left, right, Way { seed, lost, twice }, &mut transfer);
    let whole = transfer.has(file.as_slice());
    release(transfer, Ok(carried & whole))
}
