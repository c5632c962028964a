//! Peers as they were built: their writers, and buffers with a threshold.
use crate::built::Built;
use crate::connected::exchange;
use crate::exchanging::meet;
use crate::layers::Layers;
use crate::polled::Polled;
use crate::signals::Signals;
use crate::texts::Texts;
use crate::way::Way;
use crate::wire::Wire;
use rtc_examples_cases::{every, gives, is_true};
use rtc_peer::Mid;
use rtc_wire_drops::release;
use std::alloc::{AllocError, Global};

// Whether a peer lends a writer for a media line that the other one offered.
fn lends_writer<P: Signals + Built>(
    alloc: Global,
    other: &mut P,
    peer: &mut P,
) -> Result<bool, AllocError> {
    let text = other.offer_line(alloc, Layers::Three)?;
    let reply = peer.answer(alloc, text.as_str());
    let lent = peer.lends_writer();
    Ok(release(reply, lent))
}

// Whether a buffer that has fallen to its threshold is reported once.
fn reports_low<P: Signals + Polled + Built>(alloc: Global, left: &mut P, right: &mut P) -> bool {
    let mut texts = Texts::new(alloc);
    let mut wire = Wire::new(alloc, Way::plain());
    let met = meet(alloc, left, right, 1, &mut texts);
    exchange(left, right, &mut wire);
    let buffered = left.buffers(&[5u8; 100], 10);
    exchange(left, right, &mut wire);
    let reported = (wire.left.lows == 1) & (wire.right.lows == 0);
    let faultless = wire.is_faultless();
    every(&[met, buffered, reported, faultless])
}

/// Whether two fresh peers, the left one with the setting of an example, do what is expected.
pub fn does_agree<P: Signals + Polled + Built>(
    alloc: Global,
    left: &mut P,
    right: &mut P,
    mid: Mid,
    example: &str,
) -> bool {
    match example {
        "by default" => left.is_as_built(6, mid),
        "in RTP mode" => {
            let packets = lends_writer(alloc, right, left);
            gives(packets, &false) & is_true(lends_writer(alloc, left, right))
        }
        "with a low buffer" => reports_low(alloc, left, right),
        _ => false,
    }
}
