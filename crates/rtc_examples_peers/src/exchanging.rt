//! Two peers that agree on channels, and the datagrams between them.
use crate::outputs::Outputs;
use crate::polled::Polled;
use crate::signals::Signals;
use crate::texts::Texts;
use crate::way::Way;
use crate::wire::Wire;
use rtc_wire::{Moment, Span, Transmit};
use std::alloc::Global;

/// Polls a peer up to a timeout or an error.
pub fn drain<P: Polled>(peer: &mut P, outputs: &mut Outputs) {
    for _ in 0..u32::MAX {
        if !peer.give_next(outputs) {
            return;
        }
    }
}

// A datagram is received so often, and the peer is polled after each.
fn arrive<P: Polled>(
    peer: &mut P,
    now: Moment,
    transmit: &Transmit,
    arrivals: u32,
    outputs: &mut Outputs,
) {
    for _ in 0..arrivals {
        peer.hear(now, Some(transmit), outputs);
        drain(peer, outputs);
    }
}

// Gives a peer what arrives of the datagrams that the other one sent.
fn hear<P: Polled>(
    peer: &mut P,
    now: Moment,
    way: &mut Way,
    sent: &[Transmit],
    outputs: &mut Outputs,
) {
    for transmit in sent {
        arrive(peer, now, transmit, way.arrivals(), outputs);
    }
}

/// Polls both peers, and passes on what arrives of their datagrams, until neither has one to send.
pub fn settle<P: Polled>(left: &mut P, right: &mut P, wire: &mut Wire) {
    drain(left, &mut wire.left);
    drain(right, &mut wire.right);
    for _ in 0..u32::MAX {
        if wire.left.sent.is_empty() && wire.right.sent.is_empty() {
            return;
        }
        hear(
            right,
            wire.now,
            &mut wire.way,
            wire.left.sent.as_slice(),
            &mut wire.right,
        );
        wire.left.sent.clear();
        hear(
            left,
            wire.now,
            &mut wire.way,
            wire.right.sent.as_slice(),
            &mut wire.left,
        );
        wire.right.sent.clear();
    }
}

/// Time passes, both peers are given the moment, and their datagrams go on.
pub fn pass<P: Polled>(left: &mut P, right: &mut P, wire: &mut Wire, span: Span) {
    wire.now = wire.now.plus(span);
    left.hear(wire.now, None, &mut wire.left);
    right.hear(wire.now, None, &mut wire.right);
    settle(left, right, wire);
}

/// Gives two peers the addresses of the hosts 1 and 2, and has them agree on so many channels without a label. It returns whether they do.
pub fn meet<P: Signals>(
    alloc: Global,
    left: &mut P,
    right: &mut P,
    channels: u32,
    texts: &mut Texts,
) -> bool {
    let near = left.add_host(alloc, 1);
    let far = right.add_host(alloc, 2);
    near & far & left.agree(right, alloc, channels, texts)
}
