//! A network and a clock in memory.
use crate::outbox::Outbox;
use rtc::{Addr, Moment, PlainRtc, RtcError, Span, drive, receive};

/// An address on the network.
pub fn address(host: u8, port: u16) -> Addr {
    Addr {
        ip: [host, host, host, host],
        port,
    }
}

// Drives a peer, and again after each datagram that the other one sent.
fn run_peer(
    peer: &mut PlainRtc,
    now: Moment,
    out: &mut Outbox,
    other: &mut Outbox,
) -> Result<(), RtcError> {
    drive(peer, now, out)?;
    for datagram in other.sent.as_slice() {
        receive(peer, now, datagram)?;
        drive(peer, now, out)?;
    }
    other.sent.clear();
    Ok(())
}

/// Eight times 20 milliseconds pass. It returns the moment that it is then.
pub fn exchange(
    left: &mut PlainRtc,
    right: &mut PlainRtc,
    start: Moment,
    l: &mut Outbox,
    r: &mut Outbox,
) -> Result<Moment, RtcError> {
    let mut now = start;
    for _ in 0..8 {
        now = now.plus(Span::from_millis(20));
        run_peer(left, now, l, r)?;
        run_peer(right, now, r, l)?;
    }
    Ok(now)
}
