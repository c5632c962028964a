//! What settings change at a peer; two peers that connect without session descriptions.
use crate::ask::Ask;
use crate::connected::exchange;
use crate::counting::has_lines;
use crate::direct::Direct;
use crate::direct_examples::{channel, creds, introduction};
use crate::exchanging::drain;
use crate::hosts::{candidate, host};
use crate::layers::Layers;
use crate::outputs::Outputs;
use crate::polled::Polled;
use crate::signals::Signals;
use crate::way::Way;
use crate::wire::Wire;
use rtc_examples_cases::{every, is_true};
use rtc_wire::{Bytes, ChannelId, DatagramSend, Moment, Protocol, Span, Transmit};
use rtc_wire_drops::release;
use std::alloc::{AllocError, Global};

// The header extension for mids (RFC 8843, section 15.1), and credentials that are set.
const MIDS: &str = "a=extmap:4 urn:ietf:params:rtp-hdrext:sdes:mid";

const CREDENTIALS: &str = "a=ice-ufrag:own";

// The first bytes of an RTP packet (RFC 7983, section 7).
const PACKET: [u8; 3] = [0x80, 0x60, 0];

// The third numbers that the peers draw, of which their certificates are.
const LEFT_CERTIFICATE: u64 = 3;

const RIGHT_CERTIFICATE: u64 = 1_000_003;

// Whether a peer with a candidate of each side sends its check again after so many milliseconds.
fn checks_after<P: Signals + Polled + Direct>(
    alloc: Global,
    peer: &mut P,
    millis: u64,
) -> Result<bool, AllocError> {
    let near = peer.add_host(alloc, 1);
    let other = creds(alloc, "other", "otherpassword")?;
    let there = candidate(alloc, 2)?;
    let far = peer.learns(other, there);
    let mut outputs = Outputs::new(alloc);
    let heard = peer.hear(Moment::FAR_PAST, None, &mut outputs);
    drain(peer, &mut outputs);
    let again = outputs.timeout == Moment::FAR_PAST.plus(Span::from_millis(millis));
    Ok(release(outputs, every(&[near, far, heard, again])))
}

// Whether a received RTP packet is reported, and with its bytes besides or not.
fn reports<P: Polled>(alloc: Global, peer: &mut P, raws: usize) -> Result<bool, AllocError> {
    let bytes = Vec::from_slice(alloc, &PACKET)?;
    let transmit = Transmit {
        proto: Protocol::Udp,
        source: host(2),
        destination: host(1),
        contents: DatagramSend::new(Bytes::new(bytes)),
    };
    let mut outputs = Outputs::new(alloc);
    let heard = peer.hear(Moment::FAR_PAST, Some(&transmit), &mut outputs);
    drain(peer, &mut outputs);
    let reported = outputs.media.saturating_sub(outputs.raws) == 1;
    Ok(heard & reported & (outputs.raws == raws))
}

// Whether the offer of a media line has a text line as often as is expected.
fn offers<P: Signals>(
    alloc: Global,
    peer: &mut P,
    line: &str,
    count: usize,
) -> Result<bool, AllocError> {
    let text = peer.offer_line(alloc, Layers::Three)?;
    has_lines(alloc, text.as_str(), line, count)
}

// Begins to connect to a host, whose certificate is of a number, with a channel negotiated for the stream 0.
fn begin<P: Direct>(
    alloc: Global,
    peer: &mut P,
    names: (&str, &str),
    certificate: u64,
    number: u8,
) -> Result<bool, AllocError> {
    let active = number == 2;
    match introduction(alloc, names, &certificate.to_be_bytes(), number)? {
        Some(given) => Ok(peer.begins(given, active, channel(alloc, Some(0)))),
        None => Ok(false),
    }
}

fn begin_both<P: Signals + Direct>(
    alloc: Global,
    left: &mut P,
    right: &mut P,
) -> Result<bool, AllocError> {
    let hosts = left.add_host(alloc, 1) & right.add_host(alloc, 2);
    let near = begin(alloc, left, ("left", "right"), RIGHT_CERTIFICATE, 2)?;
    let far = begin(alloc, right, ("right", "left"), LEFT_CERTIFICATE, 1)?;
    Ok(every(&[hosts, near, far]))
}

fn is_hi(messages: &[Bytes]) -> bool {
    match messages {
        [message] => message.as_slice() == b"hi".as_slice(),
        _ => false,
    }
}

// Whether two peers that know each other connect, exchange a message over a negotiated channel, and each report its close once.
fn connect<P: Signals + Polled + Direct>(alloc: Global, left: &mut P, right: &mut P) -> bool {
    let begun = is_true(begin_both(alloc, left, right));
    let mut wire = Wire::new(alloc, Way::plain());
    exchange(left, right, &mut wire);
    let connected = left.holds(Ask::IsConnected) & right.holds(Ask::IsConnected);
    let written = left.write(ChannelId::new(0), false, b"hi");
    exchange(left, right, &mut wire);
    let heard = is_hi(wire.right.messages.as_slice()) & (wire.right.texts == 1);
    let closed = left.closes_channel();
    exchange(left, right, &mut wire);
    let reported = (wire.left.closed == 1) & (wire.right.closed == 1);
    let faultless = wire.is_faultless();
    every(&[
        begun, connected, written, heard, closed, reported, faultless,
    ])
}

/// Whether the left peer, whose configuration has the setting of an example, and the right one, which has the default one, do what is
/// expected.
pub fn does_agree<P: Signals + Polled + Direct>(
    alloc: Global,
    left: &mut P,
    right: &mut P,
    example: &str,
) -> bool {
    match example {
        "connect without descriptions" => connect(alloc, left, right),
        "of check times" => {
            is_true(checks_after(alloc, left, 100)) & is_true(checks_after(alloc, right, 250))
        }
        "of credentials" => {
            is_true(offers(alloc, left, CREDENTIALS, 1))
                & is_true(offers(alloc, right, CREDENTIALS, 0))
        }
        "of header extensions" => {
            is_true(offers(alloc, left, MIDS, 0)) & is_true(offers(alloc, right, MIDS, 1))
        }
        "of raw packets" => { is_true(reports(alloc, left, 1)) & is_true(reports(alloc, right, 0)) }
        _ => false,
    }
}
