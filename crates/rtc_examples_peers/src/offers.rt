//! What a peer offers.
use crate::counting::has_lines;
use crate::layers::Layers;
use crate::signals::Signals;
use crate::texts::Texts;
use rtc_examples_cases::is_true;
use std::alloc::{AllocError, Global};

// The offer of a peer whose numbers count up from 1, with the certificate "abc" (its hash is in FIPS 180-2, appendix
// B.1), one host candidate, and an m-line of data channels.
const CHANNEL_OFFER: &str = "v=0\r\n\
    o=str0m 1 2 IN IP4 0.0.0.0\r\n\
    s=-\r\n\
    t=0 0\r\n\
    a=group:BUNDLE m3\r\n\
    a=extmap-allow-mixed\r\n\
    a=msid-semantic: WMS\r\n\
    m=application 9 UDP/DTLS/SCTP webrtc-datachannel\r\n\
    c=IN IP4 0.0.0.0\r\n\
    a=candidate:1 1 udp 2130706431 1.1.1.1 1000 typ host\r\n\
    a=ice-ufrag:u0000000000000002\r\n\
    a=ice-pwd:00000000000000020000000000000002\r\n\
    a=ice-options:trickle\r\n\
    a=fingerprint:sha-256 BA:78:16:BF:8F:01:CF:EA:41:41:40:DE:5D:AE:22:23:B0:03:61:A3:96:17:7A:9C:B4:10:FF:61:F2:00:15:AD\r\n\
    a=setup:actpass\r\n\
    a=mid:m3\r\n\
    a=sctp-port:5000\r\n\
    a=max-message-size:262144\r\n";

// Whether a text has a line once, and carries so many SSRCs with their RTX SSRCs.
fn tells(alloc: Global, text: Result<String, AllocError>, wanted: &str, sources: usize) -> bool {
    match text {
        Ok(text) => {
            let once = is_true(has_lines(alloc, text.as_str(), wanted, 1));
            once & is_true(has_lines(alloc, text.as_str(), "a=ssrc-group:FID", sources))
        }
        Err(_) => false,
    }
}

// Whether the offer of a first channel is written as it is to be.
fn is_channel_offered<P: Signals>(
    alloc: Global,
    left: &mut P,
    right: &mut P,
    expected: &str,
) -> bool {
    let mut texts = Texts::new(alloc);
    let near = left.add_host(alloc, 1);
    let agreed = left.agree(right, alloc, 1, &mut texts);
    near & agreed & (texts.offer.as_str() == expected)
}

// Whether a text has so many lines that leave the role in DTLS to the other side (RFC 8842, section 5.2).
fn leaves_role(alloc: Global, text: &str, count: usize) -> bool {
    is_true(has_lines(alloc, text, "a=setup:actpass", count))
}

// Whether the offer of one more line leaves the role open again (RFC 8842, section 5.5).
fn leaves_later_role(alloc: Global, text: Result<String, AllocError>) -> bool {
    match text {
        Ok(text) => leaves_role(alloc, text.as_str(), 2),
        Err(_) => false,
    }
}

// Whether an offer leaves the role to the other side, whose answer takes one (RFC 8842, section 5.3), and a later one leaves it again.
fn tell_roles<P: Signals>(alloc: Global, left: &mut P, right: &mut P) -> bool {
    let mut texts = Texts::new(alloc);
    let agreed = left.agree(right, alloc, 1, &mut texts);
    let left_open = leaves_role(alloc, texts.offer.as_str(), 1);
    let taken = is_true(has_lines(alloc, texts.answer.as_str(), "a=setup:passive", 1));
    let later = leaves_later_role(alloc, left.offer_line(alloc, Layers::Three));
    agreed & left_open & taken & later
}

// Whether the offer of a channel carries the chunk of the numbers 4 and 5 (draft-hancke-tsvwg-snap).
fn tells_start<P: Signals>(alloc: Global, left: &mut P, right: &mut P) -> bool {
    let mut texts = Texts::new(alloc);
    let agreed = left.agree(right, alloc, 1, &mut texts);
    let wanted = "a=sctp-init:AQAAFAAAAAQAEAAA/////wAAAAU=";
    agreed & is_true(has_lines(alloc, texts.offer.as_str(), wanted, 1))
}

/// Whether an example of offers gives what is expected.
pub fn does_agree<P: Signals>(alloc: Global, left: &mut P, right: &mut P, example: &str) -> bool {
    match example {
        "leave the role that an answer takes" => tell_roles(alloc, left, right),
        "of a channel are written" => is_channel_offered(alloc, left, right, CHANNEL_OFFER),
        "of layers have sources of their own" => {
            let text = left.offer_line(alloc, Layers::Three);
            tells(alloc, text, "a=rid:h send", 3)
        }
        "of layers have their pairs" => {
            let text = left.offer_line(alloc, Layers::Custom);
            tells(alloc, text, "a=rid:custom send foo=bar", 1)
        }
        "tell a start" => tells_start(alloc, left, right),
        _ => false,
    }
}
