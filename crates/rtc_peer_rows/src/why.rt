//! Why an offer, an answer or a certificate is refused.
ghost use Rattle.std.specs.Prelude.{Some};
ghost use Rattle.rtc_peer_rows.specs.WhyText as text;

use crate::NewLine;
use rtc_sdp_values::{Fingerprint, IceCreds, Mid};
use rtc_wire::Text;
use std::error::Error;
use std::fmt;

/// Why an offer, an answer or a certificate of the other side is refused.
#[derive(Debug, PartialEq, Eq)]
pub enum Why {
    /// An offer without m-lines.
    NoLines,
    /// Both sides are ICE-lite (RFC 8445, section 2.5), so that nobody would make checks.
    BothLite,
    /// Neither the session nor a line has ICE credentials.
    NoCredentials,
    /// An answer has other credentials than are known, and its offer did not restart ICE.
    UnaskedRestart {
        kept: IceCreds,
        got: IceCreds,
    },
    /// No fingerprint is known, and there is none. The peer is then closed.
    NoFingerprint,
    /// The association was started with an `a=sctp-init` of the other side, and this one is another.
    SctpInitChanged {
        kept: Text,
        got: Text,
    },
    /// The association was started with an `a=sctp-init` of the other side, and now there is none.
    SctpInitMissing {
        kept: Text,
    },
    /// A line is at another place than its row, or of a kind that its row or its place does not allow.
    MovedLine(Mid),
    /// A new line of an offer is at the place of a live row.
    PlaceTaken(Mid),
    /// A new line of an answer is at the place of a row (RFC 8829, section 5.2.2).
    AnswerRecycles(Mid),
    WrongNewLines(NewLine),
    /// The hash of the certificate is not the announced one (RFC 8122, section 6.2). The peer is then closed.
    NoMatch {
        expected: Fingerprint,
        got: Fingerprint,
    },
    /// The announced hash function of this name is neither `sha-256` nor `sha-1`. The peer is then closed.
    UnknownHash(Text),
    /// A certificate was received, and no fingerprint was announced. The peer is then closed.
    NoneAnnounced,
}

// Written out, so that the proof of what owns a cause sees one call and not the drop of each variant.
impl Drop for Why {
    fn drop(self) {
        match self {
            Why::NoLines => {}
            Why::BothLite => {}
            Why::NoCredentials => {}
            Why::UnaskedRestart {
                kept: _kept,
                got: _got,
            } => {}
            Why::NoFingerprint => {}
            Why::SctpInitChanged {
                kept: _kept,
                got: _got,
            } => {}
            Why::SctpInitMissing { kept: _kept } => {}
            Why::MovedLine(_mid) => {}
            Why::PlaceTaken(_mid) => {}
            Why::AnswerRecycles(_mid) => {}
            Why::WrongNewLines(_new_line) => {}
            Why::NoMatch {
                expected: _expected,
                got: _got,
            } => {}
            Why::UnknownHash(_text) => {}
            Why::NoneAnnounced => {}
        }
    }
}

impl fmt::Display for Why {
    ghost output = { λ why. Some (text.why_text why) };

    #[tactic(auto, unfolding(crate::specs::WhyText::why_text))]
    fn fmt<W: fmt::Write>(&self, f: &mut fmt::Formatter<W>) -> fmt::Result {
        match self {
            Why::NoLines => f.write_str("No m-lines in offer"),
            Why::BothLite => f.write_str("Both peers being ICE-Lite not supported"),
            Why::NoCredentials => f.write_str("missing a=ice-ufrag/pwd"),
            Why::UnaskedRestart { .. } => {
                f.write_str("Ice restart in answer without one in the preceeding offer")
            }
            Why::NoFingerprint => f.write_str("missing a=fingerprint"),
            Why::SctpInitChanged { .. } => {
                f.write_str("Changed a=sctp-init for existing SCTP association")
            }
            Why::SctpInitMissing { .. } => {
                f.write_str("Missing a=sctp-init for established SNAP SCTP association")
            }
            Why::MovedLine(mid) | Why::PlaceTaken(mid) => {
                let mid = mid.as_str();
                write!(f, "Changed order for m-line with mid: {mid}")
            }
            Why::AnswerRecycles(mid) => {
                let mid = mid.as_str();
                write!(
                    f,
                    "Answer recycles stopped m-line (not permitted per RFC 8829 §5.2.2): {mid}"
                )
            }
            Why::WrongNewLines(wrong) => write!(f, "{wrong}"),
            Why::NoMatch { .. } => f.write_str("remote fingerprint no match"),
            Why::UnknownHash(name) => {
                let name = name.as_str();
                write!(f, "unsupported fingerprint hash function: {name}")
            }
            Why::NoneAnnounced => f.write_str("no a=fingerprint before dtls"),
        }
    }
}

impl Error for Why {}
