//! Kinds of frames.
ghost use Rattle.std.specs.Prelude.{◌≡◌};
ghost use Rattle.rtc_gate_calls.specs.Signal as spec;

/// What a frame is about.
#[derive(Clone, Copy, Debug, PartialEq, Eq)]
pub enum SignalKind {
    /// An offer: the text is a session description (RFC 3264, section 4).
    Offer,
    /// An answer to one.
    Answer,
    /// An ICE candidate, whose text the gateway does not read.
    Candidate,
    /// Sent back: no connection has the name.
    NobodyThere,
    /// Sent back: the text of the offer or answer is no session description.
    NotInGrammar,
}

impl SignalKind {
    /// The byte that says the kind in a frame.
    pub fn byte(self) -> u8
        ensures { result ≡ spec.kind_byte self }
    {
        match self {
            SignalKind::Offer => 1,
            SignalKind::Answer => 2,
            SignalKind::Candidate => 3,
            SignalKind::NobodyThere => 4,
            SignalKind::NotInGrammar => 5,
        }
    }

    /// The kind that a byte denotes in an incoming frame.
    pub fn incoming(byte: u8) -> Option<SignalKind>
        ensures { result ≡ spec.incoming_kind byte }
    {
        match byte {
            1 => Some(SignalKind::Offer),
            2 => Some(SignalKind::Answer),
            3 => Some(SignalKind::Candidate),
            _ => None,
        }
    }
}
