//! Why the association of a peer refuses.
ghost use Rattle.std.specs.Prelude.{Some};
ghost use Rattle.rtc_sctp_values.specs.SctpErrorText as text;

use std::error::Error;
use std::fmt;

/// Why the association of a peer is not started, not shut down or takes no message.
#[derive(Clone, Copy, Debug, PartialEq, Eq)]
pub enum ProtoError {
    /// It was started before.
    Started,
    /// SNAP data lacks the chunk of one end.
    SnapHalf,
    /// The message is longer than the other end takes; lengths in bytes.
    TooLong { len: usize, max: u32 },
    NoStream(u16),
    /// The device failed. Its count of faults rose.
    Fault,
}

impl fmt::Display for ProtoError {
    ghost output = { λ error. Some (text.proto_error_text error) };

    #[tactic(auto, unfolding(crate::specs::SctpErrorText::proto_error_text))]
    fn fmt<W: fmt::Write>(&self, f: &mut fmt::Formatter<W>) -> fmt::Result {
        match self {
            ProtoError::Started => f.write_str("SCTP already initialized"),
            ProtoError::SnapHalf => {
                f.write_str("SNAP requires both local and remote SCTP INIT chunks")
            }
            ProtoError::TooLong { len, max } => {
                write!(f, "message of {len} bytes is longer than {max}")
            }
            ProtoError::NoStream(id) => write!(f, "no stream {id}"),
            ProtoError::Fault => f.write_str("association error"),
        }
    }
}

impl Error for ProtoError {}
