//! What a datagram's reader asks of STUN.
ghost use Rattle.std.specs.Prelude.{◌≡◌, ℕ, List, Bool};
ghost use Rattle.rtc_wire.specs.StunReader.{answer_of};

use crate::StunError;

/// A reader of STUN messages, by which datagrams of the STUN kind are judged.
///
/// It is stated by a test on the bytes, `stun`, and keeps nothing.
pub trait StunReader {
    ghost stun: { List ℕ → Bool };

    /// Whether the bytes are a message that the reader takes.
    fn check(bytes: &[u8]) -> Result<(), StunError>
        ensures { result ≡ answer_of (stun bytes.now) };
}
