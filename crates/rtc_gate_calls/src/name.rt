//! Names of connections.
ghost use Rattle.std.specs.Prelude.{◌≡◌};
ghost use Rattle.rtc_gate_calls.specs.Signal as spec;

use rtc_wire_text::ShortToken;
use std::str;

/// The name that bytes are: 1 to 32 token characters (RFC 8866, section 9).
pub fn name_in(bytes: &[u8]) -> Option<ShortToken>
    ensures { result ≡ spec.signal_name_in bytes.now }
{
    match str::from_utf8(bytes) {
        Ok(text) => ShortToken::read(text),
        Err(_) => None,
    }
}
