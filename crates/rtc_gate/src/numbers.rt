//! Numbers of a line.
ghost use Rattle.std.specs.Prelude.{◌≡◌, ◌≢◌, ◌<◌, ◌^◌, ℕ, IfSome, IfNone};
ghost use Rattle.std.specs.Fmt.{decimal};

use rtc_wire_text::read_decimal;
use std::str;

/// The number below 2^32 that a word is the decimal of, without leading zeros.
pub fn read_number(word: &[u8]) -> Option<u32>
    ensures some { IfSome result (λ n. word.now ≡ decimal n) }
    ensures none { IfNone result ((n : ℕ) → n < 2 ^ 32 → word.now ≢ decimal n) }
{
    let Ok(text) = str::from_utf8(word) else {
        return None;
    };
    let n = read_decimal(text)?;
    if n <= u32::MAX as u64 {
        Some(n as u32)
    } else {
        None
    }
}
