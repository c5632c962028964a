//! Numbers as scripts write them: digits with no zero in front.
ghost use Rattle.std.specs.Prelude.{◌≡◌, ◌≢◌, ◌<◌, ◌^◌, IfSome, IfNone, ℕ};
ghost use Rattle.std.specs.Fmt.{decimal};
ghost use Rattle.rtc_wire_text.specs.Numbers.{is_plain_numeral as IsPlainNumeral, has_zero_in_front as HasZeroInFront};

use crate::is_numeral;

fn has_zero_in_front(text: &str) -> bool
    ensures { result ≡ HasZeroInFront text.now }
{
    match text.as_bytes() {
        [b'0', _, ..] => true,
        _ => false,
    }
}

fn is_plain_numeral(text: &str) -> bool
    ensures { result ≡ IsPlainNumeral text.now }
{
    is_numeral(text) && !has_zero_in_front(text)
}

/// The number whose decimal a text is.
pub fn read_decimal(text: &str) -> Option<u64>
    ensures some { IfSome result (λ n. text.now ≡ decimal n) }
    ensures none { IfNone result ((n : ℕ) → n < 2 ^ 64 → text.now ≢ decimal n) }
{
    if !is_plain_numeral(text) {
        return None;
    }
    match text.parse::<u64>() {
        Ok(n) => Some(n),
        Err(_) => None,
    }
}
