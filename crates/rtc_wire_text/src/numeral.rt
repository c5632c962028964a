//! Numbers that texts of other stacks write: digits, which may begin with zeros.
ghost use Rattle.std.specs.Prelude.{◌≡◌, ◌<◌, ◌^◌, ◌-◌};
ghost use Rattle.std.specs.List.{list_all};
ghost use Rattle.std.specs.Char.{is_ascii_digit};
ghost use Rattle.rtc_wire_text.specs.Numbers as spec;

fn are_digits(text: &str) -> bool
    ensures { result ≡ list_all is_ascii_digit text.now }
{
    text.bytes().all(|byte| byte.is_ascii_digit())
}

/// Whether a text is digits alone, and at least one.
pub fn is_numeral(text: &str) -> bool
    ensures { result ≡ spec.is_numeral text.now }
{
    !text.is_empty() && are_digits(text)
}

/// The number that digits write, or `u64::MAX` if it is greater.
#[tactic(auto, unfolding(crate::specs::Numbers::number))]
pub fn number(text: &str) -> Option<u64>
    ensures { result ≡ spec.number text.now }
{
    if !is_numeral(text) {
        return None;
    }
    Some(text.parse::<u64>().unwrap_or(u64::MAX))
}

/// The number that digits write, if it is at most `most`.
pub fn number_up_to(most: u64, text: &str) -> Option<u64>
    requires { most < 2 ^ 64 - 1 }
    ensures { result ≡ spec.number_up_to most text.now }
{
    match number(text) {
        Some(n) if n <= most => Some(n),
        _ => None,
    }
}
