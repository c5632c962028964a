//! A text in two at a byte.
ghost use Rattle.std.specs.Prelude.{◌≡◌, ◌<◌, option_map};
ghost use Rattle.memchr.specs.Find.{IsFirstByte, is_byte};
ghost use Rattle.rtc_wire_text.specs.Cuts as spec;

use memchr::memchr;

#[inline(always)]
fn first_place(text: &str, at: u8) -> Option<usize>
    ensures { IsFirstByte (is_byte at) text.now result }
{
    memchr(at, text.as_bytes())
}

/// What is before the first `at`, an ASCII byte, and what is behind it. Many bytes are looked at together.
pub fn cut(text: &str, at: u8) -> Option<(&str, &str)>
    requires { at < 128 }
    ensures { option_map (λ parts. (parts.0.now, parts.1.now)) result ≡ spec.cut at text.now }
{
    match first_place(text, at) {
        Some(place) => Some((&text[..place], &text[place + 1..])),
        None => None,
    }
}
