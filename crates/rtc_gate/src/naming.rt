//! Names in a line.
ghost use Rattle.std.specs.Prelude.{◌≡◌, option_map};
ghost use Rattle.rtc_gate_calls.specs.Signal.{utf8_text_in as text_of_word};

use std::str;

/// A word as a text, if it is UTF-8.
pub fn utf8_text_in(word: &[u8]) -> Option<&str>
    ensures { option_map (λ text. text.now) result ≡ text_of_word word.now }
{
    match str::from_utf8(word) {
        Ok(text) => Some(text),
        Err(_) => None,
    }
}
