//! A text in two.
ghost use Rattle.std.specs.Prelude.{◌≡◌, ◌<◌, option_map};
ghost use Rattle.rtc_wire_text.specs.Cuts as spec;

/// What is before the first `at`, an ASCII character, and what is behind it.
pub fn cut(text: &str, at: char) -> Option<(&str, &str)>
    requires { at < 128 }
    ensures { option_map (λ parts. (parts.0.now, parts.1.now)) result ≡ spec.cut at text.now }
{
    text.split_once(at)
}
