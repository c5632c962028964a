//! The front of a text.
ghost use Rattle.std.specs.Prelude.{◌≡◌, ◌<◌, option_map};
ghost use Rattle.rtc_wire_text.specs.Fronts as spec;

/// What is behind a first `byte`, an ASCII character; None if the text begins otherwise.
fn behind(text: &str, byte: char) -> Option<&str>
    requires { byte < 128 }
    ensures { option_map (λ rest. rest.now) result ≡ spec.behind (spec.is_byte byte) text.now }
{
    text.strip_prefix(byte)
}

fn behind_blank(text: &str) -> Option<&str>
    ensures { option_map (λ rest. rest.now) result ≡ spec.behind spec.is_blank text.now }
{
    match behind(text, ' ') {
        Some(rest) => Some(rest),
        None => behind(text, '\t'),
    }
}

/// The text without each `byte`, an ASCII character, at its front.
pub fn without_first(text: &str, byte: char) -> &str
    requires { byte < 128 }
    ensures { result.now ≡ spec.from_first (spec.is_byte byte) text.now }
{
    let mut rest = text;
    while let Some(next) = behind(rest, byte) {
        rest = next;
    }
    rest
}

/// The text without the spaces and tabs at its front.
pub fn without_blanks(text: &str) -> &str
    ensures { result.now ≡ spec.from_first spec.is_blank text.now }
{
    let mut rest = text;
    while let Some(next) = behind_blank(rest) {
        rest = next;
    }
    rest
}
