//! The words of the command line.
ghost use Rattle.std.specs.Prelude.{◌≡◌, map, string_bytes};
ghost use Rattle.rtc_sdp_text.specs.Asking as spec;

use crate::SdpKind;

/// What is to be done with a session description.
#[derive(Clone, Copy)]
pub enum Asked {
    /// To read it, and write it again.
    Rewrite(SdpKind),
    /// To write what becomes of each of its lines.
    Explain,
}

fn asked_by_word(word: &str) -> Option<Asked>
    ensures { result ≡ spec.asked_by_word word.now }
{
    if word == "offer" {
        Some(Asked::Rewrite(SdpKind::Offer))
    } else if word == "answer" {
        Some(Asked::Rewrite(SdpKind::Answer))
    } else if word == "explain" {
        Some(Asked::Explain)
    } else {
        None
    }
}

/// What the words ask for; None if they ask for nothing that the program does.
pub fn asked_for(words: &[String]) -> Option<Asked>
    ensures { result ≡ spec.asked (map (λ word. string_bytes word) words.now) }
{
    match words {
        [word] => asked_by_word(word.as_str()),
        _ => None,
    }
}
