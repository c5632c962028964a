//! Words that are distinguished by their letters.
ghost use Rattle.std.specs.Prelude.{◌≡◌, ◌↔◌, IsTrue};

/// Whether a word has these letters.
pub fn is_word(word: &[u8], letters: &str) -> bool
    ensures { IsTrue result ↔ (word.now ≡ letters.now) }
{
    word == letters.as_bytes()
}
