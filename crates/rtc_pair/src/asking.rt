//! The words of the command line.
ghost use Rattle.std.specs.Prelude.{◌≡◌, ◌↔◌, IsTrue, map, string_bytes};
ghost use Rattle.rtc_pair.specs.Answers.{run_words};

/// Whether the words ask for a run.
pub fn ask_for_run(words: &[String]) -> bool
    ensures { IsTrue result ↔ (map (λ word. string_bytes word) words.now ≡ run_words) }
{
    match words.split_first() {
        Some((word, rest)) => rest.is_empty() && word.as_str() == "run",
        None => false,
    }
}
