//! The words of the command line.
ghost use Rattle.std.specs.Prelude.{◌≡◌, map, string_bytes};
ghost use Rattle.rtc_room.specs.Asking.{asks_to_run_room};

/// Whether the words ask for a run.
pub fn ask_to_run(words: &[String]) -> bool
    ensures { result ≡ asks_to_run_room (map (λ word. string_bytes word) words.now) }
{
    match words {
        [word] => word.as_str() == "run",
        _ => false,
    }
}
