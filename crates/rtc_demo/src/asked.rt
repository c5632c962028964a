//! The words of a demo.
ghost use Rattle.std.specs.Prelude.{◌≡◌, ◌≢◌, ◌≤◌, ◌<◌, ◌^◌, ◌↔◌, ℕ, IsTrue, IfSome, IfNone, map, codes, string_bytes};
ghost use Rattle.std.specs.Fmt.{decimal};
ghost use Rattle.rtc_demo.specs.DemoWords.{AreDemoWords, AskForDemo};

use rtc_wire_text::read_decimal;

// How many rounds a word asks for.
fn read_rounds(word: &str) -> Option<u32>
    ensures some { IfSome result (λ n. (word.now ≡ decimal n) × (1 ≤ n) × (n ≤ 100)) }
    ensures none { IfNone result ((n : ℕ) → n ≤ 100 → 1 ≤ n → word.now ≢ decimal n) }
{
    let n = read_decimal(word)?;
    if n < 1 {
        return None;
    }
    if n > 100 {
        return None;
    }
    Some(n as u32)
}

// The seed that a word is.
fn read_seed(word: &str) -> Option<u32>
    ensures some { IfSome result (λ n. (word.now ≡ decimal n) × (n < 2 ^ 32)) }
    ensures none { IfNone result ((n : ℕ) → n < 2 ^ 32 → word.now ≢ decimal n) }
{
    let n = read_decimal(word)?;
    if n > u32::MAX as u64 {
        return None;
    }
    Some(n as u32)
}

fn is_demo(word: &str) -> bool
    ensures { IsTrue result ↔ (word.now ≡ codes "demo") }
{
    word == "demo"
}

// The rounds and the seed of the words behind the first.
fn read_numbers(rounds: &str, seed: &str) -> Option<(u32, u32)>
    ensures some { IfSome result (λ asked. (rounds.now ≡ decimal asked.0) × (1 ≤ asked.0) × (asked.0 ≤ 100)
        × (seed.now ≡ decimal asked.1) × (asked.1 < 2 ^ 32)) }
    ensures none { IfNone result ((n s : ℕ) → n ≤ 100 → 1 ≤ n → s < 2 ^ 32 → rounds.now ≡ decimal n → seed.now ≢ decimal s) }
{
    let rounds = read_rounds(rounds)?;
    let seed = read_seed(seed)?;
    Some((rounds, seed))
}

/// The rounds and the seed of the demo that words ask for, if they do.
pub fn read_demo(words: &[String]) -> Option<(u32, u32)>
    ensures some { IfSome result (λ asked. AreDemoWords (map (λ word. string_bytes word) words.now) asked.0 asked.1) }
    ensures none { IfNone result (AskForDemo (map (λ word. string_bytes word) words.now) → ⊥) }
{
    match words {
        [word, rounds, seed] => {
            if is_demo(word.as_str()) {
                read_numbers(rounds.as_str(), seed.as_str())
            } else {
                None
            }
        }
        _ => None,
    }
}
