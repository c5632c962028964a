//! Numbers of a line.
ghost use Rattle.std.specs.Prelude.{◌≡◌, ◌≢◌, ◌<◌, ◌^◌, ℕ, [], ◌∷◌, IfSome, IfNone, map};
ghost use Rattle.std.specs.Fmt.{decimal};
ghost use Rattle.rtc_script.specs.Numbers.{AreLongNumbers, AreNumbers};

use rtc_wire_text::read_decimal;
use std::str;

/// The number below 2^32 that a word is the decimal of, without leading zeros.
pub fn read_u32(word: &[u8]) -> Option<u32>
    ensures some { IfSome result (λ n. word.now ≡ decimal n) }
    ensures none { IfNone result ((n : ℕ) → n < 2 ^ 32 → word.now ≢ decimal n) }
{
    let n = read_u64(word)?;
    if n <= u32::MAX as u64 {
        Some(n as u32)
    } else {
        None
    }
}

/// The number below 2^16 that a word is the decimal of, without leading zeros.
pub fn read_u16(word: &[u8]) -> Option<u16>
    ensures some { IfSome result (λ n. word.now ≡ decimal n) }
    ensures none { IfNone result ((n : ℕ) → n < 2 ^ 16 → word.now ≢ decimal n) }
{
    let n = read_u32(word)?;
    if n <= u16::MAX as u32 {
        Some(n as u16)
    } else {
        None
    }
}

/// The number below 2^64 that a word is the decimal of, without leading zeros.
pub fn read_u64(word: &[u8]) -> Option<u64>
    ensures some { IfSome result (λ n. word.now ≡ decimal n) }
    ensures none { IfNone result ((n : ℕ) → n < 2 ^ 64 → word.now ≢ decimal n) }
{
    let Ok(text) = str::from_utf8(word) else {
        return None;
    };
    read_decimal(text)
}

/// The number of one word.
pub fn read_one(words: &[&[u8]]) -> Option<u32>
    ensures some { IfSome result (λ n. AreNumbers (map (λ word. word.now) words.now) (n ∷ [])) }
    ensures none { IfNone result ((n : ℕ) → AreNumbers (map (λ word. word.now) words.now) (n ∷ []) → ⊥) }
{
    match words {
        [word] => read_u32(word),
        _ => None,
    }
}

/// The numbers of two words.
pub fn read_two(words: &[&[u8]]) -> Option<(u32, u32)>
    ensures some { IfSome result (λ found. AreNumbers (map (λ word. word.now) words.now) (found.0 ∷ found.1 ∷ [])) }
    ensures none { IfNone result ((m n : ℕ) → AreNumbers (map (λ word. word.now) words.now) (m ∷ n ∷ []) → ⊥) }
{
    match words {
        [first, second] => {
            let m = read_u32(first)?;
            let n = read_u32(second)?;
            Some((m, n))
        }
        _ => None,
    }
}

/// The number below 2^64 of one word.
pub fn read_long(words: &[&[u8]]) -> Option<u64>
    ensures some { IfSome result (λ n. AreLongNumbers (map (λ word. word.now) words.now) (n ∷ [])) }
    ensures none { IfNone result ((n : ℕ) → AreLongNumbers (map (λ word. word.now) words.now) (n ∷ []) → ⊥) }
{
    match words {
        [word] => read_u64(word),
        _ => None,
    }
}

/// The numbers below 2^64 of two words.
pub fn read_two_long(words: &[&[u8]]) -> Option<(u64, u64)>
    ensures some { IfSome result (λ found. AreLongNumbers (map (λ word. word.now) words.now) (found.0 ∷ found.1 ∷ [])) }
    ensures none { IfNone result ((m n : ℕ) → AreLongNumbers (map (λ word. word.now) words.now) (m ∷ n ∷ []) → ⊥) }
{
    match words {
        [first, second] => {
            let m = read_u64(first)?;
            let n = read_u64(second)?;
            Some((m, n))
        }
        _ => None,
    }
}
