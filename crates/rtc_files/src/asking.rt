//! The words of the command line.
ghost use Rattle.std.specs.Prelude.{◌≡◌, ◌≢◌, ◌<◌, ◌^◌, ℕ, List, IfOk, OnErr, IfSome, IfNone, MatchOption};
ghost use Rattle.std.specs.Fmt.{decimal};
ghost use Rattle.rtc_files.specs.Asking.{AreSizes, AskFor, AskForSessions, bytes_of_words};

use rtc_wire_text::read_decimal;
use std::alloc::{AllocError, Global};

/// How many sessions the words may ask for.
pub const SESSION_LIMIT: usize = 1000;

fn session_size(word: &str) -> Option<u32>
    ensures some { IfSome result (λ size. word.now ≡ decimal size) }
    ensures none { IfNone result ((size : ℕ) → size < 2 ^ 32 → word.now ≢ decimal size) }
{
    let size = read_decimal(word)?;
    if size > 4_294_967_295 {
        return None;
    }
    Some(size as u32)
}

// The sizes that words write. If memory runs out, the words behind are still looked at.
fn sizes_of(alloc: Global, words: &[String]) -> Result<Option<Vec<u32>>, AllocError>
    ensures sizes { IfOk result (λ sizes. MatchOption sizes (¬ ((sizes : List ℕ)
        × AreSizes (bytes_of_words words.now) sizes))
        (λ sizes. AreSizes (bytes_of_words words.now) sizes.items)) }
    ensures lacking { OnErr result ((sizes : List ℕ) × AreSizes (bytes_of_words words.now) sizes) }
{
    let mut sizes = Vec::new(alloc);
    let mut lacking = false;
    for word in words {
        let Some(size) = session_size(word.as_str()) else {
            return Ok(None);
        };
        if sizes.push(size).is_err() {
            lacking = true;
        }
    }
    if lacking {
        return Err(AllocError);
    }
    Ok(Some(sizes))
}

/// How many records the receiver is to take in each session; None if the words do not ask for sessions.
pub fn session_sizes(alloc: Global, words: &[String]) -> Result<Option<Vec<u32>>, AllocError>
    ensures sizes { IfOk result (λ sizes. MatchOption sizes (¬ (AskForSessions (bytes_of_words words.now)))
        (λ sizes. AskFor (bytes_of_words words.now) sizes.items)) }
    ensures lacking { OnErr result (AskForSessions (bytes_of_words words.now)) }
{
    let Some((word, rest)) = words.split_first() else {
        return Ok(None);
    };
    if word.as_str() != "run" || rest.is_empty() || rest.len() > SESSION_LIMIT {
        return Ok(None);
    }
    sizes_of(alloc, rest)
}
