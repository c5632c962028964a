//! Messages that a line writes to a channel.
ghost use Rattle.std.specs.Prelude.{◌≡◌, ◌≢◌, ℕ, Bool, List, [], ◌∷◌, IfOk, IfSome, IfNone, map, codes};
ghost use Rattle.rtc_run_history.specs.Sides.{side_of};
ghost use Rattle.rtc_script.specs.Lines.{AreMessageWords, IsAct};
ghost use Rattle.rtc_script.specs.Words.{message_kind_text};

use crate::{is_word, read_bytes, read_u64};
use rtc_run_history::{Side, Step};
use rtc_wire::{Bytes, ChannelId};
use std::alloc::{AllocError, Global};

// Whether a message is binary.
fn read_message_kind(word: &[u8]) -> Option<bool>
    ensures some { IfSome result (λ binary. word.now ≡ message_kind_text binary) }
    ensures none { IfNone result ((binary : Bool) → word.now ≢ message_kind_text binary) }
{
    if is_word(word, "binary") {
        Some(true)
    } else if is_word(word, "text") {
        Some(false)
    } else {
        None
    }
}

// The write of a message to the channel of a number.
fn read_three(
    alloc: Global,
    at: Side,
    number: &[u8],
    kind: &[u8],
    digits: &[u8],
) -> Result<Option<Step>, AllocError>
    ensures some { IfOk result (λ read. IfSome read (λ step.
        (side_of step ≡ at) × IsAct (codes "write") (number.now ∷ kind.now ∷ digits.now ∷ []) step)) }
    ensures none { IfOk result (λ read. IfNone read ((channel : ℕ) (binary : Bool) (bytes : List ℕ)
        → AreMessageWords (number.now ∷ kind.now ∷ digits.now ∷ []) channel binary bytes → ⊥)) }
{
    let Some(channel) = read_u64(number) else {
        return Ok(None);
    };
    let Some(binary) = read_message_kind(kind) else {
        return Ok(None);
    };
    let Some(bytes) = read_bytes(alloc, digits)? else {
        return Ok(None);
    };
    let channel = ChannelId::new(channel);
    let bytes = Bytes::new(bytes);
    Ok(Some(Step::Write {
        at,
        channel,
        binary,
        bytes,
    }))
}

/// The write that the words behind its verb name.
pub fn read_write(alloc: Global, at: Side, words: &[&[u8]]) -> Result<Option<Step>, AllocError>
    ensures some { IfOk result (λ read. IfSome read (λ step.
        (side_of step ≡ at) × IsAct (codes "write") (map (λ word. word.now) words.now) step)) }
    ensures none { IfOk result (λ read. IfNone read ((channel : ℕ) (binary : Bool) (bytes : List ℕ)
        → AreMessageWords (map (λ word. word.now) words.now) channel binary bytes → ⊥)) }
{
    match words {
        [number, kind, digits] => read_three(alloc, at, number, kind, digits),
        _ => Ok(None),
    }
}
