//! What anybody wrote: texts, and bytes of datagrams.
ghost use Rattle.std.specs.Prelude.{◌≡◌, ℕ, List, ◌∷◌, [], IfOk, IfSome, IfNone, map, codes};
ghost use Rattle.rtc_run_history.specs.Sides.{side_of};
ghost use Rattle.rtc_script.specs.Lines.{AreRawWords, AreTextWords, AreTokenWords, IsAct};

use crate::labels::{read_bytes, read_label};
use crate::{read_u32, read_u64};
use rtc_run_history::{Side, Step};
use rtc_wire::{Bytes, Moment};
use std::alloc::{AllocError, Global};

// The offer of a word.
fn read_text(alloc: Global, at: Side, digits: &[u8]) -> Result<Option<Step>, AllocError>
    ensures some { IfOk result (λ read. IfSome read (λ step.
        (side_of step ≡ at) × IsAct (codes "foreignoffer") (digits.now ∷ []) step)) }
    ensures none { IfOk result (λ read. IfNone read ((text : List ℕ) → AreTextWords (digits.now ∷ []) text → ⊥)) }
{
    match read_label(alloc, digits)? {
        Some(text) => Ok(Some(Step::ForeignOffer { at, text })),
        None => Ok(None),
    }
}

/// The offer that the words behind its verb write.
pub fn read_foreign_offer(
    alloc: Global,
    at: Side,
    words: &[&[u8]],
) -> Result<Option<Step>, AllocError>
    ensures some { IfOk result (λ read. IfSome read (λ step.
        (side_of step ≡ at) × IsAct (codes "foreignoffer") (map (λ word. word.now) words.now) step)) }
    ensures none { IfOk result (λ read. IfNone read ((text : List ℕ) → AreTextWords (map (λ word. word.now) words.now) text → ⊥)) }
{
    match words {
        [digits] => read_text(alloc, at, digits),
        _ => Ok(None),
    }
}

// The answer of a word, with the token of another.
fn read_token_and_text(
    alloc: Global,
    at: Side,
    number: &[u8],
    digits: &[u8],
) -> Result<Option<Step>, AllocError>
    ensures some { IfOk result (λ read. IfSome read (λ step.
        (side_of step ≡ at) × IsAct (codes "foreignanswer") (number.now ∷ digits.now ∷ []) step)) }
    ensures none { IfOk result (λ read. IfNone read ((token : ℕ) (text : List ℕ)
        → AreTokenWords (number.now ∷ digits.now ∷ []) token text → ⊥)) }
{
    let Some(token) = read_u32(number) else {
        return Ok(None);
    };
    match read_label(alloc, digits)? {
        Some(text) => Ok(Some(Step::ForeignAnswer { at, token, text })),
        None => Ok(None),
    }
}

/// The answer that the words behind its verb write, with its token.
pub fn read_foreign_answer(
    alloc: Global,
    at: Side,
    words: &[&[u8]],
) -> Result<Option<Step>, AllocError>
    ensures some { IfOk result (λ read. IfSome read (λ step.
        (side_of step ≡ at) × IsAct (codes "foreignanswer") (map (λ word. word.now) words.now) step)) }
    ensures none { IfOk result (λ read. IfNone read ((token : ℕ) (text : List ℕ)
        → AreTokenWords (map (λ word. word.now) words.now) token text → ⊥)) }
{
    match words {
        [number, digits] => read_token_and_text(alloc, at, number, digits),
        _ => Ok(None),
    }
}

// The bytes of a word, at the moment of another.
fn read_moment_and_bytes(
    alloc: Global,
    at: Side,
    number: &[u8],
    digits: &[u8],
) -> Result<Option<Step>, AllocError>
    ensures some { IfOk result (λ read. IfSome read (λ step.
        (side_of step ≡ at) × IsAct (codes "raw") (number.now ∷ digits.now ∷ []) step)) }
    ensures none { IfOk result (λ read. IfNone read ((now : ℕ) (bytes : List ℕ)
        → AreRawWords (number.now ∷ digits.now ∷ []) now bytes → ⊥)) }
{
    let Some(nanos) = read_u64(number) else {
        return Ok(None);
    };
    let Some(bytes) = read_bytes(alloc, digits)? else {
        return Ok(None);
    };
    let now = Moment::from_nanos(nanos);
    let bytes = Bytes::new(bytes);
    Ok(Some(Step::Raw { at, bytes, now }))
}

/// The datagram that the words behind its verb write, with its moment.
pub fn read_raw(alloc: Global, at: Side, words: &[&[u8]]) -> Result<Option<Step>, AllocError>
    ensures some { IfOk result (λ read. IfSome read (λ step.
        (side_of step ≡ at) × IsAct (codes "raw") (map (λ word. word.now) words.now) step)) }
    ensures none { IfOk result (λ read. IfNone read ((now : ℕ) (bytes : List ℕ)
        → AreRawWords (map (λ word. word.now) words.now) now bytes → ⊥)) }
{
    match words {
        [number, digits] => read_moment_and_bytes(alloc, at, number, digits),
        _ => Ok(None),
    }
}
