//! Lines of calls.
ghost use Rattle.std.specs.Prelude.{◌≡◌, ℕ, List, codes, IfOk, IfSome, IfNone, map};
ghost use Rattle.rtc_gate.specs.CallLines.{IsNameWord, IsNumberWord, IsHexWord, ArePieceWords, AreCallWords, AreLineWords, IsCallLine};
ghost use Rattle.rtc_gate_calls.specs.declared.gate_call.GateCall.{GateCall};

use crate::cutting::cut_words;
use crate::hexadecimal::read_hex;
use crate::naming::utf8_text_in;
use crate::numbers::read_number;
use rtc_gate_calls::GateCall;
use rtc_wire::{Bytes, Text};
use std::alloc::{AllocError, Global};

fn name_in<'a>(rest: &[&'a [u8]]) -> Option<&'a str>
    ensures some { IfSome result (λ name. IsNameWord (map (λ word. word.now) rest.now) name.now) }
    ensures none { IfNone result ((name : List ℕ) → IsNameWord (map (λ word. word.now) rest.now) name → ⊥) }
{
    let [word] = rest else {
        return None;
    };
    if word.is_empty() {
        return None;
    }
    utf8_text_in(word)
}

fn number_in(rest: &[&[u8]]) -> Option<u32>
    ensures some { IfSome result (λ number. IsNumberWord (map (λ word. word.now) rest.now) number) }
    ensures none { IfNone result ((number : ℕ) → IsNumberWord (map (λ word. word.now) rest.now) number → ⊥) }
{
    match rest {
        [word] => read_number(word),
        _ => None,
    }
}

fn bytes_in(alloc: Global, rest: &[&[u8]]) -> Result<Option<Bytes>, AllocError>
    ensures some { IfOk result (λ read. IfSome read (λ bytes. IsHexWord (map (λ word. word.now) rest.now) bytes)) }
    ensures none { IfOk result (λ read. IfNone read ((bytes : List ℕ) → IsHexWord (map (λ word. word.now) rest.now) bytes → ⊥)) }
{
    match rest {
        [word] => read_hex(alloc, word),
        _ => Ok(None),
    }
}

fn read_join(alloc: Global, rest: &[&[u8]]) -> Result<Option<GateCall>, AllocError>
    ensures some { IfOk result (λ read. IfSome read (λ call. AreCallWords (codes "join") (map (λ word. word.now) rest.now) call)) }
    ensures none { IfOk result (λ read. IfNone read ((name : List ℕ) → IsNameWord (map (λ word. word.now) rest.now) name → ⊥)) }
{
    let Some(name) = name_in(rest) else {
        return Ok(None);
    };
    let name = Text::from_str(alloc, name)?;
    Ok(Some(GateCall::Join { name }))
}

fn read_feed(alloc: Global, rest: &[&[u8]]) -> Result<Option<GateCall>, AllocError>
    ensures some { IfOk result (λ read. IfSome read (λ call. AreCallWords (codes "feed") (map (λ word. word.now) rest.now) call)) }
    ensures none { IfOk result (λ read. IfNone read ((number : ℕ) (piece : List ℕ)
        → ArePieceWords (map (λ word. word.now) rest.now) number piece → ⊥)) }
{
    let Some((first, rest)) = rest.split_first() else {
        return Ok(None);
    };
    let Some(conn) = read_number(first) else {
        return Ok(None);
    };
    match bytes_in(alloc, rest)? {
        None => Ok(None),
        Some(piece) => Ok(Some(GateCall::Feed { conn, piece })),
    }
}

fn read_call(alloc: Global, verb: &[u8], rest: &[&[u8]]) -> Result<Option<GateCall>, AllocError>
    ensures some { IfOk result (λ read. IfSome read (λ call. AreCallWords verb.now (map (λ word. word.now) rest.now) call)) }
    ensures none { IfOk result (λ read. IfNone read ((call : GateCall)
        → AreCallWords verb.now (map (λ word. word.now) rest.now) call → ⊥)) }
{
    if verb == b"join".as_slice() {
        return read_join(alloc, rest);
    }
    if verb == b"leave".as_slice() {
        return match number_in(rest) {
            Some(conn) => Ok(Some(GateCall::Leave { conn })),
            None => Ok(None),
        };
    }
    if verb == b"feed".as_slice() {
        return read_feed(alloc, rest);
    }
    if verb == b"take".as_slice() {
        return match number_in(rest) {
            Some(conn) => Ok(Some(GateCall::Take { conn })),
            None => Ok(None),
        };
    }
    Ok(None)
}

fn read_words(alloc: Global, words: &[&[u8]]) -> Result<Option<GateCall>, AllocError>
    ensures some { IfOk result (λ read. IfSome read (λ call. AreLineWords (map (λ word. word.now) words.now) call)) }
    ensures none { IfOk result (λ read. IfNone read ((call : GateCall) → AreLineWords (map (λ word. word.now) words.now) call → ⊥)) }
{
    let [verb, rest @ ..] = words else {
        return Ok(None);
    };
    read_call(alloc, verb, rest)
}

/// The call that a line names, if it is the line of one.
pub fn read_line(alloc: Global, line: &[u8]) -> Result<Option<GateCall>, AllocError>
    ensures some { IfOk result (λ read. IfSome read (λ call. IsCallLine line.now call)) }
    ensures none { IfOk result (λ read. IfNone read ((call : GateCall) → IsCallLine line.now call → ⊥)) }
{
    let words = cut_words(alloc, line)?;
    read_words(alloc, words.as_slice())
}
