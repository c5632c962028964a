//! Bytes as hex digits.
ghost use Rattle.std.specs.Prelude.{◌≡◌, ◌<◌, ◌++◌, [], IfOk, OnOk, option_map, string_bytes};
ghost use Rattle.rtc_gate.specs.HexWords as spec;

use rtc_wire::Bytes;
use std::alloc::{AllocError, Global};

fn lower_digit(byte: u8) -> Option<u8>
    ensures { result ≡ spec.lower_digit byte }
{
    match byte {
        b'0'..=b'9' => Some(byte - b'0'),
        b'a'..=b'f' => Some(byte - b'a' + 10),
        _ => None,
    }
}

fn byte_of(high: u8, low: u8) -> Option<u8>
    ensures { result ≡ spec.byte_of_digits (spec.lower_digit high) (spec.lower_digit low) }
{
    match (lower_digit(high), lower_digit(low)) {
        (Some(high), Some(low)) if high < 16 && low < 16 => Some(16 * high + low),
        _ => None,
    }
}

// The bytes of pairs of digits.
fn bytes_of_digits(alloc: Global, digits: &[u8]) -> Result<Option<Vec<u8>>, AllocError>
    ensures { IfOk result (λ read. option_map (λ bytes. bytes.items) read ≡ spec.bytes_of_digits digits.now) }
{
    let mut bytes = Vec::new(alloc);
    let mut at = 0;
    while at < digits.len() {
        if digits.len() - at < 2 {
            return Ok(None);
        }
        let Some(byte) = byte_of(digits[at], digits[at + 1]) else {
            return Ok(None);
        };
        bytes.push(byte)?;
        at += 2;
    }
    Ok(Some(bytes))
}

/// The bytes that a word writes: two lower-case hex digits each, and a dash for none.
pub fn read_hex(alloc: Global, word: &[u8]) -> Result<Option<Bytes>, AllocError>
    ensures { IfOk result (λ read. read ≡ spec.bytes_in_word word.now) }
{
    if word == b"-".as_slice() {
        return Ok(Some(Bytes::new(Vec::new(alloc))));
    }
    if word.is_empty() {
        return Ok(None);
    }
    match bytes_of_digits(alloc, word)? {
        None => Ok(None),
        Some(bytes) => Ok(Some(Bytes::new(bytes))),
    }
}

fn lower_glyph(n: u8) -> char
    requires { n < 16 }
    ensures ascii { result < 128 }
    ensures glyph { result ≡ spec.lower_glyph n }
{
    char::from(if n < 10 { n + 48 } else { n + 87 })
}

fn push_byte(out: &mut String, byte: u8) -> Result<(), AllocError>
    ensures { OnOk result (string_bytes out.new ≡ string_bytes out.old ++ spec.glyphs byte) }
{
    out.push(lower_glyph(byte / 16))?;
    out.push(lower_glyph(byte % 16))
}

// Puts the digits of bytes behind a text.
fn push_digits(out: &mut String, bytes: &[u8]) -> Result<(), AllocError>
    ensures { OnOk result (string_bytes out.new ≡ string_bytes out.old ++ spec.digits_of bytes.now) }
{
    for byte in bytes {
        push_byte(out, *byte)?;
    }
    Ok(())
}

/// Puts the word of bytes behind a text.
pub fn push_hex(out: &mut String, bytes: &[u8]) -> Result<(), AllocError>
    ensures { OnOk result (string_bytes out.new ≡ string_bytes out.old ++ spec.word_of_bytes bytes.now) }
{
    match bytes {
        [] => out.push_str("-"),
        [_, ..] => push_digits(out, bytes),
    }
}
