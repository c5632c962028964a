//! Bytes as hex digits.
ghost use Rattle.std.specs.Prelude.{◌≡◌, ◌<◌, ◌++◌, ◌∷◌, [], IfOk, OnOk, option_map, string_bytes};
ghost use Rattle.rtc_wire_text.specs.Hex as spec;

use rtc_wire::Bytes;
use std::alloc::{AllocError, Global};

fn hex_digit(byte: u8) -> Option<u8>
    ensures { result ≡ spec.hex_digit byte }
{
    match byte {
        b'0'..=b'9' => Some(byte - b'0'),
        b'A'..=b'F' => Some(byte - b'A' + 10),
        b'a'..=b'f' => Some(byte - b'a' + 10),
        _ => None,
    }
}

fn hex_pair(high: u8, low: u8) -> Option<u8>
    ensures { result ≡ spec.hex_pair (spec.hex_digit high) (spec.hex_digit low) }
{
    match (hex_digit(high), hex_digit(low)) {
        (Some(high), Some(low)) if high < 16 && low < 16 => Some(16 * high + low),
        _ => None,
    }
}

fn bytes_between(alloc: Global, text: &[u8]) -> Result<Option<Vec<u8>>, AllocError>
    ensures { IfOk result (λ read. option_map (λ bytes. bytes.items) read ≡ spec.hex_bytes text.now) }
{
    let mut bytes = Vec::with_capacity(alloc, text.len() / 3 + 1)?;
    let mut rest = text;
    while let [high, low, colon, more @ ..] = rest {
        if *colon != b':' {
            return Ok(None);
        }
        let Some(byte) = hex_pair(*high, *low) else {
            return Ok(None);
        };
        bytes.push(byte)?;
        rest = more;
    }
    if rest.len() != 2 {
        return Ok(None);
    }
    let (high, low) = (rest[0], rest[1]);
    let Some(byte) = hex_pair(high, low) else {
        return Ok(None);
    };
    bytes.push(byte)?;
    Ok(Some(bytes))
}

/// The bytes that pairs of hex digits of either case write, with colons between.
pub fn hex_bytes(alloc: Global, text: &str) -> Result<Option<Bytes>, AllocError>
    ensures { IfOk result (λ read. read ≡ spec.hex_bytes text.now) }
{
    match bytes_between(alloc, text.as_bytes())? {
        None => Ok(None),
        Some(bytes) => Ok(Some(Bytes::new(bytes))),
    }
}

fn hex_glyph(n: u8) -> char
    requires { n < 16 }
    ensures ascii { result < 128 }
    ensures glyph { result ≡ spec.hex_glyph n }
{
    char::from(if n < 10 { n + 48 } else { n + 55 })
}

fn push_pair(out: &mut String, byte: u8) -> Result<(), AllocError>
    ensures { OnOk result (string_bytes out.new ≡ string_bytes out.old ++ spec.hex_pair_text byte) }
{
    out.push(hex_glyph(byte / 16))?;
    out.push(hex_glyph(byte % 16))
}

/// Appends each byte as two upper-case hex digits, with colons between.
pub fn push_hex(out: &mut String, bytes: &[u8]) -> Result<(), AllocError>
    ensures { OnOk result (string_bytes out.new ≡ string_bytes out.old ++ spec.hex_text bytes.now) }
{
    let [first, rest @ ..] = bytes else {
        return Ok(());
    };
    push_pair(out, *first)?;
    for byte in rest {
        out.push(':')?;
        push_pair(out, *byte)?;
    }
    Ok(())
}
