//! Hashes as pairs of hex digits with colons between.
ghost use Rattle.std.specs.Prelude.{◌≡◌, ◌≤◌, ◌<◌, ◌+◌, ◌++◌, ◌∷◌, [], IfOk, OnOk, length, string_bytes, option_map};
ghost use Rattle.std.specs.Prelude.{if◌then◌else◌, nat_lt, Some, None};
ghost use Rattle.std.specs.Str.{IsAscii};
ghost use Rattle.arrayvec.specs.ArrayVec.{array_vec_len};
ghost use Rattle.rtc_wire_text.specs.Hex as spec;

use arrayvec::ArrayVec;
use rtc_wire::Bytes;
use rtc_wire_text::push_hex;
use std::alloc::{AllocError, Global};
use std::str;

/// How many bytes a hash has at most whose text is made on the stack: those of SHA-256.
const SHORT: usize = 32;

/// The number of a hex digit of either case, and 16 for any other byte.
fn digit_value(byte: u8) -> u8
    ensures { spec.hex_digit byte ≡ (if nat_lt result 16 then Some result else None) }
{
    if byte >= b'0' && byte <= b'9' {
        byte - b'0'
    } else if byte >= b'A' && byte <= b'F' {
        byte - b'A' + 10
    } else if byte >= b'a' && byte <= b'f' {
        byte - b'a' + 10
    } else {
        16
    }
}

fn pair_value(high: u8, low: u8) -> Option<u8>
    ensures { result ≡ spec.hex_pair (spec.hex_digit high) (spec.hex_digit low) }
{
    let high = digit_value(high);
    let low = digit_value(low);
    if high < 16 && low < 16 {
        Some(16 * high + low)
    } else {
        None
    }
}

fn bytes_between(alloc: Global, text: &[u8]) -> Result<Option<Vec<u8>>, AllocError>
    ensures { IfOk result (λ read. option_map (λ bytes. bytes.items) read ≡ spec.hex_bytes text.now) }
{
    let mut bytes = Vec::with_capacity(alloc, text.len() / 3 + 1)?;
    let mut rest = text;
    while let [high, low, colon, more @ ..] = rest {
        if *colon != b':' {
            return Ok(None);
        }
        let Some(byte) = pair_value(*high, *low) else {
            return Ok(None);
        };
        bytes.push_reserved(byte);
        rest = more;
    }
    if rest.len() != 2 {
        return Ok(None);
    }
    let (high, low) = (rest[0], rest[1]);
    let Some(byte) = pair_value(high, low) else {
        return Ok(None);
    };
    bytes.push_reserved(byte);
    Ok(Some(bytes))
}

/// The hash that pairs of hex digits of either case write, with colons between (RFC 8122, section 5).
pub(crate) fn read_hash(alloc: Global, text: &str) -> Result<Option<Bytes>, AllocError>
    ensures { IfOk result (λ read. read ≡ spec.hex_bytes text.now) }
{
    match bytes_between(alloc, text.as_bytes())? {
        None => Ok(None),
        Some(bytes) => Ok(Some(Bytes::new(bytes))),
    }
}

fn digit_glyph(n: u8) -> u8
    requires { n < 16 }
    ensures ascii { result < 128 }
    ensures glyph { result ≡ spec.hex_glyph n }
{
    if n < 10 { n + 48 } else { n + 55 }
}

#[tactic(auto, using(crate::proofs::HashLemmas::ascii_behind))]
fn put_byte(text: &mut ArrayVec<u8, 96>, byte: u8)
    requires room { array_vec_len text.old < 96 }
    requires ascii { byte < 128 }
    requires text { IsAscii text.old.items }
    ensures items { text.new.items ≡ text.old.items ++ byte ∷ [] }
    ensures len { array_vec_len text.new ≡ array_vec_len text.old + 1 }
    ensures ascii { IsAscii text.new.items }
{
    text.push(byte);
}

fn put_pair(text: &mut ArrayVec<u8, 96>, byte: u8)
    requires room { array_vec_len text.old + 2 ≤ 96 }
    requires text { IsAscii text.old.items }
    ensures items { text.new.items ≡ text.old.items ++ spec.hex_pair_text byte }
    ensures len { array_vec_len text.new ≡ array_vec_len text.old + 2 }
    ensures ascii { IsAscii text.new.items }
{
    put_byte(text, digit_glyph(byte / 16));
    put_byte(text, digit_glyph(byte % 16));
}

/// The pairs of a short hash, on the stack.
#[tactic(auto, using(crate::proofs::HashLemmas::no_byte))]
fn short_text(bytes: &[u8]) -> ArrayVec<u8, 96>
    requires { length bytes.now ≤ 32 }
    ensures items { result.items ≡ spec.hex_text bytes.now }
    ensures ascii { IsAscii result.items }
{
    let mut text = ArrayVec::new();
    let [first, rest @ ..] = bytes else {
        return text;
    };
    put_pair(&mut text, *first);
    for byte in rest {
        put_byte(&mut text, b':');
        put_pair(&mut text, *byte);
    }
    text
}

fn put_short(out: &mut String, bytes: &[u8]) -> Result<(), AllocError>
    requires { length bytes.now ≤ 32 }
    ensures { OnOk result (string_bytes out.new ≡ string_bytes out.old ++ spec.hex_text bytes.now) }
{
    let text = short_text(bytes);
    match str::from_utf8(text.as_slice()) {
        Ok(text) => out.push_str(text),
        Err(_) => unreachable!(),
    }
}

/// Appends a hash in upper-case hex. The text of a short one is appended at once, which is quicker than digit by digit.
pub(crate) fn put_hash(out: &mut String, bytes: &[u8]) -> Result<(), AllocError>
    ensures { OnOk result (string_bytes out.new ≡ string_bytes out.old ++ spec.hex_text bytes.now) }
{
    if bytes.len() <= SHORT {
        put_short(out, bytes)
    } else {
        push_hex(out, bytes)
    }
}
