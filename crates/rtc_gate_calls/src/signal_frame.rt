//! Bodies of frames.
ghost use Rattle.std.specs.Prelude.{◌≡◌, ◌+◌, ◌<◌, ◌^◌, ◌≤◌, IfOk, IfSome, length, option_map, Some};
ghost use Rattle.rtc_gate_calls.specs.Signal as spec;

use crate::{SignalKind, name_in};
use rtc_wire::Bytes;
use rtc_wire_text::ShortToken;
use std::alloc::{AllocError, Global};
use std::str;

/// A frame, lent: its kind, the name that it carries, and its text.
#[derive(Debug, Drop)]
pub struct SignalFrame<'a> {
    pub kind: SignalKind,
    pub name: ShortToken,
    pub text: &'a str,
}

fn utf8_text_in(bytes: &[u8]) -> Option<&str>
    ensures { option_map (λ text. text.now) result ≡ spec.utf8_text_in bytes.now }
{
    match str::from_utf8(bytes) {
        Ok(text) => Some(text),
        Err(_) => None,
    }
}

fn frame_with<'a>(kind: SignalKind, name: &[u8], text: &'a [u8]) -> Option<SignalFrame<'a>>
    ensures signal { option_map spec.signal_of result ≡ spec.signal_with (Some kind) (spec.signal_name_in name.now)
        (spec.utf8_text_in text.now) }
    ensures text { IfSome result (λ frame. frame.text.now ≡ text.now) }
{
    match (name_in(name), utf8_text_in(text)) {
        (Some(name), Some(text)) => Some(SignalFrame { kind, name, text }),
        _ => None,
    }
}

/// Parses an incoming frame from its body.
pub fn frame_in(body: &[u8]) -> Option<SignalFrame>
    ensures signal { option_map spec.signal_of result ≡ spec.signal_in body.now }
    ensures short { IfSome result (λ frame. length frame.text.now ≤ length body.now) }
{
    let [kind, count, rest @ ..] = body else {
        return None;
    };
    let count = *count as usize;
    if rest.len() < count {
        return None;
    }
    let (name, text) = rest.split_at(count);
    match SignalKind::incoming(*kind) {
        Some(kind) => frame_with(kind, name, text),
        None => None,
    }
}

/// The bytes of a frame.
pub fn write_frame(alloc: Global, frame: &SignalFrame) -> Result<Bytes, AllocError>
    requires { length frame.now.text.now < 2 ^ 31 }
    ensures { IfOk result (λ bytes. bytes ≡ spec.signal_bytes (spec.signal_of frame.now)) }
{
    let name = frame.name.as_str().as_bytes();
    let count = name.len();
    let body = 2 + count + frame.text.len();
    let mut bytes = Vec::with_capacity(alloc, 4 + body)?;
    bytes.extend_from_slice(&(body as u32).to_be_bytes())?;
    bytes.push(frame.kind.byte())?;
    bytes.push(count as u8)?;
    bytes.extend_from_slice(name)?;
    bytes.extend_from_slice(frame.text.as_bytes())?;
    Ok(Bytes::new(bytes))
}
