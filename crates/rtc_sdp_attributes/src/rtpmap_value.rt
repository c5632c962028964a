//! Values of `rtpmap`.
ghost use Rattle.std.specs.Prelude.{◌≡◌, ◌++◌, IfOk, OnOk, string_bytes};
ghost use Rattle.rtc_sdp_attributes.specs.AttributeForms as form;
ghost use Rattle.rtc_sdp_attributes.specs.AttributeTexts as written;

use crate::{Rtpmap, cut, put_decimal};
use rtc_sdp_values::Pt;
use rtc_wire::Text;
use rtc_wire_text::{is_token, number_up_to};
use std::alloc::{AllocError, Global};

/// The clock and the channels, one if none are named.
fn rate_of(text: &str) -> Option<(u64, u64)>
    ensures { result ≡ form.rtpmap_rate text.now }
{
    match cut(text, b'/') {
        None => {
            let clock = number_up_to(4_294_967_295, text)?;
            Some((clock, 1))
        }
        Some((clock, channels)) => {
            let clock = number_up_to(4_294_967_295, clock)?;
            let channels = number_up_to(255, channels)?;
            Some((clock, channels))
        }
    }
}

/// The codec that a value gives to a payload type (RFC 8866, section 6.6).
pub fn read_rtpmap(alloc: Global, value: &str) -> Result<Option<Rtpmap>, AllocError>
    ensures { IfOk result (λ read. read ≡ form.rtpmap value.now) }
{
    let Some((pt, rest)) = cut(value, b' ') else {
        return Ok(None);
    };
    let Some(pt) = number_up_to(127, pt) else {
        return Ok(None);
    };
    let Some((codec, rate)) = cut(rest, b'/') else {
        return Ok(None);
    };
    if !is_token(codec) {
        return Ok(None);
    }
    let Some((clock, channels)) = rate_of(rate) else {
        return Ok(None);
    };
    let codec = Text::from_str(alloc, codec)?;
    Ok(Some(Rtpmap {
        pt: Pt(pt as u8),
        codec,
        clock: clock as u32,
        channels: channels as u8,
    }))
}

/// Appends the value that gives a codec to a payload type.
#[tactic(auto, unfolding(crate::specs::AttributeTexts::rtpmap_text))]
pub fn put_rtpmap(
    out: &mut String,
    pt: Pt,
    codec: &str,
    clock: u32,
    channels: u8,
) -> Result<(), AllocError>
    ensures { OnOk result (string_bytes out.new ≡ string_bytes out.old ++ written.rtpmap_text pt.0 codec.now clock channels) }
{
    put_decimal(out, pt.0 as u64)?;
    out.push_str(" ")?;
    out.push_str(codec)?;
    out.push_str("/")?;
    put_decimal(out, clock as u64)?;
    if channels != 1 {
        out.push_str("/")?;
        put_decimal(out, channels as u64)?;
    }
    Ok(())
}
