//! Values of `ssrc` and `ssrc-group`.
ghost use Rattle.std.specs.Prelude.{◌≡◌, ◌++◌, IfOk, OnOk, string_bytes};
ghost use Rattle.rtc_sdp_attributes.specs.AttributeForms as form;
ghost use Rattle.rtc_sdp_attributes.specs.AttributeTexts as written;

use crate::{SsrcName, cut, put_decimal};
use rtc_sdp_values::{Msid, Ssrc};
use rtc_wire::Text;
use rtc_wire_text::number_up_to;
use std::alloc::{AllocError, Global};

fn ssrc_number(word: &str) -> Option<u64>
    ensures { result ≡ form.ssrc_number word.now }
{
    number_up_to(4_294_967_295, word)
}

/// The canonical name that a value of `ssrc` gives an SSRC (RFC 5576, section 6.1); None for its other attributes.
pub fn read_ssrc_name(alloc: Global, value: &str) -> Result<Option<SsrcName>, AllocError>
    ensures { IfOk result (λ read. read ≡ form.source value.now) }
{
    let Some((number, attribute)) = cut(value, b' ') else {
        return Ok(None);
    };
    let Some(number) = ssrc_number(number) else {
        return Ok(None);
    };
    let Some((name, cname)) = cut(attribute, b':') else {
        return Ok(None);
    };
    if name != "cname" || cname.is_empty() {
        return Ok(None);
    }
    let cname = Text::from_str(alloc, cname)?;
    Ok(Some(SsrcName {
        ssrc: Ssrc(number as u32),
        cname,
    }))
}

/// Appends the value that gives an SSRC a canonical name.
#[tactic(auto, unfolding(crate::specs::AttributeTexts::ssrc_name_text))]
pub fn put_ssrc_name(out: &mut String, ssrc: Ssrc, cname: &str) -> Result<(), AllocError>
    ensures { OnOk result (string_bytes out.new ≡ string_bytes out.old ++ written.ssrc_name_text ssrc.0 cname.now) }
{
    put_decimal(out, ssrc.0 as u64)?;
    out.push_str(" cname:")?;
    out.push_str(cname)
}

/// Appends the value that names the stream and the track of an SSRC.
#[tactic(auto, unfolding(crate::specs::AttributeTexts::ssrc_msid_text))]
pub fn put_ssrc_msid(out: &mut String, ssrc: Ssrc, msid: &Msid) -> Result<(), AllocError>
    ensures { OnOk result (string_bytes out.new
        ≡ string_bytes out.old ++ written.ssrc_msid_text ssrc.0 msid.now.stream_id msid.now.track_id) }
{
    put_decimal(out, ssrc.0 as u64)?;
    out.push_str(" msid:")?;
    out.push_str(msid.stream_id.as_str())?;
    out.push_str(" ")?;
    out.push_str(msid.track_id.as_str())
}

/// The SSRC and the RTX SSRC that a value of `ssrc-group` names (RFC 5576, section 4.2); None for other groups.
pub fn read_ssrc_pair(value: &str) -> Option<(Ssrc, Ssrc)>
    ensures { result ≡ form.source_pair_form value.now }
{
    let (word, numbers) = cut(value, b' ')?;
    if word != "FID" {
        return None;
    }
    let (ssrc, rtx) = cut(numbers, b' ')?;
    let ssrc = ssrc_number(ssrc)?;
    let rtx = ssrc_number(rtx)?;
    Some((Ssrc(ssrc as u32), Ssrc(rtx as u32)))
}

/// Appends the value that pairs an SSRC with its RTX SSRC.
#[tactic(auto, unfolding(crate::specs::AttributeTexts::ssrc_pair_text))]
pub fn put_ssrc_pair(out: &mut String, ssrc: Ssrc, rtx: Ssrc) -> Result<(), AllocError>
    ensures { OnOk result (string_bytes out.new ≡ string_bytes out.old ++ written.ssrc_pair_text ssrc.0 rtx.0) }
{
    out.push_str("FID ")?;
    put_decimal(out, ssrc.0 as u64)?;
    out.push_str(" ")?;
    put_decimal(out, rtx.0 as u64)
}
