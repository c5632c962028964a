//! Values of `msid`.
ghost use Rattle.std.specs.Prelude.{◌≡◌, ◌++◌, IfOk, OnOk, string_bytes};
ghost use Rattle.rtc_sdp_attributes.specs.AttributeForms as form;
ghost use Rattle.rtc_sdp_attributes.specs.AttributeTexts as written;

use crate::cut;
use rtc_sdp_values::Msid;
use rtc_wire::Text;
use rtc_wire_text::is_token;
use std::alloc::{AllocError, Global};
use std::fmt::Write;

/// The stream and the track that a value names (RFC 8830, section 2).
pub fn read_msid(alloc: Global, value: &str) -> Result<Option<Msid>, AllocError>
    ensures { IfOk result (λ read. read ≡ form.msid value.now) }
{
    let Some((stream, track)) = cut(value, b' ') else {
        return Ok(None);
    };
    if !is_token(stream) || !is_token(track) {
        return Ok(None);
    }
    let stream_id = Text::from_str(alloc, stream)?;
    let track_id = Text::from_str(alloc, track)?;
    Ok(Some(Msid {
        stream_id,
        track_id,
    }))
}

/// Appends the value that names a stream and a track.
#[tactic(auto, unfolding(crate::specs::AttributeTexts::msid_text))]
pub fn put_msid(out: &mut String, msid: &Msid) -> Result<(), AllocError>
    ensures { OnOk result (string_bytes out.new ≡ string_bytes out.old ++ written.msid_text msid.now) }
{
    out.push_str(msid.stream_id.as_str())?;
    out.push_str(" ")?;
    out.push_str(msid.track_id.as_str())
}
