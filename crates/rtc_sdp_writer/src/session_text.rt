//! The writer.
ghost use Rattle.std.specs.Prelude.{◌≡◌, ◌++◌, IfOk, OnOk, string_bytes};
ghost use Rattle.rtc_wire_text.specs.Lines.{text_of};
ghost use Rattle.rtc_sdp_writer.specs.Placeholders.{filled_sdp};
ghost use Rattle.rtc_sdp_writer.specs.SessionRows as spec;

use crate::filled_text::put_filled_lines;
use crate::line_text::{put_group, put_origin};
use crate::media_text::put_lines;
use crate::semantic_text::put_semantic;
use rtc_sdp_values::Sdp;
use std::alloc::AllocError;

fn put_lite_if_so(out: &mut String, lite: bool) -> Result<(), AllocError>
    ensures { OnOk result (string_bytes out.new ≡ string_bytes out.old ++ text_of (spec.lite_lines lite)) }
{
    if lite {
        out.push_str("a=ice-lite\r\n")?;
    }
    Ok(())
}

// The session part. What the session itself says of a connection is not written.
#[tactic(auto, unfolding(crate::specs::SessionRows::session_groups))]
fn put_session(out: &mut String, sdp: &Sdp) -> Result<(), AllocError>
    ensures { OnOk result (string_bytes out.new ≡ string_bytes out.old ++ text_of (spec.session_rows sdp.now)) }
{
    out.push_str("v=0\r\n")?;
    put_origin(out, sdp.id)?;
    out.push_str("s=-\r\nt=0 0\r\n")?;
    put_group(out, sdp.lines.as_slice())?;
    out.push_str("a=extmap-allow-mixed\r\n")?;
    put_semantic(out, sdp.lines.as_slice())?;
    put_lite_if_so(out, sdp.ice_lite)?;
    Ok(())
}

/// The text of a value (RFC 8866, section 5). Each value has one; what the session itself says of a connection, and what is None,
/// are not written.
#[tactic(auto, unfolding(crate::specs::SessionRows::written_sdp))]
pub fn write(sdp: &Sdp) -> Result<String, AllocError>
    ensures { IfOk result (λ text. string_bytes text ≡ spec.written_sdp sdp.now) }
{
    let mut out = sdp.lines.empty_string();
    put_session(&mut out, sdp)?;
    put_lines(&mut out, sdp.lines.as_slice())?;
    Ok(out)
}

/// The text of a value in which each m-line has a format, as other readers want it (RFC 8866, section 5.14): a line with
/// port 0 and no payload types has the format 0.
#[tactic(auto, unfolding(crate::specs::Placeholders::filled_sdp))]
pub fn write_filled(sdp: &Sdp) -> Result<String, AllocError>
    ensures { IfOk result (λ text. string_bytes text ≡ filled_sdp sdp.now) }
{
    let mut out = sdp.lines.empty_string();
    put_session(&mut out, sdp)?;
    put_filled_lines(&mut out, sdp.lines.as_slice())?;
    Ok(out)
}
