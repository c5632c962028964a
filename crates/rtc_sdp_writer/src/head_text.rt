//! The `m=` line, put behind a text.
ghost use Rattle.std.specs.Prelude.{◌≡◌, ◌++◌, OnOk, string_bytes, map, [], ◌∷◌};
ghost use Rattle.std.specs.Fmt.{decimal};
ghost use Rattle.rtc_wire_text.specs.Lines.{crlf};
ghost use Rattle.rtc_wire_text.specs.Words.{spaced};
ghost use Rattle.rtc_sdp_grammar.specs.LineTexts as spec;
ghost use Rattle.rtc_sdp_values.specs.declared.line_kind.LineKind.TheVariants.{Audio, Video, Application, Unknown};
ghost use Rattle.rtc_sdp_reader.specs.PlainPayloads.{formats_of, row_formats, optional_number, itself};

use rtc_sdp_attributes::put_decimal;
use rtc_sdp_values::{LineKind, PayloadRow, Pt};
use std::alloc::AllocError;
use std::fmt::Write;

fn port_word(disabled: bool) -> &'static str
    ensures { result.now ≡ spec.port_word disabled }
{
    if disabled { "0" } else { "9" }
}

fn put_number(out: &mut String, pt: Pt) -> Result<(), AllocError>
    ensures { OnOk result (string_bytes out.new ≡ string_bytes out.old ++ (32 ∷ decimal pt.0)) }
{
    out.push_str(" ")?;
    put_decimal(out, pt.0 as u64)
}

fn put_optional_number(out: &mut String, pt: Option<Pt>) -> Result<(), AllocError>
    ensures { OnOk result (string_bytes out.new ≡ string_bytes out.old ++ spaced (map decimal (optional_number itself pt))) }
{
    if let Some(pt) = pt {
        put_number(out, pt)?;
    }
    Ok(())
}

fn put_row_numbers(out: &mut String, row: &PayloadRow) -> Result<(), AllocError>
    ensures { OnOk result (string_bytes out.new ≡ string_bytes out.old ++ spaced (map decimal (row_formats row.now))) }
{
    put_optional_number(out, row.red)?;
    put_number(out, row.pt)?;
    put_optional_number(out, row.rtx)?;
    Ok(())
}

fn put_numbers(out: &mut String, rows: &[PayloadRow]) -> Result<(), AllocError>
    ensures { OnOk result (string_bytes out.new ≡ string_bytes out.old ++ spaced (map decimal (formats_of rows.now))) }
{
    for row in rows {
        put_row_numbers(out, row)?;
    }
    Ok(())
}

#[tactic(auto, unfolding(rtc_sdp_grammar::specs::LineTexts::media_line))]
fn put_audio(out: &mut String, disabled: bool, rows: &[PayloadRow]) -> Result<(), AllocError>
    ensures { OnOk result (string_bytes out.new ≡ string_bytes out.old ++ crlf (spec.media_line Audio disabled (formats_of rows.now))) }
{
    let port = port_word(disabled);
    write!(out, "m=audio {port} UDP/TLS/RTP/SAVPF")?;
    put_numbers(out, rows)?;
    out.push_str("\r\n")?;
    Ok(())
}

#[tactic(auto, unfolding(rtc_sdp_grammar::specs::LineTexts::media_line))]
fn put_video(out: &mut String, disabled: bool, rows: &[PayloadRow]) -> Result<(), AllocError>
    ensures { OnOk result (string_bytes out.new ≡ string_bytes out.old ++ crlf (spec.media_line Video disabled (formats_of rows.now))) }
{
    let port = port_word(disabled);
    write!(out, "m=video {port} UDP/TLS/RTP/SAVPF")?;
    put_numbers(out, rows)?;
    out.push_str("\r\n")?;
    Ok(())
}

#[tactic(auto, unfolding(rtc_sdp_grammar::specs::LineTexts::media_line))]
fn put_application(out: &mut String, disabled: bool) -> Result<(), AllocError>
    ensures { OnOk result (string_bytes out.new ≡ string_bytes out.old ++ crlf (spec.media_line Application disabled [])) }
{
    let port = port_word(disabled);
    write!(
        out,
        "m=application {port} UDP/DTLS/SCTP webrtc-datachannel\r\n"
    )?;
    Ok(())
}

#[tactic(auto, unfolding(rtc_sdp_grammar::specs::LineTexts::media_line))]
fn put_unknown(out: &mut String, disabled: bool) -> Result<(), AllocError>
    ensures { OnOk result (string_bytes out.new ≡ string_bytes out.old ++ crlf (spec.media_line Unknown disabled [])) }
{
    let port = port_word(disabled);
    write!(out, "m=unknown {port} UDP\r\n")?;
    Ok(())
}

/// The `m=` line of a line part. Media list the payload types of their rows: red, the codec's own, rtx of each.
#[tactic(auto, unfolding(rtc_sdp_grammar::specs::LineTexts::media_line))]
pub(crate) fn put_media(
    out: &mut String,
    kind: LineKind,
    disabled: bool,
    rows: &[PayloadRow],
) -> Result<(), AllocError>
    ensures { OnOk result (string_bytes out.new ≡ string_bytes out.old ++ crlf (spec.media_line kind disabled (formats_of rows.now))) }
{
    match kind {
        LineKind::Audio => put_audio(out, disabled, rows),
        LineKind::Video => put_video(out, disabled, rows),
        LineKind::Application => put_application(out, disabled),
        LineKind::Unknown => put_unknown(out, disabled),
    }
}
