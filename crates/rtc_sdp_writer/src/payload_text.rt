//! The lines of payload rows, put behind a text.
ghost use Rattle.std.specs.Prelude.{◌≡◌, ◌++◌, ◌∷◌, OnOk, codes, string_bytes, map};
ghost use Rattle.rtc_wire_text.specs.Lines.{crlf, text_of};
ghost use Rattle.rtc_sdp_grammar.specs.MediaTexts as spec;
ghost use Rattle.rtc_sdp_attributes.specs.AttributeTexts.{red_text, apt_text};
ghost use Rattle.rtc_sdp_reader.specs.PlainPayloads.{fmtp_row, own_fmtp};
ghost use Rattle.rtc_sdp_values.specs.declared.line_kind.LineKind.TheVariants.{Video};
ghost use Rattle.rtc_sdp_writer.specs.MediaRows as rows;

use itoa::Buffer;
use rtc_sdp_attributes::{put_apt, put_decimal, put_fmtp, put_red, put_rtpmap};
use rtc_sdp_values::{LineKind, PayloadRow, Pt};
use std::alloc::AllocError;

/// The codec of a payload type.
#[tactic(auto, unfolding(rtc_sdp_grammar::specs::MediaTexts::codec_line))]
fn put_codec(
    out: &mut String,
    pt: Pt,
    codec: &str,
    clock: u32,
    channels: u8,
) -> Result<(), AllocError>
    ensures { OnOk result (string_bytes out.new ≡ string_bytes out.old
        ++ crlf (spec.codec_line (record { pt = pt; codec = codec.now; clock = clock; channels = channels }))) }
{
    out.push_str("a=rtpmap:")?;
    put_rtpmap(out, pt, codec, clock, channels)?;
    out.push_str("\r\n")
}

/// The parameters of a payload type, if there are any.
#[tactic(auto, unfolding(rtc_sdp_grammar::specs::MediaTexts::parameters_line))]
fn put_parameters(out: &mut String, pt: Pt, text: &str) -> Result<(), AllocError>
    ensures { OnOk result (string_bytes out.new ≡ string_bytes out.old ++ text_of (map spec.parameters_line (own_fmtp pt.0 text.now))) }
{
    if text.is_empty() {
        return Ok(());
    }
    out.push_str("a=fmtp:")?;
    put_fmtp(out, pt, text)?;
    out.push_str("\r\n")
}

/// A kind of feedback to a payload type, whose number is written in decimal.
fn put_feedback_kind(out: &mut String, number: &str, kind: &str) -> Result<(), AllocError>
    ensures { OnOk result (string_bytes out.new ≡ string_bytes out.old
        ++ crlf (codes "a=rtcp-fb:" ++ (number.now ++ (32 ∷ kind.now)))) }
{
    out.push_str("a=rtcp-fb:")?;
    out.push_str(number)?;
    out.push_str(" ")?;
    out.push_str(kind)?;
    out.push_str("\r\n")
}

/// Three kinds, for which the number is made once.
#[tactic(auto, unfolding(rtc_sdp_grammar::specs::MediaTexts::feedback_line), using(rtc_wire_text::proofs::LineLemmas::appends))]
fn put_video_feedback(out: &mut String, pt: Pt) -> Result<(), AllocError>
    ensures { OnOk result (string_bytes out.new ≡ string_bytes out.old ++ text_of (rows.feedback_lines Video pt.0)) }
{
    let mut buffer = Buffer::new();
    let number = buffer.format(pt.0);
    put_feedback_kind(out, number, "nack")?;
    put_feedback_kind(out, number, "nack pli")?;
    put_feedback_kind(out, number, "ccm fir")
}

fn put_feedback(out: &mut String, kind: LineKind, pt: Pt) -> Result<(), AllocError>
    ensures { OnOk result (string_bytes out.new ≡ string_bytes out.old ++ text_of (rows.feedback_lines kind pt.0)) }
{
    match kind {
        LineKind::Video => put_video_feedback(out, pt),
        LineKind::Audio | LineKind::Application | LineKind::Unknown => Ok(()),
    }
}

#[tactic(auto, unfolding(rtc_sdp_grammar::specs::MediaTexts::parameters_line, rtc_sdp_attributes::specs::AttributeTexts::fmtp_text))]
fn put_red_parameters(out: &mut String, red: Pt, primary: Pt) -> Result<(), AllocError>
    ensures { OnOk result (string_bytes out.new ≡ string_bytes out.old
        ++ crlf (spec.parameters_line (fmtp_row (red_text primary.0) red.0))) }
{
    out.push_str("a=fmtp:")?;
    put_decimal(out, red.0 as u64)?;
    out.push_str(" ")?;
    put_red(out, primary)?;
    out.push_str("\r\n")
}

#[tactic(auto, unfolding(rtc_sdp_grammar::specs::MediaTexts::parameters_line, rtc_sdp_attributes::specs::AttributeTexts::fmtp_text))]
fn put_rtx_parameters(out: &mut String, rtx: Pt, primary: Pt) -> Result<(), AllocError>
    ensures { OnOk result (string_bytes out.new ≡ string_bytes out.old
        ++ crlf (spec.parameters_line (fmtp_row (apt_text primary.0) rtx.0))) }
{
    out.push_str("a=fmtp:")?;
    put_decimal(out, rtx.0 as u64)?;
    out.push_str(" ")?;
    put_apt(out, primary)?;
    out.push_str("\r\n")
}

#[tactic(auto, using(rtc_wire_text::proofs::LineLemmas::appends))]
fn put_red_lines(out: &mut String, row: &PayloadRow) -> Result<(), AllocError>
    ensures { OnOk result (string_bytes out.new ≡ string_bytes out.old ++ text_of (rows.red_lines row.now row.now.red)) }
{
    if let Some(red) = row.red {
        put_codec(out, red, "red", row.clock, row.channels)?;
        put_red_parameters(out, red, row.pt)?;
    }
    Ok(())
}

#[tactic(auto, using(rtc_wire_text::proofs::LineLemmas::appends))]
fn put_rtx_lines(out: &mut String, row: &PayloadRow) -> Result<(), AllocError>
    ensures { OnOk result (string_bytes out.new ≡ string_bytes out.old ++ text_of (rows.rtx_lines row.now row.now.rtx)) }
{
    if let Some(rtx) = row.rtx {
        put_codec(out, rtx, "rtx", row.clock, 1)?;
        put_rtx_parameters(out, rtx, row.pt)?;
    }
    Ok(())
}

#[tactic(auto, using(rtc_wire_text::proofs::LineLemmas::appends))]
fn put_payload(out: &mut String, kind: LineKind, row: &PayloadRow) -> Result<(), AllocError>
    ensures { OnOk result (string_bytes out.new ≡ string_bytes out.old ++ text_of (rows.payload_lines kind row.now)) }
{
    put_codec(out, row.pt, row.codec.as_str(), row.clock, row.channels)?;
    put_feedback(out, kind, row.pt)?;
    put_parameters(out, row.pt, row.fmtp.as_str())?;
    put_red_lines(out, row)?;
    put_rtx_lines(out, row)?;
    Ok(())
}

/// The lines of all payload rows.
pub(crate) fn put_payloads(
    out: &mut String,
    kind: LineKind,
    payloads: &[PayloadRow],
) -> Result<(), AllocError>
    ensures { OnOk result (string_bytes out.new ≡ string_bytes out.old ++ text_of (rows.all_payload_lines kind payloads.now)) }
{
    for row in payloads {
        put_payload(out, kind, row)?;
    }
    Ok(())
}
