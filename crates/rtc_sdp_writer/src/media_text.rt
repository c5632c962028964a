//! Line parts, put behind a text.
ghost use Rattle.std.specs.Prelude.{◌≡◌, ◌++◌, OnOk, string_bytes};
ghost use Rattle.rtc_wire_text.specs.Lines.{text_of};
ghost use Rattle.rtc_sdp_grammar.specs.LineTexts.{setup_line};
ghost use Rattle.rtc_sdp_writer.specs.Rows.{in_order, optional};
ghost use Rattle.rtc_sdp_writer.specs.LineRows as spec;

use crate::connection_text::{
    put_candidates, put_creds_if_any, put_fingerprint_if_any, put_message_size_if_any,
    put_sctp_init_if_any,
};
use crate::head_text::put_media;
use crate::layer_text::{put_extensions, put_simulcast_if_any, put_stream_if_shown};
use crate::line_text::{put_direction, put_mid, put_setup};
use crate::payload_text::put_payloads;
use crate::source_text::put_sources_if_shown;
use rtc_sdp_values::{LineKind, MediaLine, Setup};
use std::alloc::AllocError;

fn put_setup_if_any(out: &mut String, setup: Option<Setup>) -> Result<(), AllocError>
    ensures { OnOk result (string_bytes out.new ≡ string_bytes out.old ++ text_of (optional setup_line setup)) }
{
    if let Some(setup) = setup {
        put_setup(out, setup)?;
    }
    Ok(())
}

#[tactic(auto, using(rtc_wire_text::proofs::LineLemmas::appends), unfolding(crate::specs::LineRows::transport_groups))]
pub(crate) fn put_transport(out: &mut String, line: &MediaLine) -> Result<(), AllocError>
    ensures { OnOk result (string_bytes out.new ≡ string_bytes out.old ++ text_of (in_order (spec.transport_groups line.now))) }
{
    out.push_str("c=IN IP4 0.0.0.0\r\n")?;
    put_candidates(out, line.candidates.as_slice())?;
    put_creds_if_any(out, &line.creds)?;
    out.push_str("a=ice-options:trickle\r\n")?;
    put_fingerprint_if_any(out, &line.fingerprint)?;
    put_setup_if_any(out, line.setup)?;
    put_mid(out, line.mid)?;
    Ok(())
}

#[tactic(auto, using(rtc_wire_text::proofs::LineLemmas::appends), unfolding(crate::specs::LineRows::media_groups))]
fn put_medium(out: &mut String, kind: LineKind, line: &MediaLine) -> Result<(), AllocError>
    ensures { OnOk result (string_bytes out.new ≡ string_bytes out.old ++ text_of (in_order (spec.media_groups kind line.now))) }
{
    put_extensions(out, line.exts.as_slice())?;
    put_direction(out, line.dir)?;
    put_stream_if_shown(out, line)?;
    out.push_str("a=rtcp-mux\r\n")?;
    put_payloads(out, kind, line.payloads.as_slice())?;
    put_simulcast_if_any(out, &line.simulcast)?;
    put_sources_if_shown(out, line)?;
    Ok(())
}

#[tactic(auto, using(rtc_wire_text::proofs::LineLemmas::appends), unfolding(crate::specs::LineRows::channel_groups))]
fn put_channel(out: &mut String, line: &MediaLine) -> Result<(), AllocError>
    ensures { OnOk result (string_bytes out.new ≡ string_bytes out.old ++ text_of (in_order (spec.channel_groups line.now))) }
{
    out.push_str("a=sctp-port:5000\r\n")?;
    put_message_size_if_any(out, line.max_message_size)?;
    put_sctp_init_if_any(out, &line.sctp_init)?;
    Ok(())
}

pub(crate) fn put_kind(out: &mut String, line: &MediaLine) -> Result<(), AllocError>
    ensures { OnOk result (string_bytes out.new ≡ string_bytes out.old ++ text_of (in_order (spec.kind_groups line.now.kind line.now))) }
{
    match line.kind {
        LineKind::Audio => put_medium(out, LineKind::Audio, line),
        LineKind::Video => put_medium(out, LineKind::Video, line),
        LineKind::Application => put_channel(out, line),
        LineKind::Unknown => put_medium(out, LineKind::Unknown, line),
    }
}

#[tactic(auto, using(rtc_wire_text::proofs::LineLemmas::appends), unfolding(crate::specs::LineRows::line_rows))]
fn put_line(out: &mut String, line: &MediaLine) -> Result<(), AllocError>
    ensures { OnOk result (string_bytes out.new ≡ string_bytes out.old ++ text_of (spec.line_rows line.now)) }
{
    put_media(out, line.kind, line.disabled, line.payloads.as_slice())?;
    put_transport(out, line)?;
    put_kind(out, line)?;
    Ok(())
}

/// All line parts.
pub(crate) fn put_lines(out: &mut String, lines: &[MediaLine]) -> Result<(), AllocError>
    ensures { OnOk result (string_bytes out.new ≡ string_bytes out.old ++ text_of (spec.all_line_rows lines.now)) }
{
    for line in lines {
        put_line(out, line)?;
    }
    Ok(())
}
