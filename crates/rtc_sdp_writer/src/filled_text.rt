//! Line parts whose m-lines have a format each, put behind a text.
ghost use Rattle.std.specs.Prelude.{◌≡◌, ◌++◌, OnOk, string_bytes};
ghost use Rattle.rtc_wire_text.specs.Lines.{crlf, text_of};
ghost use Rattle.rtc_sdp_writer.specs.Placeholders as spec;

use crate::head_text::put_media;
use crate::media_text::{put_kind, put_transport};
use rtc_sdp_values::{LineKind, MediaLine, PayloadRow};
use std::alloc::AllocError;

#[tactic(auto, unfolding(rtc_sdp_grammar::specs::LineTexts::media_line))]
fn put_rejected(out: &mut String, kind: LineKind) -> Result<(), AllocError>
    ensures { OnOk result (string_bytes out.new ≡ string_bytes out.old ++ crlf (spec.rejected_line kind)) }
{
    out.push_str(match kind {
        LineKind::Audio => "m=audio 0 UDP/TLS/RTP/SAVPF 0\r\n",
        LineKind::Video => "m=video 0 UDP/TLS/RTP/SAVPF 0\r\n",
        LineKind::Application => "m=application 0 UDP/DTLS/SCTP webrtc-datachannel\r\n",
        LineKind::Unknown => "m=unknown 0 UDP 0\r\n",
    })
}

fn put_filled_media(
    out: &mut String,
    kind: LineKind,
    disabled: bool,
    rows: &[PayloadRow],
) -> Result<(), AllocError>
    ensures { OnOk result (string_bytes out.new ≡ string_bytes out.old ++ crlf (spec.filled_media_line kind disabled rows.now)) }
{
    if !disabled {
        return put_media(out, kind, false, rows);
    }
    match rows {
        [] => put_rejected(out, kind),
        [_, ..] => put_media(out, kind, true, rows),
    }
}

#[tactic(auto, using(rtc_wire_text::proofs::LineLemmas::appends), unfolding(crate::specs::Placeholders::filled_line_rows))]
fn put_filled_line(out: &mut String, line: &MediaLine) -> Result<(), AllocError>
    ensures { OnOk result (string_bytes out.new ≡ string_bytes out.old ++ text_of (spec.filled_line_rows line.now)) }
{
    put_filled_media(out, line.kind, line.disabled, line.payloads.as_slice())?;
    put_transport(out, line)?;
    put_kind(out, line)?;
    Ok(())
}

/// All line parts.
pub(crate) fn put_filled_lines(out: &mut String, lines: &[MediaLine]) -> Result<(), AllocError>
    ensures { OnOk result (string_bytes out.new ≡ string_bytes out.old ++ text_of (spec.all_filled_line_rows lines.now)) }
{
    for line in lines {
        put_filled_line(out, line)?;
    }
    Ok(())
}
