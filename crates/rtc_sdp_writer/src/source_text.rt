//! The text lines of SSRCs, put behind a text.
ghost use Rattle.std.specs.Prelude.{◌≡◌, ◌++◌, OnOk, string_bytes, map};
ghost use Rattle.rtc_wire_text.specs.Lines.{crlf, text_of};
ghost use Rattle.rtc_sdp_grammar.specs.MediaTexts as spec;
ghost use Rattle.rtc_sdp_reader.specs.PlainSources.{source_pair, source_pairs};
ghost use Rattle.rtc_sdp_writer.specs.MediaRows as rows;
ghost use Rattle.rtc_sdp_writer.specs.Rows.{optional};

use rtc_sdp_attributes::{put_ssrc_msid, put_ssrc_name, put_ssrc_pair};
use rtc_sdp_values::{MediaLine, Msid, Ssrc};
use rtc_wire::Text;
use std::alloc::AllocError;

#[tactic(auto, unfolding(rtc_sdp_grammar::specs::MediaTexts::source_line))]
fn put_name(out: &mut String, ssrc: Ssrc, cname: &str) -> Result<(), AllocError>
    ensures { OnOk result (string_bytes out.new ≡ string_bytes out.old ++ crlf (spec.source_line (rows.named ssrc.0 cname.now))) }
{
    out.push_str("a=ssrc:")?;
    put_ssrc_name(out, ssrc, cname)?;
    out.push_str("\r\n")
}

fn put_name_if_any(out: &mut String, ssrc: Ssrc, cname: &Option<Text>) -> Result<(), AllocError>
    ensures { OnOk result (string_bytes out.new ≡ string_bytes out.old
        ++ text_of (optional (λ c. spec.source_line (rows.named ssrc.0 c)) cname.now)) }
{
    if let Some(cname) = cname {
        put_name(out, ssrc, cname.as_str())?;
    }
    Ok(())
}

#[tactic(auto, unfolding(rtc_sdp_grammar::specs::MediaTexts::source_stream_line))]
fn put_stream(out: &mut String, ssrc: Ssrc, msid: &Msid) -> Result<(), AllocError>
    ensures { OnOk result (string_bytes out.new ≡ string_bytes out.old ++ crlf (spec.source_stream_line ssrc.0 msid.now)) }
{
    out.push_str("a=ssrc:")?;
    put_ssrc_msid(out, ssrc, msid)?;
    out.push_str("\r\n")
}

fn put_stream_if_any(out: &mut String, ssrc: Ssrc, msid: &Option<Msid>) -> Result<(), AllocError>
    ensures { OnOk result (string_bytes out.new ≡ string_bytes out.old ++ text_of (optional (spec.source_stream_line ssrc.0) msid.now)) }
{
    if let Some(msid) = msid {
        put_stream(out, ssrc, msid)?;
    }
    Ok(())
}

#[tactic(auto, using(rtc_wire_text::proofs::LineLemmas::appends))]
fn put_number(out: &mut String, ssrc: Ssrc, line: &MediaLine) -> Result<(), AllocError>
    ensures { OnOk result (string_bytes out.new ≡ string_bytes out.old ++ text_of (rows.number_lines line.now.cname line.now.msid ssrc.0)) }
{
    put_name_if_any(out, ssrc, &line.cname)?;
    put_stream_if_any(out, ssrc, &line.msid)?;
    Ok(())
}

fn put_rtx_number(out: &mut String, rtx: Option<Ssrc>, line: &MediaLine) -> Result<(), AllocError>
    ensures { OnOk result (string_bytes out.new ≡ string_bytes out.old
        ++ text_of (rows.rtx_number_lines line.now.cname line.now.msid rtx)) }
{
    if let Some(rtx) = rtx {
        put_number(out, rtx, line)?;
    }
    Ok(())
}

#[tactic(auto, using(rtc_wire_text::proofs::LineLemmas::appends))]
fn put_source(
    out: &mut String,
    source: (Ssrc, Option<Ssrc>),
    line: &MediaLine,
) -> Result<(), AllocError>
    ensures { OnOk result (string_bytes out.new ≡ string_bytes out.old ++ text_of (rows.source_lines line.now.cname line.now.msid source)) }
{
    put_number(out, source.0, line)?;
    put_rtx_number(out, source.1, line)?;
    Ok(())
}

fn put_all_sources(
    out: &mut String,
    sources: &[(Ssrc, Option<Ssrc>)],
    line: &MediaLine,
) -> Result<(), AllocError>
    ensures { OnOk result (string_bytes out.new ≡ string_bytes out.old
        ++ text_of (rows.all_source_lines line.now.cname line.now.msid sources.now)) }
{
    for source in sources {
        put_source(out, *source, line)?;
    }
    Ok(())
}

#[tactic(auto, unfolding(rtc_sdp_grammar::specs::MediaTexts::source_pair_line))]
fn put_pair(out: &mut String, ssrc: Ssrc, rtx: Ssrc) -> Result<(), AllocError>
    ensures { OnOk result (string_bytes out.new ≡ string_bytes out.old ++ crlf (spec.source_pair_line (ssrc, rtx))) }
{
    out.push_str("a=ssrc-group:")?;
    put_ssrc_pair(out, ssrc, rtx)?;
    out.push_str("\r\n")?;
    Ok(())
}

fn put_pair_if_any(out: &mut String, source: (Ssrc, Option<Ssrc>)) -> Result<(), AllocError>
    ensures { OnOk result (string_bytes out.new ≡ string_bytes out.old
        ++ text_of (map spec.source_pair_line (source_pair source.0 source.1))) }
{
    if let Some(rtx) = source.1 {
        put_pair(out, source.0, rtx)?;
    }
    Ok(())
}

fn put_pairs(out: &mut String, sources: &[(Ssrc, Option<Ssrc>)]) -> Result<(), AllocError>
    ensures { OnOk result (string_bytes out.new ≡ string_bytes out.old ++ text_of (map spec.source_pair_line (source_pairs sources.now))) }
{
    for source in sources {
        put_pair_if_any(out, *source)?;
    }
    Ok(())
}

/// The SSRCs of a line that is not disabled, then their pairs.
#[tactic(auto, using(rtc_wire_text::proofs::LineLemmas::appends))]
pub(crate) fn put_sources_if_shown(out: &mut String, line: &MediaLine) -> Result<(), AllocError>
    ensures { OnOk result (string_bytes out.new ≡ string_bytes out.old
        ++ text_of (rows.all_source_lines line.now.cname line.now.msid (rows.shown_sources line.now)
        ++ map spec.source_pair_line (source_pairs (rows.shown_sources line.now)))) }
{
    if line.disabled {
        return Ok(());
    }
    put_all_sources(out, line.ssrcs.as_slice(), line)?;
    put_pairs(out, line.ssrcs.as_slice())?;
    Ok(())
}
