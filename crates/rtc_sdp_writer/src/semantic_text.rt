//! The names of streams, put behind a text.
ghost use Rattle.std.specs.Prelude.{◌≡◌, ◌++◌, ◌||◌, ℕ, List, OnOk, option_map, string_bytes};
ghost use Rattle.rtc_wire_text.specs.Lines.{crlf};
ghost use Rattle.rtc_wire_text.specs.Words.{spaced};
ghost use Rattle.rtc_sdp_grammar.specs.MediaTexts.{semantic_line};
ghost use Rattle.rtc_sdp_writer.specs.MediaRows.{shown_stream};
ghost use Rattle.rtc_sdp_writer.specs.SessionRows.{is_stream, stream_names};
ghost use Rattle.rtc_sdp_writer.specs.StreamNames as spec;

use rtc_sdp_values::MediaLine;
use std::alloc::AllocError;
use std::collections::BTreeMap;
use std::fmt::Write;

/// The name of a line's stream, if the line shows it.
fn shown_name(line: &MediaLine) -> Option<&str>
    ensures { option_map (λ name. name.now) result ≡ option_map (λ msid. msid.stream_id) (shown_stream line.now) }
{
    if line.disabled {
        return None;
    }
    match &line.msid {
        Some(msid) => Some(msid.stream_id.as_str()),
        None => None,
    }
}

/// The name of the stream of the line at a place, unless a line in front has it. A map keeps the places of the names, so that the
/// time is not in the square of the lines.
fn put_new_name<'a>(
    out: &mut String,
    found: &mut BTreeMap<&'a str, usize>,
    place: usize,
    line: &'a MediaLine,
) -> Result<(), AllocError>
    ensures put { OnOk result (string_bytes out.new ≡ string_bytes out.old ++ spaced (spec.new_to found.old (shown_stream line.now))) }
    ensures found { OnOk result ((name : List ℕ) → spec.is_found found.new name
        ≡ (spec.is_found found.old name || is_stream name (shown_stream line.now))) }
{
    let Some(name) = shown_name(line) else {
        return Ok(());
    };
    if found.contains_key(name) {
        return Ok(());
    }
    found.insert(name, place)?;
    write!(out, " {name}")?;
    Ok(())
}

/// The line that names the streams of the lines that are not disabled.
#[tactic(auto, unfolding(rtc_sdp_grammar::specs::MediaTexts::semantic_line))]
pub(crate) fn put_semantic(out: &mut String, lines: &[MediaLine]) -> Result<(), AllocError>
    ensures { OnOk result (string_bytes out.new ≡ string_bytes out.old ++ crlf (semantic_line (stream_names lines.now))) }
{
    out.push_str("a=msid-semantic: WMS")?;
    let mut found = BTreeMap::new(*out.allocator());
    for i in 0..lines.len() {
        put_new_name(out, &mut found, i, &lines[i])?;
    }
    out.push_str("\r\n")
}
