//! The lines of header extensions, streams and layers, put behind a text.
ghost use Rattle.std.specs.Prelude.{◌≡◌, ◌++◌, OnOk, string_bytes, map};
ghost use Rattle.rtc_wire_text.specs.Lines.{crlf, text_of};
ghost use Rattle.rtc_sdp_grammar.specs.MediaTexts as spec;
ghost use Rattle.rtc_sdp_reader.specs.PlainLayers.{rid_line, rid_lines};
ghost use Rattle.rtc_sdp_writer.specs.MediaRows as rows;
ghost use Rattle.rtc_sdp_writer.specs.Rows.{optional};

use rtc_sdp_attributes::{RidDirection, put_extmap, put_msid, put_rid, put_simulcast};
use rtc_sdp_values::{Extension, MediaLine, Msid, Simulcast, SimulcastLayer};
use std::alloc::AllocError;

#[tactic(auto, unfolding(rtc_sdp_grammar::specs::MediaTexts::extension_line))]
fn put_extension(out: &mut String, row: (u8, Extension)) -> Result<(), AllocError>
    ensures { OnOk result (string_bytes out.new ≡ string_bytes out.old ++ crlf (spec.extension_line row)) }
{
    out.push_str("a=extmap:")?;
    put_extmap(out, row.0, row.1)?;
    out.push_str("\r\n")
}

/// The header extensions.
pub(crate) fn put_extensions(out: &mut String, exts: &[(u8, Extension)]) -> Result<(), AllocError>
    ensures { OnOk result (string_bytes out.new ≡ string_bytes out.old ++ text_of (map spec.extension_line exts.now)) }
{
    for row in exts {
        put_extension(out, *row)?;
    }
    Ok(())
}

#[tactic(auto, unfolding(rtc_sdp_grammar::specs::MediaTexts::stream_line))]
fn put_stream(out: &mut String, msid: &Msid) -> Result<(), AllocError>
    ensures { OnOk result (string_bytes out.new ≡ string_bytes out.old ++ crlf (spec.stream_line msid.now)) }
{
    out.push_str("a=msid:")?;
    put_msid(out, msid)?;
    out.push_str("\r\n")
}

/// The stream of a line that is not disabled.
pub(crate) fn put_stream_if_shown(out: &mut String, line: &MediaLine) -> Result<(), AllocError>
    ensures { OnOk result (string_bytes out.new ≡ string_bytes out.old
        ++ text_of (optional spec.stream_line (rows.shown_stream line.now))) }
{
    if line.disabled {
        return Ok(());
    }
    if let Some(msid) = &line.msid {
        put_stream(out, msid)?;
    }
    Ok(())
}

#[tactic(auto, unfolding(rtc_sdp_grammar::specs::MediaTexts::layer_line))]
fn put_layer(
    out: &mut String,
    direction: RidDirection,
    layer: &SimulcastLayer,
) -> Result<(), AllocError>
    ensures { OnOk result (string_bytes out.new ≡ string_bytes out.old ++ crlf (spec.layer_line (rid_line direction layer.now))) }
{
    out.push_str("a=rid:")?;
    put_rid(out, &layer.rid, direction, layer.attributes.as_slice())?;
    out.push_str("\r\n")
}

fn put_layers_one_way(
    out: &mut String,
    direction: RidDirection,
    layers: &[SimulcastLayer],
) -> Result<(), AllocError>
    ensures { OnOk result (string_bytes out.new ≡ string_bytes out.old
        ++ text_of (map spec.layer_line (map (rid_line direction) layers.now))) }
{
    for layer in layers {
        put_layer(out, direction, layer)?;
    }
    Ok(())
}

fn put_layers(out: &mut String, simulcast: &Simulcast) -> Result<(), AllocError>
    ensures { OnOk result (string_bytes out.new ≡ string_bytes out.old ++ text_of (map spec.layer_line (rid_lines simulcast.now))) }
{
    put_layers_one_way(out, RidDirection::Recv, simulcast.recv.as_slice())?;
    put_layers_one_way(out, RidDirection::Send, simulcast.send.as_slice())?;
    Ok(())
}

#[tactic(auto, unfolding(rtc_sdp_grammar::specs::MediaTexts::layer_list_line))]
fn put_layer_list(out: &mut String, simulcast: &Simulcast) -> Result<(), AllocError>
    ensures { OnOk result (string_bytes out.new ≡ string_bytes out.old ++ crlf (spec.layer_list_line simulcast.now)) }
{
    out.push_str("a=simulcast:")?;
    put_simulcast(out, simulcast)?;
    out.push_str("\r\n")?;
    Ok(())
}

/// The layers, those that are received first, and their lists.
#[tactic(auto, using(rtc_wire_text::proofs::LineLemmas::appends))]
pub(crate) fn put_simulcast_if_any(
    out: &mut String,
    simulcast: &Option<Simulcast>,
) -> Result<(), AllocError>
    ensures { OnOk result (string_bytes out.new ≡ string_bytes out.old
        ++ text_of (map spec.layer_line (rows.layers_in simulcast.now) ++ optional spec.layer_list_line simulcast.now)) }
{
    if let Some(simulcast) = simulcast {
        put_layers(out, simulcast)?;
        put_layer_list(out, simulcast)?;
    }
    Ok(())
}
