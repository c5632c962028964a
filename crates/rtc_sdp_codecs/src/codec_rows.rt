//! The codecs of a configuration.
ghost use Rattle.std.specs.Prelude.{◌≡◌, ◌==◌, ◌++◌, IfOk, OnOk};
ghost use Rattle.std.specs.List.{list_any};
ghost use Rattle.rtc_sdp_codecs.specs.Codec.{default_rows};
ghost use Rattle.rtc_sdp_codecs.specs.CodecRows as spec;

use crate::Codec;
use rtc_sdp_values::{CodecConfig, PayloadRow};
use rtc_wire::Seq;
use rtc_wire_text::same_letters;
use std::alloc::{AllocError, Global};

fn make_default_rows(alloc: Global) -> Result<Vec<PayloadRow>, AllocError>
    ensures { IfOk result (λ rows. rows.items ≡ default_rows) }
{
    let opus = Codec::Opus.row(alloc, false)?;
    let vp8 = Codec::Vp8.row(alloc, false)?;
    let h264 = Codec::H264.row(alloc, false)?;
    let h265 = Codec::H265.row(alloc, false)?;
    let vp9 = Codec::Vp9.row(alloc, false)?;
    let av1 = Codec::Av1.row(alloc, false)?;
    let rows = vec![in alloc; opus, vp8, h264, h265, vp9, av1]?;
    Ok(rows)
}

/// The default codecs of a peer.
pub fn make_default_codecs(alloc: Global) -> Result<CodecConfig, AllocError>
    ensures { IfOk result (λ codecs. codecs ≡ spec.default_codecs) }
{
    let rows = make_default_rows(alloc)?;
    let red_distances = vec![in alloc; 1]?;
    Ok(CodecConfig {
        rows: Seq::new(rows),
        red_distances: Seq::new(red_distances),
    })
}

fn drop_codec(rows: &mut Vec<PayloadRow>, codec: &str)
    ensures { rows.new.items ≡ spec.without_codec codec.now rows.old.items }
{
    rows.retain(|row| !same_letters(row.codec.as_str(), codec));
}

/// Enables a row, which then is the last in place of those of its codec, or disables its codec.
pub fn set_row(codecs: CodecConfig, row: PayloadRow, on: bool) -> Result<CodecConfig, AllocError>
    ensures { IfOk result (λ changed. changed ≡ spec.codecs_with row on codecs) }
{
    let CodecConfig {
        rows,
        red_distances,
    } = codecs;
    let mut rows = rows.into_vec();
    drop_codec(&mut rows, row.codec.as_str());
    if on {
        rows.push(row)?;
    }
    Ok(CodecConfig {
        rows: Seq::new(rows),
        red_distances,
    })
}

fn has_distance(listed: &[u32], distance: u32) -> bool
    ensures { result ≡ list_any (λ other. other == distance) listed.now }
{
    for other in listed {
        if *other == distance {
            return true;
        }
    }
    false
}

// Puts those of the distances that are listed at the end.
fn push_listed(found: &mut Vec<u32>, distances: &[u32], listed: &[u32]) -> Result<(), AllocError>
    ensures { OnOk result (found.new.items ≡ found.old.items ++ spec.listed_distances listed.now distances.now) }
{
    for distance in distances {
        if has_distance(listed, *distance) {
            found.push(*distance)?;
        }
    }
    Ok(())
}

/// How many packets back a redundant packet repeats (RFC 2198), from a list in any order.
pub fn collect_distances(alloc: Global, listed: &[u32]) -> Result<Vec<u32>, AllocError>
    ensures { IfOk result (λ distances. distances.items ≡ spec.repeated_distances listed.now) }
{
    let mut distances = vec![in alloc; 1]?;
    push_listed(&mut distances, &[2, 3, 4, 5, 6, 7, 8, 9, 10], listed)?;
    Ok(distances)
}
