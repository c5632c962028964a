//! The header extensions of a media line.
ghost use Rattle.std.specs.Prelude.{◌≡◌, IfOk};
ghost use Rattle.std.specs.List.{list_any};
ghost use Rattle.rtc_sdp_values.specs.Extension.{same_extension};
ghost use Rattle.rtc_sdp_codecs.specs.FormedCodecs.{AreFormedExtensions};
ghost use Rattle.rtc_sdp_codecs.specs.LineFormats as spec;

use rtc_sdp_values::{Extension, MediaKind};
use std::alloc::{AllocError, Global};

fn suits_kind(kind: MediaKind, extension: Extension) -> bool
    ensures { result ≡ spec.suits_kind kind extension }
{
    match kind {
        MediaKind::Audio => extension.is_audio(),
        MediaKind::Video => extension.is_video(),
    }
}

/// The header extensions of a line of a kind that this side adds (RFC 8285, section 5).
pub fn extensions_of_kind(
    alloc: Global,
    kind: MediaKind,
    rows: &[(u8, Extension)],
) -> Result<Vec<(u8, Extension)>, AllocError>
    ensures rows { IfOk result (λ found. found.items ≡ spec.extensions_of_kind kind rows.now) }
    ensures formed { IfOk result (λ found. AreFormedExtensions rows.now → AreFormedExtensions found.items) }
{
    let mut found = Vec::new(alloc);
    for row in rows {
        if suits_kind(kind, row.1) {
            found.push(*row)?;
        }
    }
    Ok(found)
}

fn has_extension(rows: &[(u8, Extension)], extension: Extension) -> bool
    ensures { result ≡ list_any (λ row. same_extension row.1 extension) rows.now }
{
    for row in rows {
        if row.1 == extension {
            return true;
        }
    }
    false
}

/// The header extensions of a line that the other side sent: those that both have, with the other side's numbers (RFC 8285, section 6).
pub fn share_extensions(
    alloc: Global,
    rows: &[(u8, Extension)],
    remote: &[(u8, Extension)],
) -> Result<Vec<(u8, Extension)>, AllocError>
    ensures rows { IfOk result (λ found. found.items ≡ spec.shared_extensions rows.now remote.now) }
    ensures formed { IfOk result (λ found. AreFormedExtensions remote.now → AreFormedExtensions found.items) }
{
    let mut found = Vec::new(alloc);
    for theirs in remote {
        if has_extension(rows, theirs.1) {
            found.push(*theirs)?;
        }
    }
    Ok(found)
}
