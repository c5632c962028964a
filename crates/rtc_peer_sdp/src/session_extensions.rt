//! Header extensions by the numbers that a session uses (RFC 8843, section 12).
ghost use Rattle.std.specs.Prelude.{◌≡◌, ◌++◌, not, ◌&&◌, [], ◌∷◌, IfOk, OnOk};
ghost use Rattle.rtc_peer_core.specs.SessionExtensions as spec;

use rtc_peer_core::{Formats, ToldRow};
use rtc_sdp_values::{Extension, ExtensionMap};
use rtc_wire::{Seq, TryCopy};
use std::alloc::{AllocError, Global};

fn is_taken(rows: &[(u8, Extension)], id: u8) -> bool
    ensures { result ≡ spec.is_number_taken rows.now id }
{
    for row in rows {
        if row.0 == id {
            return true;
        }
    }
    false
}

fn has_extension(rows: &[(u8, Extension)], extension: Extension) -> bool
    ensures { result ≡ spec.has_extension rows.now extension }
{
    for row in rows {
        if row.1 == extension {
            return true;
        }
    }
    false
}

// The number that the session uses for an extension, unless a row that was made has it.
fn session_id(
    used: &[(u8, Extension)],
    made: &[(u8, Extension)],
    extension: Extension,
) -> Option<u8>
    ensures { result ≡ spec.session_id used.now made.now extension }
{
    for row in used {
        if row.1 == extension && !is_taken(made, row.0) {
            return Some(row.0);
        }
    }
    None
}

// The first of these numbers that neither the session nor a row that was made has.
fn free_id(used: &[(u8, Extension)], made: &[(u8, Extension)], ids: &[u8]) -> Option<u8>
    ensures { result ≡ spec.free_id used.now made.now ids.now }
{
    for id in ids {
        if !is_taken(used, *id) && !is_taken(made, *id) {
            return Some(*id);
        }
    }
    None
}

// The number of a row of the configuration in a session.
fn number_for(
    used: &[(u8, Extension)],
    made: &[(u8, Extension)],
    row: (u8, Extension),
) -> Option<u8>
    ensures { result ≡ spec.number_for used.now made.now row }
{
    match session_id(used, made, row.1) {
        Some(id) => Some(id),
        None => free_id(
            used,
            made,
            &[row.0, 1, 2, 3, 4, 5, 6, 7, 8, 9, 10, 11, 12, 13, 14],
        ),
    }
}

// Puts an extension last that no row has yet, unless no number is left for it.
fn push_extension(
    used: &[(u8, Extension)],
    made: &mut Vec<(u8, Extension)>,
    row: (u8, Extension),
) -> Result<(), AllocError>
    ensures { OnOk result (made.new.items ≡ spec.with_extension used.now made.old.items row) }
{
    if has_extension(made.as_slice(), row.1) {
        return Ok(());
    }
    match number_for(used, made.as_slice(), row) {
        Some(id) => {
            made.push((id, row.1))?;
            Ok(())
        }
        None => Ok(()),
    }
}

// The extensions of a configuration by the numbers of a session.
fn number_extensions(
    alloc: Global,
    used: &[(u8, Extension)],
    rows: &[(u8, Extension)],
) -> Result<Vec<(u8, Extension)>, AllocError>
    ensures { IfOk result (λ made. made.items ≡ spec.numbered_extensions used.now [] rows.now) }
{
    let mut made = Vec::new(alloc);
    for row in rows {
        push_extension(used, &mut made, *row)?;
    }
    Ok(made)
}

// The extensions of the lines of a session.
fn list_extensions(alloc: Global, told: &[ToldRow]) -> Result<Vec<(u8, Extension)>, AllocError>
    ensures { IfOk result (λ used. used.items ≡ spec.told_extensions told.now) }
{
    let mut used = Vec::new(alloc);
    for row in told {
        used.extend_from_slice(row.media.exts.as_slice())?;
    }
    Ok(used)
}

/// What the lines that an offer adds are made of, if they take the numbers of its session.
pub fn number_formats(
    alloc: Global,
    formats: &Formats,
    told: &[ToldRow],
) -> Result<Formats, AllocError>
    ensures { IfOk result (λ made. made ≡ spec.session_formats formats.now (spec.told_extensions told.now)) }
{
    let used = list_extensions(alloc, told)?;
    let rows = number_extensions(alloc, used.as_slice(), formats.extensions.rows.as_slice())?;
    let codecs = formats.codecs.copy()?;
    Ok(Formats {
        codecs,
        extensions: ExtensionMap {
            rows: Seq::new(rows),
        },
        session_ids: formats.session_ids,
    })
}
