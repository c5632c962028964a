//! The header extensions of a configuration.
ghost use Rattle.std.specs.Prelude.{◌≡◌, ◌==◌, IfOk, filter, not};
ghost use Rattle.rtc_sdp_codecs.specs.CodecRows as spec;

use rtc_sdp_values::{Extension, ExtensionMap};
use rtc_wire::Seq;
use std::alloc::AllocError;

fn drop_number(rows: &mut Vec<(u8, Extension)>, id: u8)
    ensures { rows.new.items ≡ filter (λ row. not (row.0 == id)) rows.old.items }
{
    rows.retain(|row| row.0 != id);
}

/// Puts an extension last, in place of that of its number (RFC 8285, section 4.2).
pub fn set_extension_row(
    extensions: ExtensionMap,
    id: u8,
    extension: Extension,
) -> Result<ExtensionMap, AllocError>
    ensures { IfOk result (λ changed. changed ≡ spec.extensions_with id extension extensions) }
{
    let mut rows = extensions.rows.into_vec();
    drop_number(&mut rows, id);
    rows.push((id, extension))?;
    Ok(ExtensionMap {
        rows: Seq::new(rows),
    })
}
