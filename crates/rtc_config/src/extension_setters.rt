//! Setters of header extensions.
ghost use Rattle.std.specs.Prelude.{◌≡◌, ◌≤◌, [], IfOk, OnOk};
ghost use Rattle.rtc_sdp_codecs.specs.CodecRows as spec;

use crate::RtcConfig;
use rtc_sdp_codecs::set_extension_row;
use rtc_sdp_values::{Extension, ExtensionMap};
use rtc_wire::Seq;
use rtc_wire_drops::whole;
use std::alloc::{AllocError, Global};
use std::mem;

fn no_extension(alloc: Global) -> ExtensionMap
    ensures { result ≡ record { rows = [] } }
{
    ExtensionMap {
        rows: Seq::empty(alloc),
    }
}

// Gives a header extension a number.
fn change_extensions(
    alloc: Global,
    extensions: &mut ExtensionMap,
    id: u8,
    extension: Extension,
) -> Result<(), AllocError>
    ensures { OnOk result (extensions.new ≡ spec.extensions_with id extension extensions.old) }
{
    let held = mem::replace(extensions, no_extension(alloc));
    *extensions = set_extension_row(held, id, extension)?;
    Ok(())
}

impl RtcConfig {
    /// Sets the header extensions.
    pub fn set_extension_map(mut self, extensions: ExtensionMap) -> RtcConfig
        ensures { result ≡ record self { extensions = extensions } }
    {
        self.extensions = extensions;
        self
    }

    /// Whether a line that this side adds takes, for each header extension, the number that the session already uses for
    /// it, or else a free one (RFC 8843, section 12). If not, which is the default, it has those of the configuration.
    pub fn set_session_extension_ids(mut self, enabled: bool) -> RtcConfig
        ensures { result ≡ record self { session_extension_ids = enabled } }
    {
        self.session_extension_ids = enabled;
        self
    }

    /// Drops every header extension.
    pub fn clear_extension_map(mut self) -> RtcConfig
        ensures { result ≡ record self { extensions = record { rows = [] } } }
    {
        self.extensions.rows.clear();
        self
    }

    /// Gives a header extension a number from 1 to 14 (RFC 8285, section 4.2). The extension that had it is removed.
    pub fn set_extension(mut self, id: u8, extension: Extension) -> Result<RtcConfig, AllocError>
        requires least { 1 ≤ id }
        requires most { id ≤ 14 }
        ensures { IfOk result (λ config. config ≡ record self { extensions = spec.extensions_with id extension self.extensions }) }
    {
        let changed = change_extensions(self.alloc, &mut self.extensions, id, extension);
        whole(self, changed)
    }
}
