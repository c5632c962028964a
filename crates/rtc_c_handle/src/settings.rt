//! What C builds a peer from.
ghost use Rattle.std.specs.Prelude.{◌≡◌, IfOk, Some};
ghost use Rattle.rtc_config.specs.RtcConfig.{default_config};
ghost use Rattle.rtc_c_handle.specs.Settings.{config_of_settings, role_of_number};

use crate::Address;
use rtc::{PlainRtc, RtcConfig};
use std::alloc::{AllocError, Global};

/// What a peer is built from. If all is 0, it is the default, without an address.
#[repr(C)]
#[derive(Clone, Copy, Debug, PartialEq, Eq)]
pub struct Settings {
    /// Where the numbers of the peer begin to count. No two peers of a session should draw the same ones.
    pub first: u64,
    pub address: Address,
    /// What becomes of glare (RFC 3264, section 4): 0 if this is not set, 1 for a polite peer, 2 for an impolite one.
    pub role: u32,
    /// Whether the ICE agent is a lite one (RFC 8445, section 2.5).
    pub ice_lite: bool,
    /// Whether SNAP INIT chunks are exchanged in session descriptions (draft-hancke-tsvwg-snap).
    pub snap: bool,
}

// The role of a number.
pub(crate) fn role_of(number: u32) -> Option<Option<bool>>
    ensures { result ≡ role_of_number number }
{
    match number {
        0 => Some(None),
        1 => Some(Some(true)),
        2 => Some(Some(false)),
        _ => None,
    }
}

impl Settings {
    // The configuration of these settings, with a role.
    pub(crate) fn config(&self, alloc: Global, role: Option<bool>) -> Result<RtcConfig, AllocError>
        ensures { IfOk result (λ config. config ≡ config_of_settings self.now role) }
    {
        let config = PlainRtc::builder(alloc)?;
        let config = config.set_ice_lite(self.ice_lite);
        let config = config.set_snap_enabled(self.snap);
        Ok(config.set_polite(role))
    }
}
