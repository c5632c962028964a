//! What is kept of a peer.
ghost use Rattle.std.specs.Prelude.{◌≡◌, [], IfOk, true, false, None};
ghost use Rattle.rtc_peer_transport.specs.Connection.{no_transport};
ghost use Rattle.rtc.specs.PlainPeers.{IsPlainPeer};
ghost use Rattle.rtc_c_handle.specs.Settings.{addr_of, config_of_settings};
ghost use Rattle.rtc_c_handle.specs.declared.output_bytes.OutputBytes.TheVariants.{Nothing};

use crate::{OutputBytes, Settings, WantedChange};
use rtc::{PlainRtc, SdpPendingOffer, Seq, Text, build_plain_peer};
use std::alloc::{AllocError, Global};

/// A peer over the parts in memory, with what a caller in C does not hold itself.
pub struct Held {
    pub rtc: PlainRtc,
    /// The token of its own offer.
    pub token: Option<SdpPendingOffer>,
    /// The offer or answer that is to be sent to the other side.
    pub text: Text,
    /// The changes that the next offer is to make.
    pub wanted: Seq<WantedChange>,
    /// The bytes that come with what the last poll returned.
    pub output: OutputBytes,
}

// Written out, so that the proof of what owns a peer sees one call and not the drop of each field.
impl Drop for Held {
    fn drop(self) {
        let Held {
            rtc: _rtc,
            token: _token,
            text: _text,
            wanted: _wanted,
            output: _output,
        } = self;
    }
}

impl Held {
    /// Returns a peer with its address, of which nothing was asked yet.
    pub fn build(alloc: Global, settings: &Settings, role: Option<bool>) -> Result<Held, AllocError>
        ensures peer { IfOk result (λ held. IsPlainPeer alloc (config_of_settings settings.now role)
            settings.now.first (addr_of settings.now.address) held.rtc.core) }
        ensures unconnected { IfOk result (λ held. held.rtc.transport ≡ no_transport true false None) }
        ensures token { IfOk result (λ held. held.token ≡ None) }
        ensures text { IfOk result (λ held. held.text ≡ []) }
        ensures wanted { IfOk result (λ held. held.wanted ≡ []) }
        ensures output { IfOk result (λ held. held.output ≡ Nothing) }
    {
        let config = settings.config(alloc, role)?;
        let rtc = build_plain_peer(alloc, config, settings.first, settings.address.addr())?;
        let text = Text::from_str(alloc, "")?;
        Ok(Held {
            rtc,
            token: None,
            text,
            wanted: Seq::empty(alloc),
            output: OutputBytes::Nothing,
        })
    }
}
