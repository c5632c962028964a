//! Peers over the parts in memory.
ghost use Rattle.std.specs.Prelude.{◌≡◌, [], IfOk, OnOk, Ok, true, false, None};
ghost use Rattle.rtc_plain_ice.specs.Contents.{fresh_ice};
ghost use Rattle.rtc_plain_ice.specs.PlainMeaning.{plain_ice};
ghost use Rattle.rtc_plain_dtls.specs.Contents.{fresh_dtls};
ghost use Rattle.rtc_assoc_state.specs.Contents.{fresh_contents};
ghost use Rattle.rtc_plain_media.specs.MediaContents.{fresh_media};
ghost use Rattle.rtc_config.specs.RtcConfig.{default_config};
ghost use Rattle.rtc_peer_core.specs.Built.{Builds};
ghost use Rattle.rtc_peer_transport.specs.Connection.{no_transport};
ghost use Rattle.rtc.specs.PlainPeers.{IsPlainPeer, memory_parts, host_candidate};

use crate::PlainRtc;
use rtc_assoc_end::PlainAssociation;
use rtc_peer::{Candidate, Rtc, RtcConfig};
use rtc_plain::{CountIds, PlainDtls, PlainIce, PlainMedia};
use rtc_wire::{Addr, Moment, Protocol};
use std::alloc::{AllocError, Global};

fn build(alloc: Global, config: RtcConfig, first: u64) -> Result<PlainRtc, AllocError>
    ensures built { IfOk result (λ rtc. Builds memory_parts alloc config 0 fresh_ice fresh_dtls fresh_contents fresh_media first rtc.core) }
    ensures unconnected { IfOk result (λ rtc. rtc.transport
        ≡ no_transport config.dtls.fingerprint_verification config.media.rtp_mode config.stats_interval) }
{
    Rtc::build(
        alloc,
        config,
        Moment::FAR_PAST,
        PlainIce::new(alloc),
        PlainDtls::new(alloc),
        PlainAssociation::new(alloc),
        PlainMedia::new(alloc),
        CountIds::starting(first),
    )
}

// Gives a peer its address, which a fresh agent takes.
fn add_address(alloc: Global, rtc: &mut PlainRtc, address: Addr) -> Result<(), AllocError>
    requires { rtc.old.core.ice.settings.candidates ≡ [] }
    ensures added { OnOk result (plain_ice.local_added rtc.old.core.ice (host_candidate address) (Ok true) rtc.new.core.ice) }
    ensures others { rtc.new.core ≡ record rtc.old.core { ice = rtc.new.core.ice } }
    ensures connection { rtc.new.transport ≡ rtc.old.transport }
{
    let candidate = Candidate::host(alloc, address, Protocol::Udp)?;
    rtc.add_local_candidate(candidate)?;
    Ok(())
}

/// A peer in memory of a config, with its address, ready to negotiate. Its numbers count up from `first`: no two peers of a
/// simulation should draw the same ones.
pub fn build_plain_peer(
    alloc: Global,
    config: RtcConfig,
    first: u64,
    address: Addr,
) -> Result<PlainRtc, AllocError>
    ensures peer { IfOk result (λ rtc. IsPlainPeer alloc config first address rtc.core) }
    ensures unconnected { IfOk result (λ rtc. rtc.transport
        ≡ no_transport config.dtls.fingerprint_verification config.media.rtp_mode config.stats_interval) }
{
    let mut rtc = build(alloc, config, first)?;
    add_address(alloc, &mut rtc, address)?;
    Ok(rtc)
}

/// The same of the default config.
pub fn plain_peer(alloc: Global, first: u64, address: Addr) -> Result<PlainRtc, AllocError>
    ensures peer { IfOk result (λ rtc. IsPlainPeer alloc default_config first address rtc.core) }
    ensures unconnected { IfOk result (λ rtc. rtc.transport ≡ no_transport true false None) }
{
    let config = PlainRtc::builder(alloc)?;
    build_plain_peer(alloc, config, first, address)
}
