//! What a peer of the program is built from, and the address that it is given.
ghost use Rattle.std.specs.Prelude.{◌≡◌, ◌≤◌, [], true, IfOk, OnOk, Ok, length};
ghost use Rattle.rtc_plain_ice.specs.PlainMeaning.{plain_ice};
ghost use Rattle.rtc_peer_core.specs.Formats.{config_formats, AreFormedFormats};
ghost use Rattle.rtc_run.specs.ProgramPair.{host_at, program_config};

use crate::PeerSettings;
use rtc_peer::{Association, Candidate, DtlsInstance, Ids, MediaSession, Rtc, RtcConfig};
use rtc_plain::PlainIce;
use rtc_wire::{Addr, Protocol};
use std::alloc::{AllocError, Global};

/// The config of a peer with these settings and the certificate `name`.
#[tactic(auto, using(rtc_peer_core::proofs::BuiltPeers::formats_formed))]
pub fn program_config(
    alloc: Global,
    settings: PeerSettings,
    name: &str,
) -> Result<RtcConfig, AllocError>
    requires { length name.now ≤ 1900 }
    ensures value { IfOk result (λ config. config ≡ program_config settings name.now) }
    ensures formed { IfOk result (λ config. AreFormedFormats (config_formats config)) }
{
    let mut cert = Vec::new(alloc);
    cert.extend_from_slice(name.as_bytes())?;
    let config = RtcConfig::new(alloc)?;
    Ok(
        config
            .set_ice_lite(settings.lite)
            .set_dtls_cert(cert)
            .set_snap_enabled(settings.snap)
            .set_sctp_max_buffered_amount(settings.max_buffered)
            .set_sctp_max_message_size(settings.max_message_size)
            .set_stats_interval(settings.stats_interval)
            .set_polite(settings.polite),
    )
}

/// Gives a peer over the ICE agent in memory its address, which a fresh agent takes.
pub fn add_address<D: DtlsInstance, S: Association, M: MediaSession, N: Ids>(
    alloc: Global,
    rtc: &mut Rtc<PlainIce, D, S, M, N>,
    addr: Addr,
) -> Result<(), AllocError>
    requires { rtc.old.core.ice.settings.candidates ≡ [] }
    ensures added { OnOk result (plain_ice.local_added rtc.old.core.ice (host_at addr) (Ok true) rtc.new.core.ice) }
    ensures others { rtc.new.core ≡ record rtc.old.core { ice = rtc.new.core.ice } }
    ensures connection { rtc.new.transport ≡ rtc.old.transport }
{
    let candidate = Candidate::host(alloc, addr, Protocol::Udp)?;
    rtc.add_local_candidate(candidate)?;
    Ok(())
}
