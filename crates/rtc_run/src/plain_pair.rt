//! The pair that scripts are performed on.
ghost use Rattle.std.specs.Prelude.{◌≡◌, ◌≤◌, [], true, false, IfOk, None, length};
ghost use Rattle.rtc_plain_ice.specs.Contents.{fresh_ice};
ghost use Rattle.rtc_plain_dtls.specs.Contents.{fresh_dtls};
ghost use Rattle.rtc_assoc_state.specs.Contents.{fresh_contents};
ghost use Rattle.rtc_plain_media.specs.MediaContents.{fresh_media};
ghost use Rattle.rtc_peer_core.specs.Built.{Builds};
ghost use Rattle.rtc_peer_core.specs.Formats.{config_formats, AreFormedFormats};
ghost use Rattle.rtc_peer_core.specs.Formed.{IsFormed, IsHostCandidate};
ghost use Rattle.rtc_peer_core.specs.Stance.{stance_of};
ghost use Rattle.rtc_run_history.specs.Fresh.{ArePeersFormed};
ghost use Rattle.rtc_run_history.specs.Fresh.{IsFresh, IsJustBuilt};
ghost use Rattle.rtc_peer_transport.specs.Connection.{no_transport};
ghost use Rattle.rtc_run.specs.ProgramPair.{plain_parts, host_at, IsProgramPeer, IsProgramPair};

use crate::program_peers::{add_address, program_config};
use crate::{Pair, PeerSettings};
use rtc_assoc_end::PlainAssociation;
use rtc_peer::{Rtc, RtcConfig};
use rtc_plain::{CountIds, PlainDtls, PlainIce, PlainMedia};
use rtc_wire::{Addr, Moment};
use std::alloc::{AllocError, Global};

/// A peer over parts in memory, which draws numbers by counting up.
pub type PlainPeer = Rtc<PlainIce, PlainDtls, PlainAssociation, PlainMedia, CountIds>;

/// A pair of such peers.
pub type PlainPair = Pair<PlainIce, PlainDtls, PlainAssociation, PlainMedia, CountIds>;

fn build_peer(alloc: Global, config: RtcConfig, first: u64) -> Result<PlainPeer, AllocError>
    ensures built { IfOk result (λ rtc. Builds plain_parts alloc config 0 fresh_ice fresh_dtls fresh_contents fresh_media first rtc.core) }
    ensures unconnected { IfOk result (λ rtc. rtc.transport
        ≡ no_transport config.dtls.fingerprint_verification config.media.rtp_mode config.stats_interval) }
    ensures formed { IfOk result (λ rtc. config.ice.credentials ≡ None → AreFormedFormats (config_formats config)
        → IsFormed (stance_of plain_parts rtc.core)) }
{
    Rtc::build(
        alloc,
        config,
        Moment::FAR_PAST,
        PlainIce::new(alloc),
        PlainDtls::new(alloc),
        PlainAssociation::new(alloc),
        PlainMedia::new(alloc),
        CountIds::starting(first),
    )
}

/// A peer with the certificate `name` and an address, whose numbers count up from `first`.
pub fn make_peer(
    alloc: Global,
    settings: PeerSettings,
    name: &str,
    first: u64,
    addr: Addr,
) -> Result<PlainPeer, AllocError>
    requires { length name.now ≤ 1900 }
    ensures peer { IfOk result (λ rtc. IsProgramPeer alloc settings name.now first addr rtc.core) }
    ensures unconnected { IfOk result (λ rtc. rtc.transport ≡ no_transport true false settings.stats_interval) }
    ensures fresh { IfOk result (λ rtc. IsJustBuilt (stance_of plain_parts rtc.core)) }
    ensures unused { IfOk result (λ rtc. rtc.core.sctp.entries ≡ []) }
    ensures formed { IfOk result (λ rtc. IsHostCandidate (host_at addr) → IsFormed (stance_of plain_parts rtc.core)) }
{
    let config = program_config(alloc, settings, name)?;
    let mut rtc = build_peer(alloc, config, first)?;
    add_address(alloc, &mut rtc, addr)?;
    Ok(rtc)
}

/// Two fresh peers at moment 0, each set to what is given. Their certificates, addresses and first numbers are fixed,
/// so that every report is known beforehand.
pub fn make_pair(
    alloc: Global,
    left_settings: PeerSettings,
    right_settings: PeerSettings,
) -> Result<PlainPair, AllocError>
    ensures state { IfOk result (λ pair. IsProgramPair alloc left_settings right_settings pair) }
    ensures fresh { IfOk result (λ pair. IsFresh plain_parts pair) }
    ensures formed { IfOk result (λ pair. ArePeersFormed plain_parts pair) }
{
    let left_addr = Addr {
        ip: [1, 1, 1, 1],
        port: 1000,
    };
    let right_addr = Addr {
        ip: [2, 2, 2, 2],
        port: 2000,
    };
    let left = make_peer(alloc, left_settings, "abc", 1, left_addr)?;
    let right = make_peer(alloc, right_settings, "def", 1_000_001, right_addr)?;
    Ok(Pair::new(alloc, left, right, left_addr, right_addr))
}
