//! The pair that is run over parts that fail.
ghost use Rattle.std.specs.Prelude.{◌≡◌, ◌≤◌, [], true, false, IfOk, None, length};
ghost use Rattle.rtc_plain_ice.specs.Contents.{fresh_ice};
ghost use Rattle.rtc_peer_core.specs.Built.{Builds};
ghost use Rattle.rtc_peer_core.specs.Formats.{config_formats, AreFormedFormats};
ghost use Rattle.rtc_peer_core.specs.Formed.{IsFormed, IsHostCandidate};
ghost use Rattle.rtc_peer_core.specs.Stance.{stance_of};
ghost use Rattle.rtc_peer_transport.specs.Connection.{no_transport};
ghost use Rattle.rtc_run_history.specs.Fresh.{ArePeersFormed, IsFresh, IsJustBuilt};
ghost use Rattle.rtc_run_laws.specs.Drains.{AreUndriven};
ghost use Rattle.rtc_run.specs.ProgramPair.{host_at};
ghost use Rattle.rtc_run_faulty.specs.FaultyParts.{faulty_parts, fresh_faulty_dtls, fresh_faulty_association, fresh_faulty_media};
ghost use Rattle.rtc_run_faulty.specs.FaultyPairs.{IsFaultyPeer, IsFaultyPair};

use crate::{CallWatch, FailingCalls, PartWatches};
use rtc_assoc_end::PlainAssociation;
use rtc_faulty::{Counted, Faulty};
use rtc_peer::{Rtc, RtcConfig};
use rtc_plain::{CountIds, PlainDtls, PlainIce, PlainMedia};
use rtc_run::{Pair, PeerSettings, add_address, program_config};
use rtc_wire::{Addr, Moment, Seq};
use std::alloc::{AllocError, Global};

/// A DTLS part in memory that fails at listed calls. All of its calls are counted, and so are those that reach the part inside.
pub type FaultyDtls = Counted<Faulty<Counted<PlainDtls>>>;

/// An association in memory that fails at listed calls, whose calls are counted likewise.
pub type FaultyAssociation = Counted<Faulty<Counted<PlainAssociation>>>;

/// A media part in memory that fails at listed calls, whose calls are counted likewise.
pub type FaultyMedia = Counted<Faulty<Counted<PlainMedia>>>;

/// A peer over these parts, which draws numbers by counting up.
pub type FaultyPeer = Rtc<PlainIce, FaultyDtls, FaultyAssociation, FaultyMedia, CountIds>;

/// A pair of such peers.
pub type FaultyPair = Pair<PlainIce, FaultyDtls, FaultyAssociation, FaultyMedia, CountIds>;

fn count_dtls(alloc: Global, failing: Seq<u64>, watch: &CallWatch) -> Result<FaultyDtls, AllocError>
    ensures { IfOk result (λ part. part ≡ fresh_faulty_dtls failing) }
{
    let reached = watch.reached()?;
    let made = watch.made()?;
    let inner = Counted::new(PlainDtls::new(alloc), reached);
    Ok(Counted::new(Faulty::new(inner, failing.into_vec()), made))
}

fn count_association(
    alloc: Global,
    failing: Seq<u64>,
    watch: &CallWatch,
) -> Result<FaultyAssociation, AllocError>
    ensures { IfOk result (λ part. part ≡ fresh_faulty_association failing) }
{
    let reached = watch.reached()?;
    let made = watch.made()?;
    let inner = Counted::new(PlainAssociation::new(alloc), reached);
    Ok(Counted::new(Faulty::new(inner, failing.into_vec()), made))
}

fn count_media(
    alloc: Global,
    failing: Seq<u64>,
    watch: &CallWatch,
) -> Result<FaultyMedia, AllocError>
    ensures { IfOk result (λ part. part ≡ fresh_faulty_media failing) }
{
    let reached = watch.reached()?;
    let made = watch.made()?;
    let inner = Counted::new(PlainMedia::new(alloc), reached);
    Ok(Counted::new(Faulty::new(inner, failing.into_vec()), made))
}

fn build_peer(
    alloc: Global,
    config: RtcConfig,
    first: u64,
    failing: FailingCalls,
    watches: &PartWatches,
) -> Result<FaultyPeer, AllocError>
    ensures built { IfOk result (λ rtc. Builds faulty_parts alloc config 0 fresh_ice (fresh_faulty_dtls failing.dtls)
        (fresh_faulty_association failing.association) (fresh_faulty_media failing.media) first rtc.core) }
    ensures unconnected { IfOk result (λ rtc. rtc.transport
        ≡ no_transport config.dtls.fingerprint_verification config.media.rtp_mode config.stats_interval) }
    ensures formed { IfOk result (λ rtc. config.ice.credentials ≡ None → AreFormedFormats (config_formats config)
        → IsFormed (stance_of faulty_parts rtc.core)) }
{
    let dtls = count_dtls(alloc, failing.dtls, &watches.dtls)?;
    let association = count_association(alloc, failing.association, &watches.association)?;
    let media = count_media(alloc, failing.media, &watches.media)?;
    Rtc::build(
        alloc,
        config,
        Moment::FAR_PAST,
        PlainIce::new(alloc),
        dtls,
        association,
        media,
        CountIds::starting(first),
    )
}

// A peer with a certificate and an address, whose numbers count up from `first`, and whose parts fail at these calls.
fn make_peer(
    alloc: Global,
    settings: PeerSettings,
    cert: &str,
    first: u64,
    addr: Addr,
    failing: FailingCalls,
    watches: &PartWatches,
) -> Result<FaultyPeer, AllocError>
    requires { length cert.now ≤ 1900 }
    ensures peer { IfOk result (λ rtc. IsFaultyPeer alloc settings cert.now first addr failing rtc.core) }
    ensures unconnected { IfOk result (λ rtc. rtc.transport ≡ no_transport true false settings.stats_interval) }
    ensures fresh { IfOk result (λ rtc. IsJustBuilt (stance_of faulty_parts rtc.core)) }
    ensures unused { IfOk result (λ rtc. rtc.core.sctp.entries ≡ []) }
    ensures formed { IfOk result (λ rtc. IsHostCandidate (host_at addr) → IsFormed (stance_of faulty_parts rtc.core)) }
{
    let config = program_config(alloc, settings, cert)?;
    let mut rtc = build_peer(alloc, config, first, failing, watches)?;
    add_address(alloc, &mut rtc, addr)?;
    Ok(rtc)
}

/// Two fresh peers at moment 0, each set to what is given, whose certificates, addresses and first numbers are those of the pair that
/// scripts are performed on. The parts of each fail at the calls that are listed for it.
pub fn make_faulty_pair(
    alloc: Global,
    left_settings: PeerSettings,
    right_settings: PeerSettings,
    left: FailingCalls,
    right: FailingCalls,
    left_watches: &PartWatches,
    right_watches: &PartWatches,
) -> Result<FaultyPair, AllocError>
    ensures state { IfOk result (λ pair. IsFaultyPair alloc left_settings right_settings left right pair) }
    ensures roles { IfOk result (λ pair.
        (pair.left.core.polite ≡ left_settings.polite) × (pair.right.core.polite ≡ right_settings.polite)) }
    ensures fresh { IfOk result (λ pair. IsFresh faulty_parts pair) }
    ensures formed { IfOk result (λ pair. ArePeersFormed faulty_parts pair) }
    ensures undriven { IfOk result (λ pair. AreUndriven faulty_parts pair) }
{
    let left_at = Addr {
        ip: [1, 1, 1, 1],
        port: 1000,
    };
    let right_at = Addr {
        ip: [2, 2, 2, 2],
        port: 2000,
    };
    let left = make_peer(alloc, left_settings, "abc", 1, left_at, left, left_watches)?;
    let right = make_peer(
        alloc,
        right_settings,
        "def",
        1_000_001,
        right_at,
        right,
        right_watches,
    )?;
    Ok(Pair::new(alloc, left, right, left_at, right_at))
}
