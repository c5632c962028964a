//! Calls on the ICE agent.
ghost use Rattle.std.specs.Prelude.{◌≡◌, IfOk};
ghost use Rattle.rtc_peer_direct.specs.IceCalls.{SetsControlling, SetsLite, SetsLocalCreds, SetsRemoteCreds, InvalidatesCandidate};

use rtc_parts::{Association, IceAgent};
use rtc_peer_transport::PolledPeer;
use rtc_sdp_values::{Candidate, IceCreds};
use rtc_wire::TryCopy;
use std::alloc::AllocError;

/// Sets whether this side is controlling (RFC 8445, section 6.1.1).
pub fn set_ice_controlling<I: IceAgent, D, S: Association, M, N>(
    peer: &mut PolledPeer<I, D, S, M, N>,
    on: bool,
)
    ensures { SetsControlling I.ice on peer.old peer.new }
{
    peer.core.ice.set_controlling(on);
}

/// Sets whether this side only answers checks (RFC 8445, section 2.5).
pub fn set_ice_lite<I: IceAgent, D, S: Association, M, N>(
    peer: &mut PolledPeer<I, D, S, M, N>,
    on: bool,
)
    ensures { SetsLite I.ice on peer.old peer.new }
{
    peer.core.ice.set_ice_lite(on);
}

/// Sets the credentials of this side.
pub fn set_local_credentials<I: IceAgent, D, S: Association, M, N>(
    peer: &mut PolledPeer<I, D, S, M, N>,
    creds: IceCreds,
)
    ensures { SetsLocalCreds I.ice creds peer.old peer.new }
{
    peer.core.ice.set_local_credentials(creds);
}

/// Sets the credentials of the other side.
pub fn set_remote_credentials<I: IceAgent, D, S: Association, M, N>(
    peer: &mut PolledPeer<I, D, S, M, N>,
    creds: IceCreds,
)
    ensures { SetsRemoteCreds I.ice creds peer.old peer.new }
{
    peer.core.ice.set_remote_credentials(creds);
}

/// Stops using a candidate. Returns whether it was there.
pub fn invalidate_candidate<I: IceAgent, D, S: Association, M, N>(
    peer: &mut PolledPeer<I, D, S, M, N>,
    candidate: &Candidate,
) -> bool
    ensures { InvalidatesCandidate I.ice candidate.now result peer.old peer.new }
{
    peer.core.ice.invalidate_candidate(candidate)
}

/// The credentials of this side, copied.
pub fn copy_local_credentials<I: IceAgent, D, S: Association, M, N>(
    peer: &PolledPeer<I, D, S, M, N>,
) -> Result<IceCreds, AllocError>
    ensures { IfOk result (λ creds. creds ≡ (I.ice.settings peer.now.core.ice).local) }
{
    let creds = peer.core.ice.local_credentials().copy()?;
    Ok(creds)
}
