//! The parts of a peer as an offer or an answer is followed, one after the other.
ghost use Rattle.std.specs.Prelude.{◌≡◌, true};
ghost use Rattle.rtc_sctp.specs.Calls.{are_whole};
ghost use Rattle.rtc_peer_negotiation.specs.Moves.{MovesParts};

use crate::following::{Following, follow, start_dtls};
use crate::starting::Starting;
use crate::starting_sctp::start_sctp;
use rtc_parts::{Association, Dtls, DtlsError, DtlsInstance, IceAgent, Ids, MediaSession};
use rtc_peer_core::{Peer, RtcError};
use rtc_peer_sdp::{role_after, role_for};
use rtc_sctp::RtcSctp;
use rtc_sdp_values::{LineRow, Sdp};
use rtc_wire::Moment;

// The agent follows, the DTLS part takes its role, and the association is started as client if that role is the active
// one. The first that fails ends it.
fn move_parts<I: IceAgent, D: DtlsInstance, S: Association>(
    ice: &mut I,
    dtls: &mut Dtls<D>,
    sctp: &mut RtcSctp<S>,
    following: Following,
    starting: Starting,
    sdp: &Sdp,
    rows: &[LineRow],
    now: Moment,
) -> Result<(), RtcError>
    requires { are_whole starting.halves ≡ true }
    ensures { MovesParts I.ice D.dtls S.association ice.old dtls.old sctp.old following starting sdp.now rows.now now result
        ice.new dtls.new sctp.new }
{
    let client = role_after(dtls.is_active(), sdp.setup());
    match follow(ice, following) {
        Ok(()) => {}
        Err(_) => {
            drop(starting);
            return Err(RtcError::Alloc);
        }
    }
    match start_dtls(dtls, role_for(sdp.setup()), now) {
        Ok(()) => {}
        Err(DtlsError::WouldBlock) => unreachable!(),
        Err(DtlsError::Fault) => {
            drop(starting);
            return Err(RtcError::Dtls(DtlsError::Fault));
        }
        Err(DtlsError::Alloc) => {
            drop(starting);
            return Err(RtcError::Alloc);
        }
    }
    match start_sctp(sctp, rows, client, now, sdp, starting) {
        Ok(()) => Ok(()),
        Err(error) => Err(RtcError::from(error)),
    }
}

/// The parts of a peer follow what was made ready, and nothing else of it changes.
pub fn move_peer<I: IceAgent, D: DtlsInstance, S: Association, M: MediaSession, N: Ids>(
    peer: &mut Peer<I, D, S, M, N>,
    following: Following,
    starting: Starting,
    sdp: &Sdp,
    rows: &[LineRow],
) -> Result<(), RtcError>
    requires { are_whole starting.halves ≡ true }
    ensures moves { MovesParts I.ice D.dtls S.association peer.old.ice peer.old.dtls peer.old.sctp following starting sdp.now rows.now
        peer.old.greatest result peer.new.ice peer.new.dtls peer.new.sctp }
    ensures rest { peer.new ≡ record peer.old { ice = peer.new.ice; dtls = peer.new.dtls; sctp = peer.new.sctp } }
{
    move_parts(
        &mut peer.ice,
        &mut peer.dtls,
        &mut peer.sctp,
        following,
        starting,
        sdp,
        rows,
        peer.greatest,
    )
}
