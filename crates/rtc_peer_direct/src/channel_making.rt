//! The association as a user starts it, and channels that a user makes.
ghost use Rattle.std.specs.Prelude.{◌≡◌, not, false, None, Some};
ghost use Rattle.rtc_peer_core.specs.PartMoves.{StartsWhere, remote_limit};
ghost use Rattle.rtc_peer_direct.specs.ChannelMaking.{start_answer, StartsStreams, CreatesChannel};

use rtc_channels::ChannelError;
use rtc_parts::Association;
use rtc_peer_core::RtcError;
use rtc_peer_transport::PolledPeer;
use rtc_sctp::{RtcSctp, SctpError, SctpInitData};
use rtc_wire::{ChannelConfig, ChannelId, Moment};

fn start_streams<S: Association>(
    sctp: &mut RtcSctp<S>,
    client: bool,
    now: Moment,
    snap: Option<SctpInitData>,
) -> Result<(), SctpError>
    ensures { StartsWhere S.association (not (S.association.started sctp.old.association)) sctp.old client now (remote_limit None)
        snap false result sctp.new }
{
    if sctp.is_inited() {
        return Ok(());
    }
    sctp.init(client, now, snap, None)
}

// What a start of the association returns, as a peer reports it.
fn answer_start(answer: Result<(), SctpError>) -> Result<(), RtcError>
    ensures { result ≡ start_answer answer }
{
    match answer {
        Ok(()) => Ok(()),
        Err(error) => Err(RtcError::from(error)),
    }
}

/// Starts the association, if nothing started it before.
pub fn start_sctp<I, D, S: Association, M, N>(
    peer: &mut PolledPeer<I, D, S, M, N>,
    client: bool,
) -> Result<(), RtcError>
    ensures { StartsStreams S.association client None peer.old result peer.new }
{
    let now = peer.core.greatest;
    answer_start(start_streams(&mut peer.core.sctp, client, now, None))
}

/// Starts the association by both SNAP INIT chunks (draft-hancke-tsvwg-snap), if nothing started it before: it is
/// established at once. If a chunk is missing, nothing is started.
pub fn start_sctp_with_snap<I, D, S: Association, M, N>(
    peer: &mut PolledPeer<I, D, S, M, N>,
    client: bool,
    halves: SctpInitData,
) -> Result<(), RtcError>
    ensures { StartsStreams S.association client (Some halves) peer.old result peer.new }
{
    let now = peer.core.greatest;
    answer_start(start_streams(&mut peer.core.sctp, client, now, Some(halves)))
}

/// Makes a confirmed channel, and returns its number. It is opened once it has a stream.
pub fn create_data_channel<I, D, S: Association, M, N>(
    peer: &mut PolledPeer<I, D, S, M, N>,
    config: ChannelConfig,
) -> Result<ChannelId, RtcError>
    ensures { CreatesChannel config peer.old result peer.new }
{
    match peer.core.channels.new_channel(&config) {
        Ok(id) => {
            peer.core.channels.confirm(id, config);
            Ok(id)
        }
        Err(ChannelError::BadChannel) => Err(RtcError::BadChannel),
        Err(ChannelError::Alloc) => Err(RtcError::Alloc),
    }
}
