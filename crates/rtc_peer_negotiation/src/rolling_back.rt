//! Offers that are rolled back.
ghost use Rattle.std.specs.Prelude.{◌≡◌};
ghost use Rattle.rtc_channels.specs.Holds.{all_cancelled, cancelled_if, is_unconfirmed};
ghost use Rattle.rtc_change.specs.PendingOffer.{new_channels};
ghost use Rattle.rtc_peer_rows.specs.RowChanges.{all_restored, dir_restored};
ghost use Rattle.rtc_peer_core.specs.RollingBack.{RollsBack};

use crate::accepting::is_latest;
use rtc_change::{Change, Lines, SdpPendingOffer};
use rtc_channels::ChannelHandler;
use rtc_parts::Association;
use rtc_peer_core::{Peer, RtcError};
use rtc_sdp_values::{Direction, Mid};
use rtc_wire::ChannelId;

// The direction of a row that is restored: a stopped one is inactive.
fn direction_restored(dir: Direction, stopped: bool) -> Direction
    ensures { result ≡ dir_restored dir stopped }
{
    if stopped { Direction::Inactive } else { dir }
}

// Restores the rows that are still there.
fn restore_rows(lines: &mut Lines, undo: &[(Mid, Direction, bool)])
    ensures { lines.new ≡ all_restored undo.now lines.old }
{
    for was in undo {
        let dir = direction_restored(was.1, was.2);
        lines.restore(was.0, dir, was.2);
    }
}

// Removes a channel that is there and was never confirmed.
fn cancel_channel(channels: &mut ChannelHandler, id: ChannelId)
    ensures { channels.new ≡ cancelled_if (is_unconfirmed id channels.old.rows) id channels.old }
{
    if channels.is_unconfirmed(id) {
        channels.cancel(id);
    }
}

// Removes the channels that changes add, if they are still there and were never confirmed.
fn cancel_channels(channels: &mut ChannelHandler, changes: &[Change])
    ensures { channels.new ≡ all_cancelled (new_channels changes.now) channels.old }
{
    for change in changes {
        match change {
            Change::AddChannel(id, _) => cancel_channel(channels, *id),
            Change::AddMedia(_)
            | Change::IceRestart(_, _)
            | Change::AddApp(_)
            | Change::Direction(_, _) => {}
        }
    }
}

/// Rolls the offer of a token back, which is spent: the rows that were set or stopped for it are as they were, and the channels that were
/// added with it go. Nothing is allocated.
pub fn roll_back<I, D, S: Association, M, N>(
    peer: &mut Peer<I, D, S, M, N>,
    token: SdpPendingOffer,
) -> Result<(), RtcError>
    ensures { RollsBack peer.old token result peer.new }
{
    if !is_latest(peer.counter, &token) {
        drop(token);
        return Err(RtcError::ChangesOutOfOrder);
    }
    peer.counter = peer.counter.wrapping_add(1);
    peer.outstanding = false;
    restore_rows(&mut peer.lines, token.undo());
    cancel_channels(&mut peer.channels, token.changes().0.as_slice());
    drop(token);
    Ok(())
}
