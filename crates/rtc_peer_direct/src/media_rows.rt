//! Media lines that a user declares and removes.
ghost use Rattle.std.specs.Prelude.{◌≡◌};
ghost use Rattle.rtc_peer_direct.specs.DeclaredRows.{has_media_row, DeclaresMedia, RemovesMedia};

use rtc_change::Lines;
use rtc_parts::{Association, MediaSession};
use rtc_peer_core::count_lines;
use rtc_peer_transport::PolledPeer;
use rtc_sdp_values::{LineRow, MediaKind, Mid};
use std::alloc::AllocError;

/// Whether a row of media has a mid.
pub(crate) fn has_media(lines: &Lines, mid: Mid) -> bool
    ensures { result ≡ has_media_row mid lines.now }
{
    match lines.find(mid) {
        Some(row) => match row {
            LineRow::Media { .. } => true,
            LineRow::App { .. } => false,
        },
        None => false,
    }
}

/// Declares a media line behind the others, sendrecv and created here. False if a row has the mid.
pub fn declare_media<I, D, S: Association, M, N>(
    peer: &mut PolledPeer<I, D, S, M, N>,
    mid: Mid,
    kind: MediaKind,
) -> Result<bool, AllocError>
    ensures { DeclaresMedia mid kind peer.old result peer.new }
{
    let _count = count_lines(&peer.core.lines, 0)?;
    peer.core.lines.declare(mid, kind)
}

/// Removes a media line with its streams: the last row is removed, another one is stopped for good. False if no media row has the mid.
pub fn remove_media<I, D, S: Association, M: MediaSession, N>(
    peer: &mut PolledPeer<I, D, S, M, N>,
    mid: Mid,
) -> bool
    ensures { RemovesMedia M.media mid peer.old result peer.new }
{
    if !has_media(&peer.core.lines, mid) {
        return false;
    }
    peer.core.lines.remove(mid);
    peer.core.media.remove_line(mid);
    true
}
