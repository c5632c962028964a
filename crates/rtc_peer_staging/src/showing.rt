//! Channels of a peer as rows.
ghost use Rattle.std.specs.Prelude.{◌≡◌, ℕ, Option, IfOk, map, option_map, slice_get};
ghost use Rattle.rtc_peer_core.specs.ChannelRows.{
  generation_over as GenerationOver,
  is_open_over as IsOpenOver,
  channel_rows,
};
ghost use Rattle.rtc_peer_staging.specs.ShownChannels.{numbered_row};

use rtc_channels::ChannelRow;
use rtc_parts::Association;
use rtc_peer_core::Peer;
use rtc_sctp::RtcSctp;
use rtc_wire::ChannelId;
use std::alloc::{AllocError, Global};

// How often a stream was reset; 0 if there is none.
fn generation_over<S: Association>(sctp: &RtcSctp<S>, stream: Option<u16>) -> u64
    ensures { result ≡ GenerationOver S.association stream sctp.now }
{
    match stream {
        Some(id) => sctp.generation(id),
        None => 0,
    }
}

// Whether a stream is open, over an association that is started.
fn is_open_over<S: Association>(sctp: &RtcSctp<S>, stream: Option<u16>) -> bool
    ensures { result ≡ IsOpenOver S.association stream sctp.now }
{
    match stream {
        Some(id) => sctp.is_inited() && sctp.is_open(id),
        None => false,
    }
}

// The row of a number with its stream.
fn make_row<S: Association>(sctp: &RtcSctp<S>, row: &(ChannelId, Option<u16>)) -> ChannelRow
    ensures { result ≡ numbered_row S.association sctp.now row.now }
{
    ChannelRow {
        id: row.0,
        stream: row.1,
        generation: generation_over(sctp, row.1),
        is_open: is_open_over(sctp, row.1),
    }
}

fn list_rows<S: Association>(
    alloc: Global,
    sctp: &RtcSctp<S>,
    rows: &[(ChannelId, Option<u16>)],
) -> Result<Vec<ChannelRow>, AllocError>
    ensures { IfOk result (λ shown. shown.items ≡ map (numbered_row S.association sctp.now) rows.now) }
{
    let mut shown = Vec::new(alloc);
    for row in rows {
        shown.push(make_row(sctp, row))?;
    }
    Ok(shown)
}

/// The rows of the channels, in order of their numbers.
#[tactic(auto, using(crate::proofs::ShownLemmas::shown_rows))]
pub fn list_channels<I, D, S: Association, M, N>(
    peer: &Peer<I, D, S, M, N>,
) -> Result<Vec<ChannelRow>, AllocError>
    ensures { IfOk result (λ rows. rows.items ≡ channel_rows S.association peer.now.sctp peer.now.channels) }
{
    let rows = list_rows(peer.alloc, &peer.sctp, peer.channels.rows())?;
    Ok(rows)
}

// The row at a place of numbers with their streams.
fn row_at<S: Association>(
    sctp: &RtcSctp<S>,
    rows: &[(ChannelId, Option<u16>)],
    k: usize,
) -> Option<ChannelRow>
    ensures { result ≡ option_map (numbered_row S.association sctp.now) (slice_get rows.now k) }
{
    match rows.get(k) {
        Some(row) => Some(make_row(sctp, row)),
        None => None,
    }
}

/// The row of the channel at a place, from 0.
#[tactic(auto, using(crate::proofs::ShownLemmas::shown_here))]
pub fn show_channel<I, D, S: Association, M, N>(
    peer: &Peer<I, D, S, M, N>,
    k: usize,
) -> Option<ChannelRow>
    ensures { result ≡ slice_get (channel_rows S.association peer.now.sctp peer.now.channels) k }
{
    let row = row_at(&peer.sctp, peer.channels.rows(), k);
    row
}
