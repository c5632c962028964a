//! Draws of SSRCs.
ghost use Rattle.std.specs.Prelude.{◌≡◌, ◌||◌, ◌++◌, [], IfOk, OnOk};
ghost use Rattle.std.specs.List.{flat_map};
ghost use Rattle.rtc_parts.specs.Draws.{Later};
ghost use Rattle.rtc_peer_core.specs.Sources.{
  has_source,
  is_number,
  pair_numbers,
  drawn_source,
  next_source,
  next_pair,
  after_pair,
  next_pairs,
  after_pairs,
};

use crate::earlier_numbers::EarlierNumbers;
use rtc_parts::{Ids, MediaSession};
use rtc_sdp_values::{MediaKind, Ssrc};
use rtc_wire::Seq;
use std::alloc::{AllocError, Global};

const ALL_NUMBERS: u64 = 1 << 32;

// Whether a stream has a number, or an earlier draw gave it.
fn is_taken<M: MediaSession>(media: &M, earlier: &EarlierNumbers, n: u32) -> bool
    ensures { result ≡ (has_source M.media media.now n || is_number n earlier.now) }
{
    media.ssrc_used(Ssrc(n)) || earlier.has(n)
}

// The first number counted on that is not taken; if all are, the first.
fn find_source<M: MediaSession>(media: &M, earlier: &EarlierNumbers, first: u32) -> u32
    ensures { result ≡ drawn_source (has_source M.media media.now) earlier.now first }
{
    let mut n = first;
    for _ in 0..ALL_NUMBERS {
        if !is_taken(media, earlier, n) {
            return n;
        }
        n = n.wrapping_add(1);
    }
    first
}

/// An SSRC that no stream has, and that was not drawn earlier in the call; if there is none, the number drawn.
pub fn draw_source<M: MediaSession, N: Ids>(
    ids: &mut N,
    media: &M,
    earlier: &EarlierNumbers,
) -> Ssrc
    ensures source { result ≡ record { 0 = next_source N.ids (has_source M.media media.now) earlier.now ids.old } }
    ensures after { ids.new ≡ N.ids.after ids.old }
{
    let first = (ids.draw() % ALL_NUMBERS) as u32;
    Ssrc(find_source(media, earlier, first))
}

// An SSRC for a line of a kind, with its RTX SSRC; their numbers are passed over from then on.
#[tactic(auto, using(crate::proofs::Pairs::few_draws))]
fn draw_pair<M: MediaSession, N: Ids>(
    ids: &mut N,
    media: &M,
    earlier: &mut EarlierNumbers,
    kind: MediaKind,
) -> Result<(Ssrc, Option<Ssrc>), AllocError>
    ensures pair { IfOk result (λ pair. pair ≡ next_pair N.ids (has_source M.media media.now) kind earlier.old ids.old) }
    ensures earlier { IfOk result (λ pair. earlier.new ≡ earlier.old ++ pair_numbers pair) }
    ensures after { OnOk result (ids.new ≡ after_pair N.ids (has_source M.media media.now) kind ids.old) }
    ensures later { Later N.ids ids.old ids.new }
    ensures most { Later N.ids ids.new (after_pair N.ids (has_source M.media media.now) kind ids.old) }
{
    match kind {
        MediaKind::Audio => {
            let ssrc = draw_source(ids, media, earlier);
            earlier.push(ssrc.0)?;
            Ok((ssrc, None))
        }
        MediaKind::Video => {
            let rtx = draw_source(ids, media, earlier);
            earlier.push(rtx.0)?;
            let ssrc = draw_source(ids, media, earlier);
            earlier.push(ssrc.0)?;
            Ok((ssrc, Some(rtx)))
        }
    }
}

/// So many pairs for a line of a kind.
#[tactic(auto, using(rtc_parts::proofs::LaterLemmas::later_none, rtc_parts::proofs::LaterLemmas::later_join))]
pub fn draw_pairs<M: MediaSession, N: Ids>(
    alloc: Global,
    ids: &mut N,
    media: &M,
    earlier: &mut EarlierNumbers,
    kind: MediaKind,
    count: usize,
) -> Result<Seq<(Ssrc, Option<Ssrc>)>, AllocError>
    ensures pairs { IfOk result (λ pairs. pairs ≡ next_pairs N.ids (has_source M.media media.now) kind earlier.old count ids.old) }
    ensures earlier { IfOk result (λ pairs. earlier.new ≡ earlier.old ++ flat_map pair_numbers pairs) }
    ensures after { OnOk result (ids.new ≡ after_pairs N.ids (has_source M.media media.now) kind count ids.old) }
    ensures later { Later N.ids ids.old ids.new }
    ensures most { Later N.ids ids.new (after_pairs N.ids (has_source M.media media.now) kind count ids.old) }
{
    let mut pairs = Vec::new(alloc);
    for _ in 0..count {
        let pair = draw_pair(ids, media, earlier, kind)?;
        pairs.push(pair)?;
    }
    Ok(Seq::new(pairs))
}

/// So many pairs for a line of a kind, if nothing was drawn before.
pub fn draw_first_pairs<M: MediaSession, N: Ids>(
    alloc: Global,
    ids: &mut N,
    media: &M,
    kind: MediaKind,
    count: usize,
) -> Result<Seq<(Ssrc, Option<Ssrc>)>, AllocError>
    ensures pairs { IfOk result (λ pairs. pairs ≡ next_pairs N.ids (has_source M.media media.now) kind [] count ids.old) }
    ensures after { OnOk result (ids.new ≡ after_pairs N.ids (has_source M.media media.now) kind count ids.old) }
    ensures later { Later N.ids ids.old ids.new }
{
    let mut earlier = EarlierNumbers::new(alloc);
    let pairs = draw_pairs(alloc, ids, media, &mut earlier, kind, count)?;
    Ok(pairs)
}
