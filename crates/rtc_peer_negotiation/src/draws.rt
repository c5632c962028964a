//! What is drawn as an offer or an answer is accepted.
ghost use Rattle.std.specs.Prelude.{◌≡◌, ◌≤◌, length, true, take, IfOk, OnOk, OnErr};
ghost use Rattle.rtc_sdp_values.specs.Sdp.{sdp_sctp_init};
ghost use Rattle.rtc_parts.specs.Draws.{Later};
ghost use Rattle.rtc_change.specs.TableAfter.{table_after};
ghost use Rattle.rtc_peer_rows.specs.ParsedLines.{parsed_lines};
ghost use Rattle.rtc_sctp.specs.Calls.{are_whole};
ghost use Rattle.rtc_sctp_values.specs.SnapHalves.{halves_of, after_halves_of};
ghost use Rattle.rtc_peer_core.specs.Acceptances.{updates_for, ids_after_updates, halves_for, ids_after_halves};
ghost use Rattle.rtc_peer_core.specs.Meanings.{meanings};
ghost use Rattle.rtc_peer_core.specs.SdpHalves.{told_chunk};
ghost use Rattle.rtc_peer_negotiation.specs.Growths.{DrawsAlong};

use rtc_change::Change;
use rtc_parts::{Association, DtlsInstance, IceAgent, Ids, MediaSession, MediaUpdate};
use rtc_peer_core::Peer;
use rtc_peer_sdp::list_updates;
use rtc_sctp_values::SctpInitData;
use rtc_sdp_values::{LineRow, Sdp};
use std::alloc::AllocError;

/// What numbers were drawn for.
#[derive(Drop)]
pub struct Drawn {
    /// What the media part is given of the lines.
    pub updates: Vec<MediaUpdate>,
    /// Both SNAP INIT chunks.
    pub halves: Option<SctpInitData>,
}

// The rows that the m-lines of a session description name.
fn named_rows<'a>(rows: &'a [LineRow], sdp: &Sdp) -> &'a [LineRow]
    requires { length sdp.now.lines ≤ length rows.now }
    ensures { result.now ≡ take (length sdp.now.lines) rows.now }
{
    &rows[..sdp.lines.len()]
}

// What the media part is given, by the rows that the lines leave. SSRCs are drawn.
fn list_line_updates<I: IceAgent, D: DtlsInstance, S: Association, M: MediaSession, N: Ids>(
    peer: &mut Peer<I, D, S, M, N>,
    offer: bool,
    changes: &[Change],
    sdp: &Sdp,
    rows: &[LineRow],
) -> Result<Vec<MediaUpdate>, AllocError>
    requires rows { rows.now ≡ table_after peer.old.lines (parsed_lines sdp.now) offer }
    requires count { length sdp.now.lines ≤ length rows.now }
    ensures updates { IfOk result (λ updates. updates.items
        ≡ updates_for (meanings I.ice D.dtls S.association M.media N.ids) peer.old offer changes.now sdp.now peer.old.ids) }
    ensures after { OnOk result (peer.new.ids
        ≡ ids_after_updates (meanings I.ice D.dtls S.association M.media N.ids) peer.old offer changes.now sdp.now peer.old.ids) }
    ensures later { Later N.ids peer.old.ids peer.new.ids }
    ensures most { Later N.ids peer.new.ids
        (ids_after_updates (meanings I.ice D.dtls S.association M.media N.ids) peer.old offer changes.now sdp.now peer.old.ids) }
    ensures others { peer.new ≡ record peer.old { ids = peer.new.ids } }
    ensures lines { peer.new.lines ≡ peer.old.lines }
{
    let updates = list_updates(
        peer.alloc,
        &mut peer.ids,
        &peer.media,
        &peer.formats,
        changes,
        offer,
        peer.lines.rows(),
        named_rows(rows, sdp),
        sdp.lines.as_slice(),
    )?;
    Ok(updates)
}

// Both SNAP INIT chunks, if the description carries one. This side's is drawn if it is missing.
fn join_halves<I: IceAgent, D: DtlsInstance, S: Association, M: MediaSession, N: Ids>(
    peer: &mut Peer<I, D, S, M, N>,
    may: bool,
    sdp: &Sdp,
) -> Result<Option<SctpInitData>, AllocError>
    ensures halves { IfOk result (λ halves. halves ≡ halves_of N.ids peer.old.sctp.local_max peer.old.sctp.snap
        (told_chunk (S.association.started peer.old.sctp.association) may (sdp_sctp_init sdp.now)) peer.old.ids) }
    ensures after { OnOk result (peer.new.ids ≡ after_halves_of N.ids peer.old.sctp.local_max peer.old.sctp.snap
        (told_chunk (S.association.started peer.old.sctp.association) may (sdp_sctp_init sdp.now)) peer.old.ids) }
    ensures err { OnErr result (peer.new.ids ≡ peer.old.ids) }
    ensures others { peer.new ≡ record peer.old { ids = peer.new.ids } }
{
    if peer.sctp.is_inited() || !may {
        return Ok(None);
    }
    match sdp.sctp_init() {
        None => Ok(None),
        Some(text) => peer.sctp.join_snap_init_data(text, &mut peer.ids),
    }
}

/// What the media part is given, and both SNAP INIT chunks. Numbers are drawn for both.
pub fn draw_along<I: IceAgent, D: DtlsInstance, S: Association, M: MediaSession, N: Ids>(
    peer: &mut Peer<I, D, S, M, N>,
    offer: bool,
    may: bool,
    changes: &[Change],
    sdp: &Sdp,
    rows: &[LineRow],
) -> Result<Drawn, AllocError>
    requires rows { rows.now ≡ table_after peer.old.lines (parsed_lines sdp.now) offer }
    requires count { length sdp.now.lines ≤ length rows.now }
    ensures updates { IfOk result (λ drawn. drawn.updates.items
        ≡ updates_for (meanings I.ice D.dtls S.association M.media N.ids) peer.old offer changes.now sdp.now peer.old.ids) }
    ensures halves { IfOk result (λ drawn. drawn.halves
        ≡ halves_for (meanings I.ice D.dtls S.association M.media N.ids) peer.old offer may changes.now sdp.now peer.old.ids) }
    ensures whole { IfOk result (λ drawn. are_whole drawn.halves ≡ true) }
    ensures after { OnOk result (peer.new.ids
        ≡ ids_after_halves (meanings I.ice D.dtls S.association M.media N.ids) peer.old offer may changes.now sdp.now peer.old.ids) }
    ensures along { DrawsAlong (meanings I.ice D.dtls S.association M.media N.ids) peer.old offer may changes.now sdp.now peer.new }
    ensures lines { peer.new.lines ≡ peer.old.lines }
{
    let updates = match list_line_updates(peer, offer, changes, sdp, rows) {
        Ok(updates) => updates,
        Err(error) => return Err(error),
    };
    match join_halves(peer, may, sdp) {
        Ok(halves) => Ok(Drawn { updates, halves }),
        Err(error) => Err(error),
    }
}
