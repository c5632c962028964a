//! What an offer would lack, before it is made.
ghost use Rattle.std.specs.Prelude.{◌≡◌, IfOk};
ghost use Rattle.rtc_peer.specs.Previews as spec;
ghost use Rattle.rtc_peer_core.specs.MadeSdp.{is_stopped as IsStopped};

use crate::SdpApi;
use rtc_change::{Change, Lines};
use rtc_lines::{LineRow, MediaKind, Mid, PayloadRow};
use rtc_parts::{Association, DtlsInstance, IceAgent, Ids, MediaSession};
use rtc_peer_core::Staged;
use rtc_sdp_codecs::payload_kind;
use std::alloc::{AllocError, Global};

fn has_codec(rows: &[PayloadRow], kind: MediaKind) -> bool
    ensures { result ≡ spec.has_codec rows.now kind }
{
    for row in rows {
        if payload_kind(row) == kind {
            return true;
        }
    }
    false
}

// The mid of the media line that a change adds, if these rows have no codec for its kind.
fn added_without_codec(rows: &[PayloadRow], change: &Change) -> Option<Mid>
    ensures { result ≡ spec.mid_without_codec rows.now change.now }
{
    match change {
        Change::AddMedia(added) => {
            if has_codec(rows, added.kind) {
                return None;
            }
            Some(added.mid)
        }
        Change::AddApp(_)
        | Change::AddChannel(_, _)
        | Change::Direction(_, _)
        | Change::IceRestart(_, _) => None,
    }
}

fn list_without_codec(
    alloc: Global,
    rows: &[PayloadRow],
    changes: &[Change],
) -> Result<Vec<Mid>, AllocError>
    ensures { IfOk result (λ mids. mids.items ≡ spec.added_without_codec rows.now changes.now) }
{
    let mut mids = Vec::new(alloc);
    for change in changes {
        if let Some(mid) = added_without_codec(rows, change) {
            mids.push(mid)?;
        }
    }
    Ok(mids)
}

fn is_stopped(row: &LineRow) -> bool
    ensures { result ≡ IsStopped row.now }
{
    match row {
        LineRow::Media { stopped, .. } => *stopped,
        LineRow::App { .. } => false,
    }
}

fn has_live_row(rows: &[LineRow]) -> bool
    ensures { result ≡ spec.has_live_row rows.now }
{
    for row in rows {
        if !is_stopped(row) {
            return true;
        }
    }
    false
}

fn offers_live(lines: &Lines, staged: &Staged) -> bool
    ensures { result ≡ spec.offers_live lines.now staged.now }
{
    if staged.count_added() > 0 {
        return true;
    }
    has_live_row(lines.rows())
}

impl<'a, I: IceAgent, D: DtlsInstance, S: Association, M: MediaSession, N: Ids> SdpApi<
    'a,
    I,
    D,
    S,
    M,
    N,
> {
    /// The mids of the staged media lines for whose kind the peer has no codec. An offer would have no format on them,
    /// which other stacks refuse.
    pub fn lines_without_codec(&self, alloc: Global) -> Result<Vec<Mid>, AllocError>
        ensures { IfOk result (λ mids. mids.items
            ≡ spec.added_without_codec self.now.rtc.now.core.formats.codecs.rows self.now.rtc.now.core.staged) }
    {
        let rtc = &*self.rtc;
        list_without_codec(
            alloc,
            rtc.polled.core.formats.codecs.rows.as_slice(),
            rtc.polled.core.staged.as_slice(),
        )
    }

    /// Whether an offer of what is staged would name a live line. If not, its BUNDLE group is empty, which other stacks
    /// refuse, as this one does: close the peer, or keep a line.
    pub fn offers_live_line(&self) -> bool
        ensures { result ≡ spec.offers_live self.now.rtc.now.core.lines self.now.rtc.now.core.staged }
    {
        let rtc = &*self.rtc;
        offers_live(&rtc.polled.core.lines, &rtc.polled.core.staged)
    }
}
