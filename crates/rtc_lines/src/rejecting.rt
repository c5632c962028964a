//! Offers of which lines are rejected before they are accepted.
ghost use Rattle.std.specs.Prelude.{◌≡◌, IfOk, map, not};
ghost use Rattle.rtc_lines.specs.Rejecting as spec;
ghost use Rattle.rtc_sdp_values.specs.Mids.{is_bundled as IsBundled};

use rtc_sdp_codecs::match_rows;
use rtc_sdp_values::{LineKind, MediaKind, MediaLine, Mid, PayloadRow, Sdp};
use rtc_wire::{Seq, TryCopy};
use std::alloc::{AllocError, Global};

/// Whether a line has no payload types.
pub(crate) fn is_none(rows: &[PayloadRow]) -> bool
    ensures { result ≡ spec.is_none rows.now }
{
    match rows {
        [] => true,
        [_, ..] => false,
    }
}

fn shares_none(
    alloc: Global,
    kind: LineKind,
    rows: &[PayloadRow],
    remote: &[PayloadRow],
) -> Result<bool, AllocError>
    ensures { IfOk result (λ none. none ≡ spec.shares_none kind rows.now remote.now) }
{
    match kind {
        LineKind::Audio => {
            let shared = match_rows(alloc, MediaKind::Audio, rows, remote)?;
            Ok(is_none(shared.as_slice()))
        }
        LineKind::Video => {
            let shared = match_rows(alloc, MediaKind::Video, rows, remote)?;
            Ok(is_none(shared.as_slice()))
        }
        LineKind::Application => Ok(false),
        LineKind::Unknown => Ok(false),
    }
}

fn is_bundled(groups: &[Seq<Mid>], mid: Mid) -> bool
    ensures { result ≡ IsBundled groups.now mid }
{
    for group in groups {
        if mid.is_among(group.as_slice()) {
            return true;
        }
    }
    false
}

fn is_live(groups: &[Seq<Mid>], line: &MediaLine) -> bool
    ensures { result ≡ spec.is_live_line groups.now line.now }
{
    !line.disabled || is_bundled(groups, line.mid)
}

fn lacks_codec(
    alloc: Global,
    rows: &[PayloadRow],
    groups: &[Seq<Mid>],
    line: &MediaLine,
) -> Result<bool, AllocError>
    ensures { IfOk result (λ lacks. lacks ≡ spec.lacks_codec rows.now groups.now line.now) }
{
    if !is_live(groups, line) {
        return Ok(false);
    }
    shares_none(alloc, line.kind, rows, line.payloads.as_slice())
}

/// The mids of the live media lines that share no codec with a configuration.
pub(crate) fn mids_without_codec(
    alloc: Global,
    rows: &[PayloadRow],
    groups: &[Seq<Mid>],
    lines: &[MediaLine],
) -> Result<Vec<Mid>, AllocError>
    ensures { IfOk result (λ mids. mids.items ≡ spec.mids_without_codec rows.now groups.now lines.now) }
{
    let mut mids = Vec::new(alloc);
    for line in lines {
        if lacks_codec(alloc, rows, groups, line)? {
            mids.push(line.mid)?;
        }
    }
    Ok(mids)
}

fn names_mid(mids: &[Mid], mid: Mid) -> bool
    ensures { result ≡ spec.names_mid mids.now mid }
{
    for other in mids {
        if *other == mid {
            return true;
        }
    }
    false
}

fn has_live(groups: &[Seq<Mid>], lines: &[MediaLine]) -> bool
    ensures { result ≡ spec.has_live groups.now lines.now }
{
    for line in lines {
        if is_live(groups, line) {
            return true;
        }
    }
    false
}

fn reject_line(line: &MediaLine) -> Result<MediaLine, AllocError>
    ensures { IfOk result (λ made. made ≡ spec.line_at_port_0 line.now) }
{
    let mut made = line.copy()?;
    made.disabled = true;
    made.msid = None;
    made.cname = None;
    made.ssrcs.clear();
    Ok(made)
}

fn copy_line(mids: &[Mid], line: &MediaLine) -> Result<MediaLine, AllocError>
    ensures { IfOk result (λ made. made ≡ spec.line_rejecting mids.now line.now) }
{
    if names_mid(mids, line.mid) {
        return reject_line(line);
    }
    line.copy()
}

fn copy_lines(
    alloc: Global,
    mids: &[Mid],
    lines: &[MediaLine],
) -> Result<Seq<MediaLine>, AllocError>
    ensures { IfOk result (λ made. made ≡ map (spec.line_rejecting mids.now) lines.now) }
{
    let mut made = Seq::empty(alloc);
    for line in lines {
        let copied = copy_line(mids, line)?;
        made.push(copied)?;
    }
    Ok(made)
}

fn copy_group(alloc: Global, mids: &[Mid], group: &[Mid]) -> Result<Seq<Mid>, AllocError>
    ensures { IfOk result (λ made. made ≡ spec.group_rejecting mids.now group.now) }
{
    let mut made = Seq::empty(alloc);
    for mid in group {
        if !names_mid(mids, *mid) {
            made.push(*mid)?;
        }
    }
    Ok(made)
}

fn copy_groups(
    alloc: Global,
    mids: &[Mid],
    groups: &[Seq<Mid>],
) -> Result<Seq<Seq<Mid>>, AllocError>
    ensures { IfOk result (λ made. made ≡ map (spec.group_rejecting mids.now) groups.now) }
{
    let mut made = Seq::empty(alloc);
    for group in groups {
        let copied = copy_group(alloc, mids, group.as_slice())?;
        made.push(copied)?;
    }
    Ok(made)
}

/// The offer in which these lines are rejected. None if no live line is left.
pub(crate) fn reject_lines(
    alloc: Global,
    sdp: &Sdp,
    mids: &[Mid],
) -> Result<Option<Sdp>, AllocError>
    ensures { IfOk result (λ made. made ≡ spec.offer_rejecting mids.now sdp.now) }
{
    let lines = copy_lines(alloc, mids, sdp.lines.as_slice())?;
    let groups = copy_groups(alloc, mids, sdp.groups.as_slice())?;
    if !has_live(groups.as_slice(), lines.as_slice()) {
        return Ok(None);
    }
    let creds = sdp.creds.copy()?;
    let fingerprint = sdp.fingerprint.copy()?;
    Ok(Some(Sdp {
        id: sdp.id,
        groups,
        ice_lite: sdp.ice_lite,
        creds,
        fingerprint,
        setup: sdp.setup,
        lines,
    }))
}
