//! Whether the mids and the BUNDLE group of a session description are consistent (RFC 8843, section 7.1).
ghost use Rattle.std.specs.Prelude.{◌≡◌, IfOk};
ghost use Rattle.std.specs.List.{list_all};
ghost use Rattle.rtc_sdp_values.specs.Mids.{is_among, are_distinct};
ghost use Rattle.rtc_sdp_values.specs.Sdp as spec;

use crate::mid_sets::{collect_mids, is_each_once};
use crate::{Inconsistent, MediaLine, Mid, Sdp};
use std::alloc::{AllocError, Global};

// So few lines are walked over: a set costs more.
const FEW_LINES: usize = 16;

fn has_line(lines: &[MediaLine], mid: Mid) -> bool
    ensures { result ≡ is_among (spec.mids_of lines.now) mid }
{
    for line in lines {
        if line.mid == mid {
            return true;
        }
    }
    false
}

fn are_known(group: &[Mid], lines: &[MediaLine]) -> bool
    ensures { result ≡ spec.are_known group.now lines.now }
{
    for mid in group {
        if !has_line(lines, *mid) {
            return false;
        }
    }
    true
}

fn are_grouped(group: &[Mid], lines: &[MediaLine]) -> bool
    ensures { result ≡ spec.are_grouped group.now lines.now }
{
    for line in lines {
        if !line.disabled && !line.mid.is_among(group) {
            return false;
        }
    }
    true
}

fn are_distinct(lines: &[MediaLine]) -> bool
    ensures { result ≡ are_distinct (spec.mids_of lines.now) }
{
    for i in 0..lines.len() {
        if has_line(&lines[i + 1..], lines[i].mid) {
            return false;
        }
    }
    true
}

fn cause_by_walks(group: &[Mid], lines: &[MediaLine]) -> Option<Inconsistent>
    ensures { result ≡ spec.first_cause (spec.group_causes group.now lines.now) }
{
    if group.is_empty() {
        return Some(Inconsistent::EmptyGroup);
    }
    if !are_known(group, lines) {
        return Some(Inconsistent::UnknownMid);
    }
    if !are_grouped(group, lines) {
        return Some(Inconsistent::LineNotInGroup);
    }
    if !are_distinct(lines) {
        return Some(Inconsistent::RepeatedMid);
    }
    None
}

fn list_mids(alloc: Global, lines: &[MediaLine]) -> Result<Vec<Mid>, AllocError>
    ensures { IfOk result (λ mids. mids.items ≡ spec.mids_of lines.now) }
{
    let mut mids = Vec::with_capacity(alloc, lines.len())?;
    for line in lines {
        mids.push(line.mid)?;
    }
    Ok(mids)
}

fn are_known_among(alloc: Global, group: &[Mid], mids: &[Mid]) -> Result<bool, AllocError>
    ensures { IfOk result (λ known. known ≡ list_all (λ mid. is_among mids.now mid) group.now) }
{
    if group == mids {
        return Ok(true);
    }
    let found = collect_mids(alloc, mids)?;
    Ok(group.iter().all(|mid| found.contains(mid)))
}

fn are_grouped_among(
    alloc: Global,
    group: &[Mid],
    mids: &[Mid],
    lines: &[MediaLine],
) -> Result<bool, AllocError>
    requires { mids.now ≡ spec.mids_of lines.now }
    ensures { IfOk result (λ grouped. grouped ≡ spec.are_grouped group.now lines.now) }
{
    if group == mids {
        return Ok(true);
    }
    let found = collect_mids(alloc, group)?;
    for line in lines {
        if !line.disabled && !found.contains(&line.mid) {
            return Ok(false);
        }
    }
    Ok(true)
}

// The cause by sets, if there is memory for them.
fn cause_by_sets(
    alloc: Global,
    group: &[Mid],
    lines: &[MediaLine],
) -> Result<Option<Inconsistent>, AllocError>
    ensures { IfOk result (λ cause. cause ≡ spec.first_cause (spec.group_causes group.now lines.now)) }
{
    if group.is_empty() {
        return Ok(Some(Inconsistent::EmptyGroup));
    }
    let mids = list_mids(alloc, lines)?;
    if !are_known_among(alloc, group, mids.as_slice())? {
        return Ok(Some(Inconsistent::UnknownMid));
    }
    if !are_grouped_among(alloc, group, mids.as_slice(), lines)? {
        return Ok(Some(Inconsistent::LineNotInGroup));
    }
    if !is_each_once(alloc, mids.as_slice())? {
        return Ok(Some(Inconsistent::RepeatedMid));
    }
    Ok(None)
}

fn group_cause(alloc: Global, group: &[Mid], lines: &[MediaLine]) -> Option<Inconsistent>
    ensures { result ≡ spec.first_cause (spec.group_causes group.now lines.now) }
{
    if lines.len() < FEW_LINES {
        return cause_by_walks(group, lines);
    }
    match cause_by_sets(alloc, group, lines) {
        Ok(cause) => cause,
        Err(_) => cause_by_walks(group, lines),
    }
}

/// Why a session description is inconsistent, if it is. Nothing is allocated.
#[tactic(auto, unfolding(crate::specs::Sdp::inconsistency))]
pub(crate) fn inconsistency_by_walks(sdp: &Sdp) -> Option<Inconsistent>
    ensures { result ≡ spec.inconsistency sdp.now }
{
    match sdp.groups.as_slice() {
        [] => Some(Inconsistent::NoGroup),
        [group] => cause_by_walks(group.as_slice(), sdp.lines.as_slice()),
        _ => Some(Inconsistent::ManyGroups),
    }
}

/// Why a session description is inconsistent, if it is. Sets of mids are kept meanwhile, if there is memory for them.
#[tactic(auto, unfolding(crate::specs::Sdp::inconsistency))]
pub(crate) fn inconsistency(sdp: &Sdp) -> Option<Inconsistent>
    ensures { result ≡ spec.inconsistency sdp.now }
{
    let nothing = sdp.lines.empty_string();
    match sdp.groups.as_slice() {
        [] => Some(Inconsistent::NoGroup),
        [group] => group_cause(*nothing.allocator(), group.as_slice(), sdp.lines.as_slice()),
        _ => Some(Inconsistent::ManyGroups),
    }
}
