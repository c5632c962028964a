//! The SSRCs of a media line.
ghost use Rattle.std.specs.Prelude.{◌≡◌, ℕ, eqb, IfOk};
ghost use Rattle.std.specs.Ordering.{nat_cmp};
ghost use Rattle.std.specs.BTreeMap as map;
ghost use Rattle.std.specs.BTreeSet as set;
ghost use Rattle.rtc_wire_text.specs.Once.{each_once as spec_each_once};
ghost use Rattle.rtc_sdp_reader.specs.Sources as spec;

use rtc_sdp_values::Ssrc;
use rtc_wire::Seq;
use std::alloc::{AllocError, Global};
use std::collections::{BTreeMap, BTreeSet};

/// The RTX SSRC of each SSRC. A map keeps them, so that the time is not in the square of the SSRCs.
fn first_rtxs(alloc: Global, pairs: &[(Ssrc, Ssrc)]) -> Result<BTreeMap<u32, Ssrc>, AllocError>
    ensures { IfOk result (λ found. (ssrc : ℕ) → map.get nat_cmp found ssrc ≡ spec.rtx_of pairs.now ssrc) }
{
    let mut found = BTreeMap::new(alloc);
    for i in 0..pairs.len() {
        let (ssrc, rtx) = pairs[i];
        if found.contains_key(&ssrc.0) {
            continue;
        }
        found.insert(ssrc.0, rtx)?;
    }
    Ok(found)
}

fn rtx_numbers(alloc: Global, pairs: &[(Ssrc, Ssrc)]) -> Result<BTreeSet<u32>, AllocError>
    ensures { IfOk result (λ found. (ssrc : ℕ) → set.contains nat_cmp found ssrc ≡ spec.is_rtx pairs.now ssrc) }
{
    let mut found = BTreeSet::new(alloc);
    for i in 0..pairs.len() {
        let (_, rtx) = pairs[i];
        found.insert(rtx.0)?;
    }
    Ok(found)
}

/// Each number once, by looks through those that were seen.
fn each_of_few(alloc: Global, numbers: &[u32]) -> Result<Vec<u32>, AllocError>
    ensures { IfOk result (λ once. once.items ≡ spec_each_once eqb numbers.now) }
{
    let mut once = Vec::new(alloc);
    for number in numbers {
        if !once.contains(number) {
            once.push(*number)?;
        }
    }
    Ok(once)
}

/// Each number once. A set keeps those that were seen, so that the time is not in the square of the numbers.
fn each_of_many(alloc: Global, numbers: &[u32]) -> Result<Vec<u32>, AllocError>
    ensures { IfOk result (λ once. once.items ≡ spec_each_once eqb numbers.now) }
{
    let mut seen = BTreeSet::new(alloc);
    let mut once = Vec::new(alloc);
    for number in numbers {
        if seen.insert(*number)? {
            once.push(*number)?;
        }
    }
    Ok(once)
}

fn each_once(alloc: Global, numbers: &[u32]) -> Result<Vec<u32>, AllocError>
    ensures { IfOk result (λ once. once.items ≡ spec_each_once eqb numbers.now) }
{
    if numbers.len() <= 8 {
        each_of_few(alloc, numbers)
    } else {
        each_of_many(alloc, numbers)
    }
}

/// The SSRCs of a media line: those that have a name, each once, with their RTX SSRCs.
#[tactic(auto, unfolding(crate::specs::Sources::sources))]
pub fn sources(
    alloc: Global,
    named: &[u32],
    pairs: &[(Ssrc, Ssrc)],
) -> Result<Seq<(Ssrc, Option<Ssrc>)>, AllocError>
    ensures { IfOk result (λ rows. rows ≡ spec.sources named.now pairs.now) }
{
    let rtxs = first_rtxs(alloc, pairs)?;
    let others = rtx_numbers(alloc, pairs)?;
    let once = each_once(alloc, named)?;
    let mut rows = Seq::empty(alloc);
    for number in &once {
        if others.contains(number) {
            continue;
        }
        let rtx = rtxs.get(number).copied();
        rows.push((Ssrc(*number), rtx))?;
    }
    Ok(rows)
}
