//! The layers of a media line.
ghost use Rattle.rtc_sdp_reader.specs.Places.{AreFirst, pairs_at as PairsAt};
ghost use Rattle.std.specs.Prelude.{length, ◌≡◌, map, IfOk};
ghost use Rattle.rtc_sdp_reader.specs.Layers.{same_rid_direction};
ghost use Rattle.rtc_sdp_reader.specs.Layers as spec;

use rtc_sdp_attributes::{RidDirection, RidLine, SimulcastLine};
use rtc_sdp_values::{Rid, Simulcast, SimulcastLayer};
use rtc_wire::{Seq, Text, TryCopy};
use std::alloc::{AllocError, Global};
use std::collections::BTreeMap;

fn is_same(left: RidDirection, right: RidDirection) -> bool
    ensures { result ≡ same_rid_direction left right }
{
    match (left, right) {
        (RidDirection::Send, RidDirection::Send) => true,
        (RidDirection::Send, RidDirection::Recv) => false,
        (RidDirection::Recv, RidDirection::Send) => false,
        (RidDirection::Recv, RidDirection::Recv) => true,
    }
}

/// The place of the first `rid` attribute of each name. A map keeps them, so that the time is not in the square of the layers.
fn first_places(
    alloc: Global,
    lines: &[RidLine],
    direction: RidDirection,
) -> Result<BTreeMap<Rid, usize>, AllocError>
    ensures { IfOk result (λ found. AreFirst lines.now direction (length lines.now) found) }
{
    let mut found = BTreeMap::new(alloc);
    for i in 0..lines.len() {
        let line = &lines[i];
        if !is_same(line.direction, direction) {
            continue;
        }
        if found.contains_key(&line.rid) {
            continue;
        }
        found.insert(line.rid, i)?;
    }
    Ok(found)
}

fn pairs_at(
    alloc: Global,
    lines: &[RidLine],
    place: Option<usize>,
) -> Result<Seq<(Text, Text)>, AllocError>
    ensures { IfOk result (λ pairs. pairs ≡ spec.or_no_pairs (PairsAt lines.now place)) }
{
    let Some(place) = place else {
        return Ok(Seq::empty(alloc));
    };
    match lines.get(place) {
        Some(line) => line.attributes.copy(),
        None => Ok(Seq::empty(alloc)),
    }
}

fn pairs_for(
    alloc: Global,
    lines: &[RidLine],
    direction: RidDirection,
    found: &BTreeMap<Rid, usize>,
    rid: &Rid,
) -> Result<Seq<(Text, Text)>, AllocError>
    requires { AreFirst lines.now direction (length lines.now) found.now }
    ensures { IfOk result (λ pairs. pairs ≡ spec.pairs_for lines.now direction rid.now) }
{
    let place = found.get(rid).copied();
    pairs_at(alloc, lines, place)
}

fn layers(
    alloc: Global,
    lines: &[RidLine],
    direction: RidDirection,
    rids: &[Rid],
) -> Result<Seq<SimulcastLayer>, AllocError>
    ensures { IfOk result (λ made. made ≡ spec.layers lines.now direction rids.now) }
{
    let found = first_places(alloc, lines, direction)?;
    let mut made = Seq::empty(alloc);
    for rid in rids {
        let attributes = pairs_for(alloc, lines, direction, &found, rid)?;
        made.push(SimulcastLayer {
            rid: *rid,
            attributes,
        })?;
    }
    Ok(made)
}

/// The layers that a `simulcast` attribute lists, with the pairs of their `rid` attributes.
#[tactic(auto, unfolding(crate::specs::Layers::simulcast_value))]
pub fn simulcast_value(
    alloc: Global,
    lines: &[RidLine],
    line: &SimulcastLine,
) -> Result<Simulcast, AllocError>
    ensures { IfOk result (λ made. made ≡ spec.simulcast_value lines.now line.now) }
{
    let send = layers(alloc, lines, RidDirection::Send, line.send.as_slice())?;
    let recv = layers(alloc, lines, RidDirection::Recv, line.recv.as_slice())?;
    Ok(Simulcast { send, recv })
}
