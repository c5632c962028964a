//! Values of `simulcast`.
ghost use Rattle.std.specs.Prelude.{◌≡◌, ◌++◌, IfOk, OnOk, string_bytes, map, option_map};
ghost use Rattle.std.specs.Str.{bytes_eq};
ghost use Rattle.rtc_wire_text.specs.Fields.{each};
ghost use Rattle.rtc_wire_text.specs.Once.{each_once as spec_each_once};
ghost use Rattle.rtc_wire_text.specs.Words.{joined};
ghost use Rattle.rtc_wire_text.proofs.OnceLemmas.{among, grown};
ghost use Rattle.rtc_wire_text.specs.Cuts.{cut as cut_at};
ghost use Rattle.rtc_wire_text.specs.Fronts.{from_first, is_byte};
ghost use Rattle.rtc_sdp_attributes.specs.Forms;
ghost use Rattle.rtc_sdp_attributes.specs.AttributeForms as form;
ghost use Rattle.rtc_sdp_attributes.specs.AttributeTexts as written;

use crate::rid_value::direction_of;
use crate::{RidDirection, SimulcastLine, cut};
use rtc_sdp_values::{Rid, Simulcast, SimulcastLayer};
use rtc_wire::Seq;
use rtc_wire_text::{parts, without_first, words};
use std::alloc::{AllocError, Global};
use std::collections::BTreeSet;

fn layer_name(part: &str) -> &str
    ensures { result.now ≡ from_first (is_byte 126) (Forms.front_of part.now (cut_at 44 part.now)) }
{
    match cut(part, b',') {
        Some((name, _)) => without_first(name, '~'),
        None => without_first(part, '~'),
    }
}

fn layer_rid(part: &str) -> Option<Rid>
    ensures { result ≡ form.layer_name part.now }
{
    Rid::read(layer_name(part))
}

fn layer_rids(alloc: Global, parts: &[&str]) -> Result<Option<Vec<Rid>>, AllocError>
    ensures { IfOk result (λ read. option_map (λ rids. rids.items) read ≡ each form.layer_name (map (λ part. part.now) parts.now)) }
{
    let mut rids = Vec::new(alloc);
    for part in parts {
        let Some(rid) = layer_rid(part) else {
            return Ok(None);
        };
        rids.push(rid)?;
    }
    Ok(Some(rids))
}

/// Each rid once. A set keeps those that were seen, so that the time is not in the square of the rids.
fn each_once(alloc: Global, rids: &[Rid]) -> Result<Vec<Rid>, AllocError>
    ensures { IfOk result (λ once. once.items ≡ spec_each_once bytes_eq rids.now) }
{
    let mut seen = BTreeSet::new(alloc);
    let mut once = Vec::new(alloc);
    for rid in rids {
        if seen.insert(*rid)? {
            once.push(*rid)?;
        }
    }
    Ok(once)
}

fn rids_of(alloc: Global, list: &str) -> Result<Option<Seq<Rid>>, AllocError>
    ensures { IfOk result (λ read. read ≡ form.layer_names list.now) }
{
    let parts = parts(alloc, list, ';')?;
    match layer_rids(alloc, parts.as_slice())? {
        Some(rids) => {
            let once = each_once(alloc, rids.as_slice())?;
            Ok(Some(Seq::new(once)))
        }
        None => Ok(None),
    }
}

fn one_way(
    alloc: Global,
    direction: Option<RidDirection>,
    rids: Option<Seq<Rid>>,
) -> Option<SimulcastLine>
    ensures { result ≡ form.one_way direction rids }
{
    let (Some(direction), Some(rids)) = (direction, rids) else {
        return None;
    };
    match direction {
        RidDirection::Send => Some(SimulcastLine {
            send: rids,
            recv: Seq::empty(alloc),
        }),
        RidDirection::Recv => Some(SimulcastLine {
            send: Seq::empty(alloc),
            recv: rids,
        }),
    }
}

fn both_ways(
    direction: Option<RidDirection>,
    rids: Option<Seq<Rid>>,
    other: Option<RidDirection>,
    rest: Option<Seq<Rid>>,
) -> Option<SimulcastLine>
    ensures { result ≡ form.both_ways direction rids other rest }
{
    let (Some(rids), Some(rest)) = (rids, rest) else {
        return None;
    };
    match (direction, other) {
        (Some(RidDirection::Send), Some(RidDirection::Recv)) => Some(SimulcastLine {
            send: rids,
            recv: rest,
        }),
        (Some(RidDirection::Recv), Some(RidDirection::Send)) => Some(SimulcastLine {
            send: rest,
            recv: rids,
        }),
        _ => None,
    }
}

/// The layers that a value lists (RFC 8853, section 5.1), without alternatives; whether one starts paused is not kept.
pub fn read_simulcast(alloc: Global, value: &str) -> Result<Option<SimulcastLine>, AllocError>
    ensures { IfOk result (λ read. read ≡ form.simulcast value.now) }
{
    let fields = words(alloc, value)?;
    let [direction, list, more @ ..] = fields.as_slice() else {
        return Ok(None);
    };
    if more.is_empty() {
        let rids = rids_of(alloc, list)?;
        return Ok(one_way(alloc, direction_of(direction), rids));
    }
    let [other, rest, further @ ..] = more else {
        return Ok(None);
    };
    if !further.is_empty() {
        return Ok(None);
    }
    let rids = rids_of(alloc, list)?;
    let rest = rids_of(alloc, rest)?;
    Ok(both_ways(direction_of(direction), rids, direction_of(other), rest))
}

fn put_rids(out: &mut String, layers: &[SimulcastLayer]) -> Result<(), AllocError>
    ensures { OnOk result (string_bytes out.new ≡ string_bytes out.old ++ joined 59 (written.rids_in layers.now)) }
{
    let [first, rest @ ..] = layers else {
        return Ok(());
    };
    out.push_str(first.rid.as_str())?;
    for layer in rest {
        out.push_str(";")?;
        out.push_str(layer.rid.as_str())?;
    }
    Ok(())
}

fn put_list(out: &mut String, word: &str, layers: &[SimulcastLayer]) -> Result<(), AllocError>
    ensures { OnOk result (string_bytes out.new ≡ string_bytes out.old ++ written.list_text word.now (written.rids_in layers.now)) }
{
    out.push_str(word)?;
    out.push_str(" ")?;
    put_rids(out, layers)
}

fn put_ways(
    out: &mut String,
    send: &[SimulcastLayer],
    recv: &[SimulcastLayer],
) -> Result<(), AllocError>
    ensures { OnOk result (string_bytes out.new
        ≡ string_bytes out.old ++ written.ways_text (written.rids_in send.now) (written.rids_in recv.now)) }
{
    match (send, recv) {
        ([], []) => Ok(()),
        ([_, ..], []) => put_list(out, "send", send),
        ([], [_, ..]) => put_list(out, "recv", recv),
        ([_, ..], [_, ..]) => {
            put_list(out, "send", send)?;
            out.push_str(" ")?;
            put_list(out, "recv", recv)
        }
    }
}

/// Appends the value that lists layers: those that are sent, then those that are received.
#[tactic(auto, unfolding(crate::specs::AttributeTexts::simulcast_text))]
pub fn put_simulcast(out: &mut String, simulcast: &Simulcast) -> Result<(), AllocError>
    ensures { OnOk result (string_bytes out.new ≡ string_bytes out.old ++ written.simulcast_text simulcast.now) }
{
    put_ways(out, simulcast.send.as_slice(), simulcast.recv.as_slice())
}
