//! Values of `rid`.
ghost use Rattle.std.specs.Prelude.{◌≡◌, ◌++◌, IfOk, OnOk, string_bytes, [], ◌∷◌, filter, map, option_map};
ghost use Rattle.rtc_sdp_attributes.specs.Forms;
ghost use Rattle.rtc_wire_text.specs.Fields.{each};
ghost use Rattle.rtc_sdp_attributes.specs.AttributeForms as form;
ghost use Rattle.rtc_sdp_attributes.specs.AttributeTexts as written;

use crate::{RidDirection, RidLine, cut};
use rtc_sdp_values::Rid;
use rtc_wire::{Seq, Text};
use rtc_wire_text::parts;
use std::alloc::{AllocError, Global};

pub(crate) fn direction_of(word: &str) -> Option<RidDirection>
    ensures { result ≡ Forms.one_of form.rid_direction_words word.now }
{
    if word == "send" {
        Some(RidDirection::Send)
    } else if word == "recv" {
        Some(RidDirection::Recv)
    } else {
        None
    }
}

fn direction_word(direction: RidDirection) -> &'static str
    ensures { result.now ≡ written.rid_direction_word direction }
{
    match direction {
        RidDirection::Send => "send",
        RidDirection::Recv => "recv",
    }
}

fn pair_of(part: &str) -> Option<(&str, &str)>
    ensures { option_map (λ pair. (pair.0.now, pair.1.now)) result ≡ form.rid_pair part.now }
{
    match cut(part, b'=') {
        Some((key, value)) => if cut(value, b'=').is_none() {
            Some((key, value))
        } else {
            None
        },
        None => None,
    }
}

fn push_kept(
    alloc: Global,
    pairs: &mut Vec<(Text, Text)>,
    key: &str,
    value: &str,
) -> Result<(), AllocError>
    ensures { OnOk result (pairs.new.items ≡ pairs.old.items ++ filter form.is_kept ((key.now, value.now) ∷ [])) }
{
    if key == "pt" {
        return Ok(());
    }
    let key = Text::from_str(alloc, key)?;
    let value = Text::from_str(alloc, value)?;
    pairs.push((key, value))?;
    Ok(())
}

fn kept_pairs(alloc: Global, parts: &[&str]) -> Result<Option<Vec<(Text, Text)>>, AllocError>
    ensures { IfOk result (λ read. option_map (λ pairs. pairs.items) read
        ≡ option_map (filter form.is_kept) (each form.rid_pair (map (λ part. part.now) parts.now))) }
{
    let mut pairs = Vec::new(alloc);
    for part in parts {
        let Some((key, value)) = pair_of(part) else {
            return Ok(None);
        };
        push_kept(alloc, &mut pairs, key, value)?;
    }
    Ok(Some(pairs))
}

fn pairs_of(alloc: Global, text: &str) -> Result<Option<Seq<(Text, Text)>>, AllocError>
    ensures { IfOk result (λ read. read ≡ form.rid_pairs text.now) }
{
    let parts = parts(alloc, text, ';')?;
    match kept_pairs(alloc, parts.as_slice())? {
        Some(pairs) => Ok(Some(Seq::new(pairs))),
        None => Ok(None),
    }
}

/// The direction of a layer and its pairs, behind its name.
fn rest_of(
    alloc: Global,
    text: &str,
) -> Result<Option<(RidDirection, Seq<(Text, Text)>)>, AllocError>
    ensures { IfOk result (λ read. read ≡ Forms.tailed 32 (Forms.one_of form.rid_direction_words) [] form.rid_pairs text.now) }
{
    let Some((direction, pairs)) = cut(text, b' ') else {
        return match direction_of(text) {
            Some(direction) => Ok(Some((direction, Seq::empty(alloc)))),
            None => Ok(None),
        };
    };
    let Some(direction) = direction_of(direction) else {
        return Ok(None);
    };
    match pairs_of(alloc, pairs)? {
        Some(pairs) => Ok(Some((direction, pairs))),
        None => Ok(None),
    }
}

/// The layer that a value restricts (RFC 8851, section 4). A pair `pt` is dropped.
pub fn read_rid(alloc: Global, value: &str) -> Result<Option<RidLine>, AllocError>
    ensures { IfOk result (λ read. read ≡ form.rid value.now) }
{
    let Some((rid, rest)) = cut(value, b' ') else {
        return Ok(None);
    };
    let Some(rid) = Rid::read(rid) else {
        return Ok(None);
    };
    match rest_of(alloc, rest)? {
        Some((direction, attributes)) => Ok(Some(RidLine {
            rid,
            direction,
            attributes,
        })),
        None => Ok(None),
    }
}

fn put_pair(out: &mut String, pair: &(Text, Text)) -> Result<(), AllocError>
    ensures { OnOk result (string_bytes out.new ≡ string_bytes out.old ++ written.pair_text pair.now) }
{
    out.push_str(pair.0.as_str())?;
    out.push_str("=")?;
    out.push_str(pair.1.as_str())
}

fn put_pairs(out: &mut String, pairs: &[(Text, Text)]) -> Result<(), AllocError>
    ensures { OnOk result (string_bytes out.new ≡ string_bytes out.old ++ written.pairs_text pairs.now) }
{
    let [first, rest @ ..] = pairs else {
        return Ok(());
    };
    out.push_str(" ")?;
    put_pair(out, first)?;
    for pair in rest {
        out.push_str(";")?;
        put_pair(out, pair)?;
    }
    Ok(())
}

/// Appends the value that restricts a layer.
#[tactic(auto, unfolding(crate::specs::AttributeTexts::rid_text))]
pub fn put_rid(
    out: &mut String,
    rid: &Rid,
    direction: RidDirection,
    pairs: &[(Text, Text)],
) -> Result<(), AllocError>
    ensures { OnOk result (string_bytes out.new ≡ string_bytes out.old ++ written.rid_text rid.now direction pairs.now) }
{
    out.push_str(rid.as_str())?;
    out.push_str(" ")?;
    out.push_str(direction_word(direction))?;
    put_pairs(out, pairs)
}
