//! The form of lines.
ghost use Rattle.std.specs.Prelude.{◌≡◌, ◌∷◌, [], map, IfOk, IfSome};
ghost use Rattle.std.specs.Char.{is_ascii_lowercase};
ghost use Rattle.std.specs.List.{list_all};
ghost use Rattle.rtc_sdp_attributes.specs.Forms as forms;
ghost use Rattle.rtc_sdp_grammar.specs.ItemForm as spec;

use crate::Item;
use crate::attribute_form::attribute;
use crate::media_form::{is_filled, media};
use rtc_sdp_attributes::cut;
use rtc_wire_text::{number, words};
use std::alloc::{AllocError, Global};

/// Whether the words beside the number of an origin have bytes.
fn is_origin_filled(user: &str, version: &str, network: &str, family: &str, address: &str) -> bool
    ensures { result ≡ list_all forms.is_filled (user.now ∷ version.now ∷ network.now ∷ family.now ∷ address.now ∷ []) }
{
    is_filled(user)
        && is_filled(version)
        && is_filled(network)
        && is_filled(family)
        && is_filled(address)
}

fn origin_of(fields: &[&str]) -> Item
    ensures { result ≡ spec.origin_words (map (λ field. field.now) fields.now) }
{
    let [user, id, version, network, family, address] = fields else {
        return Item::Skipped;
    };
    if !is_origin_filled(user, version, network, family, address) {
        return Item::Skipped;
    }
    match number(id) {
        Some(id) => Item::Origin(id),
        None => Item::Skipped,
    }
}

fn origin(alloc: Global, value: &str) -> Result<Item, AllocError>
    ensures { IfOk result (λ item. item ≡ spec.origin value.now) }
{
    let fields = words(alloc, value)?;
    Ok(origin_of(fields.as_slice()))
}

fn are_lowercase(name: &str) -> bool
    ensures { result ≡ list_all is_ascii_lowercase name.now }
{
    name.bytes().all(|byte| byte.is_ascii_lowercase())
}

fn is_letter(name: &str) -> bool
    ensures { result ≡ spec.is_letter name.now }
{
    name.len() == 1 && are_lowercase(name)
}

fn lettered(alloc: Global, name: &str, value: &str) -> Result<Item, AllocError>
    ensures { IfOk result (λ item. item ≡ spec.lettered name.now value.now) }
{
    if name == "v" {
        Ok(if value == "0" {
            Item::Version
        } else {
            Item::Skipped
        })
    } else if name == "o" {
        origin(alloc, value)
    } else if name == "m" {
        media(alloc, value)
    } else if name == "a" {
        attribute(alloc, value)
    } else if is_letter(name) {
        Ok(Item::Skipped)
    } else {
        Ok(Item::Bad)
    }
}

/// What is behind `a=`; None if the line begins otherwise.
#[inline(always)]
fn attribute_value(line: &str) -> Option<&str>
    ensures { IfSome result (λ value. line.now ≡ 97 ∷ 61 ∷ value.now) }
{
    line.strip_prefix("a=")
}

/// What one line says (RFC 8866, section 5).
// Most lines are attributes, whose letter is looked at first. What they say is large: the calls on its way up are inlined, so that
// it is not moved at each of them.
#[tactic(auto, using(crate::proofs::WordLemmas::blank_line, crate::proofs::WordLemmas::a_line, crate::proofs::WordLemmas::other_line))]
#[inline(always)]
pub fn item_of(alloc: Global, line: &str) -> Result<Item, AllocError>
    ensures { IfOk result (λ item. item ≡ spec.item_of line.now) }
{
    if line.is_empty() {
        return Ok(Item::Blank);
    }
    if let Some(value) = attribute_value(line) {
        return attribute(alloc, value);
    }
    match cut(line, b'=') {
        None => Ok(Item::Bad),
        Some((name, value)) => lettered(alloc, name, value),
    }
}
