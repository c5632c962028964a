//! Values of `extmap`.
ghost use Rattle.std.specs.Prelude.{◌≡◌, ◌++◌, OnOk, string_bytes, option_map};
ghost use Rattle.rtc_sdp_attributes.specs.Forms;
ghost use Rattle.rtc_sdp_attributes.specs.AttributeForms as form;
ghost use Rattle.rtc_sdp_attributes.specs.AttributeTexts as written;

use crate::{cut, put_decimal};
use rtc_sdp_values::{Direction, Extension};
use rtc_wire_text::number_up_to;
use std::alloc::AllocError;

fn direction_of(word: &str) -> Option<Direction>
    ensures { result ≡ Forms.one_of form.direction_words word.now }
{
    if word == "sendrecv" {
        Some(Direction::SendRecv)
    } else if word == "sendonly" {
        Some(Direction::SendOnly)
    } else if word == "recvonly" {
        Some(Direction::RecvOnly)
    } else if word == "inactive" {
        Some(Direction::Inactive)
    } else {
        None
    }
}

fn extension_id(word: &str) -> Option<u64>
    ensures { result ≡ Forms.positive_up_to 255 word.now }
{
    match number_up_to(255, word) {
        Some(id) if id > 0 => Some(id),
        _ => None,
    }
}

fn id_of(word: &str) -> Option<u64>
    ensures { result ≡ option_map (λ fields. fields.0) (form.extmap_id word.now) }
{
    match cut(word, b'/') {
        None => extension_id(word),
        Some((id, direction)) => {
            let id = extension_id(id)?;
            direction_of(direction)?;
            Some(id)
        }
    }
}

/// The header extension that a value maps, with its number (RFC 8285, section 8); None also if its URI is not known.
pub fn read_extmap(value: &str) -> Option<(u8, Extension)>
    ensures { result ≡ form.extmap value.now }
{
    let Some((id, uri)) = cut(value, b' ') else {
        return None;
    };
    let (Some(id), Some(extension)) = (id_of(id), Extension::from_uri(uri)) else {
        return None;
    };
    Some((id as u8, extension))
}

/// Appends the value that maps a header extension.
#[tactic(auto, unfolding(crate::specs::AttributeTexts::extmap_text))]
pub fn put_extmap(out: &mut String, id: u8, extension: Extension) -> Result<(), AllocError>
    ensures { OnOk result (string_bytes out.new ≡ string_bytes out.old ++ written.extmap_text id extension) }
{
    put_decimal(out, id as u64)?;
    out.push_str(" ")?;
    out.push_str(extension.uri())
}
