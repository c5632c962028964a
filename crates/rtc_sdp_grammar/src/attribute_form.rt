//! Attributes by their names, which are distinguished by length first.
ghost use Rattle.std.specs.Prelude.{◌≡◌, IfOk, IsOk, OnOk};
ghost use Rattle.rtc_sdp_attributes.specs.Forms as forms;
ghost use Rattle.rtc_sdp_grammar.specs.declared.attribute.Attribute.TheVariants.{DirectionLine, LiteLine};
ghost use Rattle.rtc_sdp_grammar.specs.declared.level.Level.TheVariants.{MediaLevel, SessionLevel};
ghost use Rattle.rtc_sdp_grammar.specs.ItemForm.{attribute as attribute_line};
ghost use Rattle.rtc_sdp_grammar.specs.NameLengths as names;
ghost use Rattle.rtc_sdp_grammar.specs.Table as spec;

use crate::connection_form::{
    candidate, fingerprint, message_size, mid, password, sctp_init, setup, ufrag,
};
use crate::group_form::group;
use crate::media_attribute_form::{
    codec, extension, layer, layer_list, parameters, source, source_pair, stream,
};
use crate::{Attribute, Item, Level, Strict};
use rtc_sdp_attributes::cut;
use rtc_sdp_values::Direction;
use std::alloc::{AllocError, Global};

#[inline(always)]
fn or_refused(level: Level, what: Strict, read: Option<Attribute>) -> Item
    ensures { result ≡ spec.row_item level (spec.Refuses what) read }
{
    match read {
        Some(attribute) => Item::Says(level, attribute),
        None => Item::Malformed(level, what),
    }
}

#[inline(always)]
fn or_skipped(level: Level, read: Option<Attribute>) -> Item
    ensures { result ≡ spec.row_item level spec.IsSkipped read }
{
    match read {
        Some(attribute) => Item::Says(level, attribute),
        None => Item::Skipped,
    }
}

#[inline(always)]
fn read_or_skipped(
    level: Level,
    read: Result<Option<Attribute>, AllocError>,
) -> Result<Item, AllocError>
    ensures item { IfOk result (λ item. IfOk read (λ attribute. item ≡ spec.row_item level spec.IsSkipped attribute)) }
    ensures read { OnOk result (IsOk read) }
{
    let attribute = read?;
    Ok(or_skipped(level, attribute))
}

#[inline(always)]
fn lite(value: Option<&str>) -> Item
    ensures { result ≡ spec.row_item SessionLevel spec.IsSkipped (forms.bare LiteLine (names.bytes_shown value.entry)) }
{
    match value {
        Some(_) => Item::Skipped,
        None => Item::Says(Level::SessionLevel, Attribute::LiteLine),
    }
}

#[inline(always)]
fn direction(dir: Direction, value: Option<&str>) -> Item
    ensures { result ≡ spec.row_item MediaLevel spec.IsSkipped (forms.bare (DirectionLine dir) (names.bytes_shown value.entry)) }
{
    match value {
        Some(_) => Item::Skipped,
        None => Item::Says(Level::MediaLevel, Attribute::DirectionLine(dir)),
    }
}

#[inline(always)]
fn of_3(alloc: Global, name: &str, value: Option<&str>) -> Result<Item, AllocError>
    ensures { IfOk result (λ item. item ≡ spec.looked_up (names.of_length 3 spec.table) name.now (names.bytes_shown value.entry)) }
{
    if name == "mid" {
        Ok(or_refused(Level::MediaLevel, Strict::Mid, mid(value)))
    } else if name == "rid" {
        read_or_skipped(Level::MediaLevel, layer(alloc, value))
    } else {
        Ok(Item::Skipped)
    }
}

#[inline(always)]
fn of_4(alloc: Global, name: &str, value: Option<&str>) -> Result<Item, AllocError>
    ensures { IfOk result (λ item. item ≡ spec.looked_up (names.of_length 4 spec.table) name.now (names.bytes_shown value.entry)) }
{
    if name == "fmtp" {
        read_or_skipped(Level::MediaLevel, parameters(alloc, value))
    } else if name == "msid" {
        read_or_skipped(Level::MediaLevel, stream(alloc, value))
    } else if name == "ssrc" {
        read_or_skipped(Level::MediaLevel, source(alloc, value))
    } else {
        Ok(Item::Skipped)
    }
}

#[inline(always)]
fn of_5(alloc: Global, name: &str, value: Option<&str>) -> Result<Item, AllocError>
    ensures { IfOk result (λ item. item ≡ spec.looked_up (names.of_length 5 spec.table) name.now (names.bytes_shown value.entry)) }
{
    if name == "group" {
        let read = group(alloc, value)?;
        Ok(or_refused(Level::SessionLevel, Strict::Group, read))
    } else if name == "setup" {
        Ok(or_refused(Level::AnyLevel, Strict::Setup, setup(value)))
    } else {
        Ok(Item::Skipped)
    }
}

#[inline(always)]
fn of_6(alloc: Global, name: &str, value: Option<&str>) -> Result<Item, AllocError>
    ensures { IfOk result (λ item. item ≡ spec.looked_up (names.of_length 6 spec.table) name.now (names.bytes_shown value.entry)) }
{
    if name == "rtpmap" {
        read_or_skipped(Level::MediaLevel, codec(alloc, value))
    } else if name == "extmap" {
        Ok(or_skipped(Level::MediaLevel, extension(value)))
    } else {
        Ok(Item::Skipped)
    }
}

#[inline(always)]
fn of_7(alloc: Global, name: &str, value: Option<&str>) -> Result<Item, AllocError>
    ensures { IfOk result (λ item. item ≡ spec.looked_up (names.of_length 7 spec.table) name.now (names.bytes_shown value.entry)) }
{
    if name == "ice-pwd" {
        read_or_skipped(Level::AnyLevel, password(alloc, value))
    } else {
        Ok(Item::Skipped)
    }
}

#[inline(always)]
fn of_8(name: &str, value: Option<&str>) -> Item
    ensures { result ≡ spec.looked_up (names.of_length 8 spec.table) name.now (names.bytes_shown value.entry) }
{
    if name == "ice-lite" {
        lite(value)
    } else if name == "sendrecv" {
        direction(Direction::SendRecv, value)
    } else if name == "sendonly" {
        direction(Direction::SendOnly, value)
    } else if name == "recvonly" {
        direction(Direction::RecvOnly, value)
    } else if name == "inactive" {
        direction(Direction::Inactive, value)
    } else {
        Item::Skipped
    }
}

#[inline(always)]
fn of_9(alloc: Global, name: &str, value: Option<&str>) -> Result<Item, AllocError>
    ensures { IfOk result (λ item. item ≡ spec.looked_up (names.of_length 9 spec.table) name.now (names.bytes_shown value.entry)) }
{
    if name == "ice-ufrag" {
        read_or_skipped(Level::AnyLevel, ufrag(alloc, value))
    } else if name == "candidate" {
        read_or_skipped(Level::MediaLevel, candidate(alloc, value))
    } else if name == "simulcast" {
        read_or_skipped(Level::MediaLevel, layer_list(alloc, value))
    } else if name == "sctp-init" {
        read_or_skipped(Level::MediaLevel, sctp_init(alloc, value))
    } else {
        Ok(Item::Skipped)
    }
}

#[inline(always)]
fn of_10(name: &str, value: Option<&str>) -> Item
    ensures { result ≡ spec.looked_up (names.of_length 10 spec.table) name.now (names.bytes_shown value.entry) }
{
    if name == "ssrc-group" {
        or_skipped(Level::MediaLevel, source_pair(value))
    } else {
        Item::Skipped
    }
}

#[inline(always)]
fn of_11(alloc: Global, name: &str, value: Option<&str>) -> Result<Item, AllocError>
    ensures { IfOk result (λ item. item ≡ spec.looked_up (names.of_length 11 spec.table) name.now (names.bytes_shown value.entry)) }
{
    if name == "fingerprint" {
        let read = fingerprint(alloc, value)?;
        Ok(or_refused(Level::AnyLevel, Strict::Fingerprint, read))
    } else {
        Ok(Item::Skipped)
    }
}

#[inline(always)]
fn of_16(name: &str, value: Option<&str>) -> Item
    ensures { result ≡ spec.looked_up (names.of_length 16 spec.table) name.now (names.bytes_shown value.entry) }
{
    if name == "max-message-size" {
        or_refused(Level::MediaLevel, Strict::MessageSize, message_size(value))
    } else {
        Item::Skipped
    }
}

/// What an attribute of this name says: `a=NAME:VALUE`, or `a=NAME`.
#[inline(always)]
fn attribute_item(alloc: Global, name: &str, value: Option<&str>) -> Result<Item, AllocError>
    ensures { IfOk result (λ item. item ≡ spec.attribute_item name.now (names.bytes_shown value.entry)) }
{
    match name.len() {
        3 => of_3(alloc, name, value),
        4 => of_4(alloc, name, value),
        5 => of_5(alloc, name, value),
        6 => of_6(alloc, name, value),
        7 => of_7(alloc, name, value),
        8 => Ok(of_8(name, value)),
        9 => of_9(alloc, name, value),
        10 => Ok(of_10(name, value)),
        11 => of_11(alloc, name, value),
        16 => Ok(of_16(name, value)),
        _ => Ok(Item::Skipped),
    }
}

/// What an `a=` line says (RFC 8866, section 5.13).
#[inline(always)]
pub(crate) fn attribute(alloc: Global, value: &str) -> Result<Item, AllocError>
    ensures { IfOk result (λ item. item ≡ attribute_line value.now) }
{
    match cut(value, b':') {
        None => attribute_item(alloc, value, None),
        Some((name, value)) => attribute_item(alloc, name, Some(value)),
    }
}
