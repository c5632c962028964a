//! What becomes of single lines.
ghost use Rattle.std.specs.Prelude.{◌≡◌, OnOk};
ghost use Rattle.rtc_wire_text.specs.Cuts as cuts;
ghost use Rattle.rtc_sdp_attributes.specs.Forms.{COLON};
ghost use Rattle.rtc_sdp_reader.specs.Parting as parting;
ghost use Rattle.rtc_sdp_reader.specs.Refusal as refusal;
ghost use Rattle.rtc_sdp_text.specs.Fates as spec;

use crate::known_name::is_known;
use crate::{Cause, Fate};
use rtc_sdp_grammar::{Attribute, Item, Level};
use rtc_sdp_reader::Place;
use rtc_wire::Seq;
use rtc_wire_text::cut;
use std::alloc::AllocError;

fn unsaid(name: &str) -> Fate
    ensures { result ≡ spec.unsaid name.now }
{
    if is_known(name) {
        Fate::NotOfItsForm
    } else {
        Fate::UnknownName
    }
}

fn unsaid_attribute(value: &str) -> Fate
    ensures { result ≡ spec.unsaid_attribute value.now (cuts.cut COLON value.now) }
{
    match cut(value, ':') {
        None => unsaid(value),
        Some((name, _)) => unsaid(name),
    }
}

fn unsaid_fate(line: &str) -> Fate
    ensures { result ≡ spec.unsaid_fate line.now }
{
    match cut(line, '=') {
        None => Fate::Frame,
        Some((letter, value)) => if letter == "a" {
            unsaid_attribute(value)
        } else {
            Fate::Frame
        },
    }
}

/// The number of an attribute of which the first in a part counts.
pub(crate) fn once_number(attribute: &Attribute) -> Option<u8>
    ensures { result ≡ spec.once_number attribute.now }
{
    match attribute {
        Attribute::SetupLine(_) => Some(1),
        Attribute::DirectionLine(_) => Some(2),
        Attribute::UfragLine(_) => Some(3),
        Attribute::PasswordLine(_) => Some(4),
        Attribute::FingerprintLine(_) => Some(5),
        Attribute::MessageSizeLine(_) => Some(6),
        Attribute::SctpInitLine(_) => Some(7),
        Attribute::StreamLine(_) => Some(8),
        Attribute::LayerListLine(_) => Some(9),
        _ => None,
    }
}

fn did_come(came: &[u8], number: Option<u8>) -> bool
    ensures { result ≡ spec.did_come came.now number }
{
    match number {
        None => false,
        Some(number) => came.contains(&number),
    }
}

fn counted_fate(came: &[u8], attribute: &Attribute) -> Fate
    ensures { result ≡ spec.counted_fate came.now attribute.now }
{
    if let Attribute::OtherGroup = attribute {
        return Fate::UnknownName;
    }
    if did_come(came, once_number(attribute)) {
        Fate::CameBefore
    } else {
        Fate::Kept
    }
}

/// Whether what counts at a level counts at a place.
pub(crate) fn does_count(level: Level, place: Place) -> bool
    ensures { result ≡ parting.counts level (spec.is_in_line place) }
{
    match (level, place) {
        (Level::AnyLevel, _) => true,
        (Level::MediaLevel, Place::Line) => true,
        (Level::MediaLevel, _) => false,
        (Level::SessionLevel, Place::Line) => false,
        (Level::SessionLevel, _) => true,
    }
}

/// What becomes of a line that does not refuse the text, behind lines of its part that said `came`.
pub(crate) fn item_fate(place: Place, came: &[u8], line: &str, item: &Item) -> Fate
    ensures { result ≡ spec.item_fate place came.now line.now item.now }
{
    match item {
        Item::Skipped => unsaid_fate(line),
        Item::Malformed(_, _) => Fate::NotHere,
        Item::Says(level, attribute) => if does_count(*level, place) {
            counted_fate(came, attribute)
        } else {
            Fate::NotHere
        },
        _ => Fate::Frame,
    }
}

fn later_cause(item: &Item) -> Cause
    ensures { result ≡ spec.later_cause item.now }
{
    match item {
        Item::Bad => Cause::NoForm,
        Item::Media(_) => Cause::NotOneMid,
        _ => Cause::Malformed,
    }
}

/// Why a line refuses the text at a place.
pub(crate) fn cause(place: Place, item: &Item) -> Cause
    ensures { result ≡ spec.cause place item.now }
{
    match place {
        Place::First => Cause::NoVersion,
        Place::Second => Cause::NoOrigin,
        Place::Session => later_cause(item),
        Place::Line => later_cause(item),
    }
}

/// The place of the line behind a line.
pub(crate) fn next(place: Place, item: &Item) -> Place
    ensures { result ≡ refusal.next place item.now }
{
    match (place, item) {
        (Place::First, Item::Version) => Place::Second,
        (Place::Second, Item::Origin(_)) => Place::Session,
        (Place::Session, Item::Media(_)) => Place::Line,
        (Place::Session, Item::BadMedia) => Place::Line,
        (place, _) => place,
    }
}

fn with_number(came: &mut Seq<u8>, number: Option<u8>) -> Result<(), AllocError>
    ensures { OnOk result (came.new ≡ spec.with_kind_number came.old number) }
{
    match number {
        None => Ok(()),
        Some(number) => came.push(number),
    }
}

/// What was seen in a part, with a line of it.
pub(crate) fn came_with(came: &mut Seq<u8>, place: Place, item: &Item) -> Result<(), AllocError>
    ensures { OnOk result (came.new ≡ spec.came_with place came.old item.now) }
{
    match item {
        Item::Media(_) | Item::BadMedia => came.clear(),
        Item::Says(level, attribute) => if does_count(*level, place) {
            with_number(came, once_number(attribute))?;
        },
        _ => {}
    }
    Ok(())
}
