//! Staged changes: the lines that they add, and the channels that are taken out of them.
use rtc_change::{AddMedia, Change, Changes, Lines, Plan, count_added};
use rtc_examples_cases::{is_ok, is_true};
use rtc_lines::{Direction, LineRow, MediaKind, Mid, Msid};
use rtc_wire::{ChannelConfig, ChannelId, Seq, Text, TryCopy};
use std::alloc::{AllocError, Global};

fn no_text(alloc: Global) -> Text {
    Text::new(String::new(alloc))
}

// A line of audio that sends, without names.
fn media(alloc: Global, mid: Mid) -> AddMedia {
    AddMedia {
        mid,
        cname: no_text(alloc),
        msid: Msid {
            stream_id: no_text(alloc),
            track_id: no_text(alloc),
        },
        kind: MediaKind::Audio,
        dir: Direction::SendOnly,
        ssrcs: Seq::empty(alloc),
        simulcast: None,
    }
}

fn add_lines(
    alloc: Global,
    changes: &mut Seq<Change>,
    mid: Mid,
    other: Mid,
) -> Result<(), AllocError> {
    changes.push(Change::AddApp(mid))?;
    changes.push(Change::AddChannel(ChannelId::new(9), ChannelConfig::new(alloc)))?;
    changes.push(Change::AddMedia(media(alloc, other)))
}

fn have_places(changes: &Changes, mid: Mid, other: Mid) -> Result<bool, AllocError> {
    if count_added(changes.0.as_slice()) != 2 {
        return Ok(false);
    }
    let rows = changes.as_new_medias(0)?;
    let app = LineRow::App { place: 0, mid };
    let audio = LineRow::Media {
        place: 1,
        mid: other,
        kind: MediaKind::Audio,
        dir: Direction::SendOnly,
        stopped: false,
        remote_created: false,
    };
    Ok(rows.as_slice() == [app, audio].as_slice())
}

fn is_channel_taken(changes: &mut Changes) -> Result<bool, AllocError> {
    let channels = changes.take_new_channels()?;
    match channels.as_slice() {
        [taken] => Ok(taken.0.number() == 9),
        _ => Ok(false),
    }
}

// Whether there is room for a plan that leaves no row.
fn is_room_made(alloc: Global) -> bool {
    let plan = Plan {
        rows: Seq::empty(alloc),
        removed: Seq::empty(alloc),
        added: Seq::empty(alloc),
        restart: false,
        snap: false,
    };
    let mut lines = Lines::new(alloc);
    is_ok(lines.reserve(&plan))
}

// Whether the lines that are added have places that count up, and a channel between them has none, and is taken out alone. That a copy is
// equal is a clause of `copy`.
fn are_places_given(alloc: Global, mid: Mid, other: Mid) -> bool {
    let mut changes = Changes(Seq::empty(alloc));
    let added = is_ok(add_lines(alloc, &mut changes.0, mid, other));
    let copied = is_ok(changes.copy());
    let placed = is_true(have_places(&changes, mid, other));
    let taken = is_true(is_channel_taken(&mut changes));
    added & copied & placed & taken & (changes.0.len() == 2) & is_room_made(alloc)
}

/// Whether an example of changes gives what is expected.
pub fn does_agree(alloc: Global, mids: (Mid, Mid), example: &str) -> bool {
    match example {
        "give places to the lines that they add" => are_places_given(alloc, mids.0, mids.1),
        _ => false,
    }
}
