//! What is wrong with the new lines of an answer.
ghost use Rattle.std.specs.Prelude.{◌≡◌, ◌<◌, ◌^◌, ◌-◌, length, Some};
ghost use Rattle.std.specs.Option.{option_copied};
ghost use Rattle.rtc_change.specs.WrongLines.{at_its_place, not_that_media, not_that_channel, by_added, wrong_line, wrong_lines};
ghost use Rattle.rtc_peer_rows.specs.Table.{Distinct};
ghost use Rattle.rtc_change.specs.TableAfter.{new_places};

use crate::table_after::is_new_line;
use rtc_peer_rows::{MidIndex, NewLine, ParsedLine};
use rtc_sdp_values::{LineKind, LineRow, MediaKind, Mid};

fn judge_its_place(offered: u32, place: u32, mid: Mid) -> Option<NewLine>
    ensures { result ≡ at_its_place offered place mid }
{
    if offered == place {
        None
    } else {
        Some(NewLine::OtherPlace(mid))
    }
}

fn judge_new_media(
    offered: u32,
    kind: MediaKind,
    place: u32,
    parsed: &ParsedLine,
) -> Option<NewLine>
    ensures { result ≡ not_that_media offered kind place parsed.now }
{
    match parsed.kind {
        LineKind::Audio if kind == MediaKind::Audio => judge_its_place(offered, place, parsed.mid),
        LineKind::Video if kind == MediaKind::Video => judge_its_place(offered, place, parsed.mid),
        LineKind::Audio | LineKind::Video => Some(NewLine::OtherKind(parsed.mid)),
        other => Some(NewLine::NotMedia(parsed.mid, other)),
    }
}

fn judge_new_channel(offered: u32, place: u32, parsed: &ParsedLine) -> Option<NewLine>
    ensures { result ≡ not_that_channel offered place parsed.now }
{
    match parsed.kind {
        LineKind::Application => judge_its_place(offered, place, parsed.mid),
        other => Some(NewLine::NotChannel(parsed.mid, other)),
    }
}

fn judge_new_line(place: u32, parsed: &ParsedLine, added: Option<&LineRow>) -> Option<NewLine>
    ensures { result ≡ by_added place parsed.now (option_copied added.entry) }
{
    match added {
        None => Some(NewLine::NotOffered(parsed.mid)),
        Some(
            LineRow::Media {
                place: offered,
                kind,
                ..
            },
        ) => judge_new_media(*offered, *kind, place, parsed),
        Some(LineRow::App { place: offered, .. }) => judge_new_channel(*offered, place, parsed),
    }
}

fn find_wrong_line(
    rows: &MidIndex<'_>,
    added: &MidIndex<'_>,
    lines: &[ParsedLine],
) -> Option<NewLine>
    requires few { length lines.now < 2 ^ 32 - 1 }
    requires distinct { Distinct rows.now }
    ensures { result ≡ wrong_line rows.now added.now 0 lines.now }
{
    for (place, parsed) in lines.iter().enumerate() {
        if is_new_line(rows, place, parsed) {
            let wrong = judge_new_line(place as u32, parsed, added.find(parsed.mid));
            if wrong.is_some() {
                return wrong;
            }
        }
    }
    None
}

/// What is wrong with the new lines of an answer, whose offer added these rows.
pub fn judge_new_lines(
    rows: &MidIndex<'_>,
    added: &MidIndex<'_>,
    new: &[u32],
    lines: &[ParsedLine],
) -> Option<NewLine>
    requires few { length lines.now < 2 ^ 32 - 1 }
    requires distinct { Distinct rows.now }
    requires few_added { length added.now < 2 ^ 32 }
    requires few_new { length new.now < 2 ^ 32 }
    requires new { new.now ≡ new_places rows.now 0 lines.now }
    ensures { result ≡ wrong_lines rows.now added.now lines.now }
{
    let offered = added.as_slice().len();
    if offered == new.len() {
        find_wrong_line(rows, added, lines)
    } else {
        Some(NewLine::Count {
            expected: offered as u32,
            got: new.len() as u32,
        })
    }
}
