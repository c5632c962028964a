//! Lines, and what updates make of them.
ghost use Rattle.std.specs.Prelude.{◌≡◌, ◌≤◌, ◌<◌, ◌+◌, ◌-◌, ◌^◌, ◌++◌, [], ℕ};
ghost use Rattle.std.specs.List.{list_any};
ghost use Rattle.std.specs.Option.{option_copied};
ghost use Rattle.std.specs.VecDeque.{deque_len, deque_capacity};
ghost use Rattle.indexmap.specs.IndexMap.{insert_entry, spare};
ghost use Rattle.rtc_parts.specs.MediaUpdates.{removed_by, removes, same_mid, update_mid};
ghost use Rattle.rtc_plain_media.specs.Lines.{
  same_key,
  set_line,
  held_line,
  writer_mark,
  some_event,
  tell_row,
  tell_changed,
  events_of,
  lines_after,
  events_after,
  without_lines,
  removes_some,
};
ghost use Rattle.rtc_plain_media.specs.SourceCounts.{
  count_for,
  gone_count,
  update_count,
  held_count,
  update_numbers,
  updates_numbers,
  CountsLines,
  CountsLess,
};

use crate::held_line::HeldLine;
use crate::line_key::LineKey;
use crate::source_counts::{self, SourceCounts};
use crate::{PlainMark, PlainMediaEvent};
use indexmap::IndexMap;
use rtc_parts::MediaUpdate;
use rtc_sdp_values::{Direction, LineRow, Mid};
use std::collections::VecDeque;

/// The lines by their mids.
pub type Lines = IndexMap<LineKey, HeldLine>;

/// That a line has another direction than it had.
fn tell_changed(mid: Mid, dir: Direction, before: &LineRow) -> Option<PlainMediaEvent>
    ensures { result ≡ tell_changed mid dir before.now }
{
    match before {
        LineRow::Media { dir: held, .. } => {
            if held.is_same(dir) {
                None
            } else {
                Some(PlainMediaEvent::Changed(mid, dir))
            }
        }
        LineRow::App { .. } => None,
    }
}

/// What is reported of a row, from the line of its mid before.
fn tell_row(row: &LineRow, announce: bool, before: Option<&HeldLine>) -> Option<PlainMediaEvent>
    ensures { result ≡ tell_row row.now announce (option_copied before.entry) }
{
    match row {
        LineRow::Media { mid, kind, dir, .. } => {
            if announce {
                return Some(PlainMediaEvent::Added(*mid, *kind, *dir));
            }
            match before {
                None => None,
                Some(line) => tell_changed(*mid, *dir, &line.update.row),
            }
        }
        LineRow::App { .. } => None,
    }
}

/// The mark of the writer of a line, which starts at 0.
fn mark_at(lines: &Lines, key: &LineKey) -> PlainMark
    ensures { result ≡ writer_mark (held_line key.now.mid lines.now.entries) }
{
    match lines.get(key) {
        Some(line) => line.mark,
        None => PlainMark { count: 0 },
    }
}

/// What is reported of an update.
fn event_at(lines: &Lines, key: &LineKey, update: &MediaUpdate) -> Option<PlainMediaEvent>
    ensures { result ≡ tell_row update.now.row update.now.announce (held_line key.now.mid lines.now.entries) }
{
    tell_row(&update.row, update.announce, lines.get(key))
}

/// Queues an event, if there is one, in room that was made.
fn tell(events: &mut VecDeque<PlainMediaEvent>, event: Option<PlainMediaEvent>)
    requires { deque_len events.old < deque_capacity events.old }
    ensures events { events.new.items ≡ events.old.items ++ some_event event }
    ensures len { deque_len events.new ≤ deque_len events.old + 1 }
    ensures capacity { deque_capacity events.old ≤ deque_capacity events.new }
{
    match event {
        Some(event) => events.push_back_reserved(event),
        None => {}
    }
}

/// Puts a line in room that was made, and returns the line of its mid before.
fn put_line(lines: &mut Lines, key: LineKey, line: HeldLine) -> Option<HeldLine>
    requires { 0 < spare lines.old }
    ensures before { result ≡ held_line key.mid lines.old.entries }
    ensures entries { lines.new.entries ≡ insert_entry same_key lines.old.entries key line }
    ensures spare { spare lines.old ≤ spare lines.new + 1 }
{
    match lines.insert(key, line) {
        Ok(before) => before,
        Err(_) => unreachable!(),
    }
}

/// Drops a value, by one call for all that is in it.
fn release<T: Drop>(_value: T) {}

/// Counts the SSRCs of a line no more, if there was one.
fn drop_sources(counts: &mut SourceCounts, line: &Option<HeldLine>)
    ensures counts { (n : ℕ) → count_for counts.new n ≡ count_for counts.old n - held_count n line.now }
    ensures room { spare counts.old ≤ spare counts.new }
{
    if let Some(line) = line {
        source_counts::drop_line(counts, &line.update);
    }
}

/// Puts an update in the place of the line of its mid, and reports it. Room was made for all of it.
fn apply(
    lines: &mut Lines,
    counts: &mut SourceCounts,
    events: &mut VecDeque<PlainMediaEvent>,
    update: MediaUpdate,
)
    requires lines { 0 < spare lines.old }
    requires counts { update_numbers update ≤ spare counts.old }
    requires fits { (n : ℕ) → count_for counts.old n + update_numbers update < 2 ^ 64 }
    requires events { deque_len events.old < deque_capacity events.old }
    ensures lines { lines.new.entries ≡ set_line update lines.old.entries }
    ensures counts { (n : ℕ) → count_for counts.new n
        ≡ count_for counts.old n + update_count n update - held_count n (held_line (update_mid update) lines.old.entries) }
    ensures events { events.new.items ≡ events.old.items ++ events_of update lines.old.entries }
    ensures spare { spare lines.old ≤ spare lines.new + 1 }
    ensures room { spare counts.old ≤ spare counts.new + update_numbers update }
    ensures len { deque_len events.new ≤ deque_len events.old + 1 }
    ensures capacity { deque_capacity events.old ≤ deque_capacity events.new }
{
    let key = LineKey {
        mid: update.row.mid(),
    };
    let event = event_at(lines, &key, &update);
    let mark = mark_at(lines, &key);
    tell(events, event);
    source_counts::add_line(counts, &update);
    let before = put_line(lines, key, HeldLine { update, mark });
    drop_sources(counts, &before);
    release(before);
}

/// Applies updates in turn. Room was made for all of them.
pub fn apply_all(
    lines: &mut Lines,
    counts: &mut SourceCounts,
    events: &mut VecDeque<PlainMediaEvent>,
    pending: &mut VecDeque<MediaUpdate>,
)
    requires lines { deque_len pending.old ≤ spare lines.old }
    requires counts { updates_numbers pending.old.items ≤ spare counts.old }
    requires counted { CountsLines counts.old lines.old.entries }
    requires fits { (n : ℕ) → count_for counts.old n + updates_numbers pending.old.items < 2 ^ 64 }
    requires events { deque_len events.old + deque_len pending.old ≤ deque_capacity events.old }
    ensures lines { lines.new.entries ≡ lines_after pending.old.items lines.old.entries }
    ensures counts { CountsLines counts.new lines.new.entries }
    ensures most { (n : ℕ) → count_for counts.new n ≤ count_for counts.old n + updates_numbers pending.old.items }
    ensures events { events.new.items ≡ events.old.items ++ events_after pending.old.items lines.old.entries }
    ensures pending { pending.new.items ≡ [] }
    ensures empty { deque_len pending.new ≡ 0 }
    ensures room { deque_len events.new ≤ deque_capacity events.new }
{
    while let Some(update) = pending.pop_front() {
        apply(lines, counts, events, update);
    }
}

/// Whether an update removes a line.
fn removes(update: &MediaUpdate, mid: Mid) -> bool
    ensures { result ≡ removes mid update.now }
{
    match update.removed {
        Some(other) => mid == other,
        None => false,
    }
}

/// Whether one of some updates removes a line.
fn any_removes(updates: &VecDeque<MediaUpdate>, mid: Mid) -> bool
    ensures { result ≡ list_any (removes mid) updates.now.items }
{
    updates.iter().any(|update| removes(update, mid))
}

/// Whether a row of some updates has a mid.
fn any_names(updates: &VecDeque<MediaUpdate>, mid: Mid) -> bool
    ensures { result ≡ list_any (λ u. same_mid mid (update_mid u)) updates.now.items }
{
    updates.iter().any(|update| mid == update.row.mid())
}

/// Whether a mid is removed by some updates, and has no row.
pub fn is_removed(updates: &VecDeque<MediaUpdate>, mid: Mid) -> bool
    ensures { result ≡ removed_by updates.now.items mid }
{
    any_removes(updates, mid) && !any_names(updates, mid)
}

/// Whether one of some updates removes a line.
pub fn any_removal(updates: &VecDeque<MediaUpdate>) -> bool
    ensures { result ≡ list_any removes_some updates.now.items }
{
    updates.iter().any(|update| update.removed.is_some())
}

/// Counts the SSRCs of lines no more that some updates remove.
fn drop_removed_sources(counts: &mut SourceCounts, lines: &Lines, updates: &VecDeque<MediaUpdate>)
    ensures counts { (n : ℕ) → count_for counts.new n
        ≡ count_for counts.old n - gone_count n (removed_by updates.now.items) lines.now.entries }
    ensures room { spare counts.old ≤ spare counts.new }
{
    for (key, line) in lines.iter() {
        if is_removed(updates, key.mid) {
            source_counts::drop_line(counts, &line.update);
        }
    }
}

/// Counts the SSRCs of a line no more.
fn drop_sources_of(counts: &mut SourceCounts, lines: &Lines, mid: Mid)
    ensures counts { (n : ℕ) → count_for counts.new n
        ≡ count_for counts.old n - gone_count n (λ other. same_mid other mid) lines.now.entries }
    ensures room { spare counts.old ≤ spare counts.new }
{
    for (key, line) in lines.iter() {
        if key.mid == mid {
            source_counts::drop_line(counts, &line.update);
        }
    }
}

/// Drops the lines that some updates remove.
fn retain_lines(lines: &mut Lines, updates: &VecDeque<MediaUpdate>)
    ensures lines { lines.new.entries ≡ without_lines (removed_by updates.now.items) lines.old.entries }
    ensures spare { spare lines.old ≤ spare lines.new }
{
    lines.retain(|key, _line| !is_removed(updates, key.mid));
}

/// Drops the line of a mid.
fn retain_others(lines: &mut Lines, mid: Mid)
    ensures lines { lines.new.entries ≡ without_lines (λ other. same_mid other mid) lines.old.entries }
    ensures spare { spare lines.old ≤ spare lines.new }
{
    lines.retain(|key, _line| key.mid != mid);
}

/// Drops the lines that some updates remove, and counts their SSRCs no more. The lines are looked through only if one does.
pub fn drop_removed(lines: &mut Lines, counts: &mut SourceCounts, updates: &VecDeque<MediaUpdate>)
    ensures lines { lines.new.entries ≡ without_lines (removed_by updates.now.items) lines.old.entries }
    ensures spare { spare lines.old ≤ spare lines.new }
    ensures counts { CountsLines counts.old lines.old.entries → CountsLines counts.new lines.new.entries }
    ensures less { CountsLess counts.old counts.new }
    ensures room { spare counts.old ≤ spare counts.new }
{
    if !any_removal(updates) {
        return;
    }
    drop_removed_sources(counts, lines, updates);
    retain_lines(lines, updates);
}

/// Drops a line, and counts its SSRCs no more.
pub fn drop_line(lines: &mut Lines, counts: &mut SourceCounts, mid: Mid)
    ensures lines { lines.new.entries ≡ without_lines (λ other. same_mid other mid) lines.old.entries }
    ensures spare { spare lines.old ≤ spare lines.new }
    ensures counts { CountsLines counts.old lines.old.entries → CountsLines counts.new lines.new.entries }
    ensures less { CountsLess counts.old counts.new }
    ensures room { spare counts.old ≤ spare counts.new }
{
    drop_sources_of(counts, lines, mid);
    retain_others(lines, mid);
}
