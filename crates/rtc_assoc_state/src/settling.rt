//! What an acknowledgement settles.
ghost use Rattle.std.specs.Prelude.{◌≡◌, ◌+◌, ◌≤◌, ◌<◌, List, [], ◌∷◌, ◌++◌, drop, false, if◌then◌else◌};
ghost use Rattle.rtc_assoc_state.specs.declared.item.Item.{Item};
ghost use Rattle.std.specs.VecDeque.{deque_len, deque_capacity};
ghost use Rattle.rtc_assoc_state.specs.Amounts.{Agree};
ghost use Rattle.rtc_assoc_state.specs.StreamTable.{SoundTable};
ghost use Rattle.rtc_assoc_state.specs.Streams.{stream_of, is_unclosed};
ghost use Rattle.rtc_assoc_state.specs.declared.close_state.CloseState.TheVariants.{Queued};
ghost use Rattle.rtc_parts.specs.declared.assoc_event.AssocEvent.TheVariants.{BufferedAmountLow};
ghost use Rattle.rtc_assoc_state.specs.Settling.{told_of, reaches, close_settled, item_settled, settled};

use crate::amounts::{amount_in, lower};
use crate::close_state::CloseState;
use crate::queues::enqueue;
use crate::stream_row::StreamRow;
use crate::stream_table::StreamTable;
use crate::{ItemPart, Outgoing};
use rtc_parts::AssocEvent;
use std::collections::{BTreeMap, VecDeque};

fn is_reached(threshold: Option<usize>, before: usize, after: usize) -> bool
    ensures { result ≡ reaches threshold before after }
{
    match threshold {
        None => false,
        Some(n) => n < before && after <= n,
    }
}

/// This end's close of a stream, which was queued, was acknowledged.
fn settle_queued(mut row: StreamRow, streams: &mut StreamTable, events: &mut VecDeque<AssocEvent>)
    requires room { deque_len events.old < deque_capacity events.old }
    requires sound { SoundTable streams.old.rows.items streams.old.places streams.old.at_last }
    requires queued { is_unclosed (stream_of row.stream streams.old.rows.items).close ≡ false }
    ensures told { told_of streams.new.rows.items events.new.items
        ≡ close_settled Queued row (told_of streams.old.rows.items events.old.items) }
    ensures sound { SoundTable streams.new.rows.items streams.new.places streams.new.at_last }
    ensures len { deque_len events.new ≤ deque_len events.old + 1 }
    ensures capacity { deque_capacity events.old ≤ deque_capacity events.new }
{
    if row.finished && row.generation < u32::MAX {
        streams.replace_row(row.reset());
        enqueue(events, AssocEvent::ResetComplete(row.stream));
        return;
    }
    row.close = CloseState::Acknowledged;
    streams.replace_row(row);
}

/// This end's close of a stream was acknowledged.
fn settle_close(stream: u16, streams: &mut StreamTable, events: &mut VecDeque<AssocEvent>)
    requires room { deque_len events.old < deque_capacity events.old }
    requires sound { SoundTable streams.old.rows.items streams.old.places streams.old.at_last }
    ensures sound { SoundTable streams.new.rows.items streams.new.places streams.new.at_last }
    ensures told { told_of streams.new.rows.items events.new.items
        ≡ (let row = stream_of stream streams.old.rows.items in
        close_settled row.close row (told_of streams.old.rows.items events.old.items)) }
    ensures len { deque_len events.new ≤ deque_len events.old + 1 }
    ensures capacity { deque_capacity events.old ≤ deque_capacity events.new }
{
    let row = streams.row_of(stream);
    match row.close {
        CloseState::Unclosed | CloseState::Acknowledged => {}
        CloseState::Queued => settle_queued(row, streams, events),
    }
}

/// The buffered amount of a stream fell.
fn settle_piece(
    stream: u16,
    before: usize,
    after: usize,
    streams: &StreamTable,
    events: &mut VecDeque<AssocEvent>,
)
    requires room { deque_len events.old < deque_capacity events.old }
    requires sound { SoundTable streams.now.rows.items streams.now.places streams.now.at_last }
    ensures items { events.new.items
        ≡ (if reaches (stream_of stream streams.now.rows.items).threshold before after
        then events.old.items ++ BufferedAmountLow stream ∷ [] else events.old.items) }
    ensures len { deque_len events.new ≤ deque_len events.old + 1 }
    ensures capacity { deque_capacity events.old ≤ deque_capacity events.new }
{
    let row = streams.row_of(stream);
    if is_reached(row.threshold, before, after) {
        enqueue(events, AssocEvent::BufferedAmountLow(stream));
    }
}

/// The item that was first is acknowledged: what is reported of it, with the items that are left behind it.
fn settle_item(
    item: &Outgoing,
    amounts: &mut BTreeMap<u16, usize>,
    streams: &mut StreamTable,
    events: &mut VecDeque<AssocEvent>,
)
    requires room { deque_len events.old < deque_capacity events.old }
    requires sound { SoundTable streams.old.rows.items streams.old.places streams.old.at_last }
    ensures told { (behind : List Item) → Agree amounts.old (item.now ∷ behind)
        → told_of streams.new.rows.items events.new.items
        ≡ item_settled item.now behind (told_of streams.old.rows.items events.old.items) }
    ensures agree { (behind : List Item) → Agree amounts.old (item.now ∷ behind) → Agree amounts.new behind }
    ensures sound { SoundTable streams.new.rows.items streams.new.places streams.new.at_last }
    ensures len { deque_len events.new ≤ deque_len events.old + 1 }
    ensures capacity { deque_capacity events.old ≤ deque_capacity events.new }
{
    let item = item.item();
    let stream = item.stream;
    let before = amount_in(amounts, stream);
    lower(amounts, stream, item.bytes.as_slice().len());
    let after = amount_in(amounts, stream);
    match item.part {
        ItemPart::Close => settle_close(stream, streams, events),
        ItemPart::More => settle_piece(stream, before, after, streams, events),
        ItemPart::Last => settle_piece(stream, before, after, streams, events),
    }
}

/// The first items are acknowledged, one after the other.
pub fn settle(
    count: usize,
    items: &mut VecDeque<Outgoing>,
    amounts: &mut BTreeMap<u16, usize>,
    streams: &mut StreamTable,
    events: &mut VecDeque<AssocEvent>,
)
    requires count { count ≤ deque_len items.old }
    requires room { deque_len events.old + count ≤ deque_capacity events.old }
    requires agree { Agree amounts.old items.old.items }
    requires sound { SoundTable streams.old.rows.items streams.old.places streams.old.at_last }
    ensures told { told_of streams.new.rows.items events.new.items
        ≡ settled count items.old.items (told_of streams.old.rows.items events.old.items) }
    ensures items { items.new.items ≡ drop count items.old.items }
    ensures agree { Agree amounts.new items.new.items }
    ensures sound { SoundTable streams.new.rows.items streams.new.places streams.new.at_last }
{
    for _ in 0..count {
        let Some(item) = items.pop_front() else {
            return;
        };
        settle_item(&item, amounts, streams, events);
    }
}
