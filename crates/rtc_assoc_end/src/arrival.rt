//! What items do that are received in order.
ghost use Rattle.std.specs.Prelude.{◌≡◌, ◌<◌, ◌+◌, ◌^◌, ◌∷◌, [], ◌++◌, OnOk, OnErr, false, true, vec_len, vec_capacity};
ghost use Rattle.std.specs.VecDeque.{deque_len, deque_capacity};
ghost use Rattle.rtc_assoc_state.specs.Headers.{item_with};
ghost use Rattle.rtc_assoc_state.specs.declared.item_part.ItemPart.TheVariants.{More, Last, Close};
ghost use Rattle.rtc_assoc_state.specs.declared.close_state.CloseState.TheVariants.{Unclosed};
ghost use Rattle.rtc_assoc_state.specs.Streams.{put, reset_row};
ghost use Rattle.rtc_assoc_state.specs.StreamTable.{SoundTable, HasPlaceRoom};
ghost use Rattle.rtc_assoc_state.specs.Contents.{is_ending};
ghost use Rattle.rtc_assoc_state.specs.Calls.{answered, item_counted, more_kept, last_kept, piece_came};
ghost use Rattle.rtc_assoc_state.specs.Calls.{close_came_at, finished, reset_told};
ghost use Rattle.rtc_assoc_state.specs.PlainMeaning.{Sends};

use crate::association::PlainAssociation;
use crate::queueing::{finish, make_ready, queue_close};
use rtc_assoc_state::{CloseState, ItemHeader, ItemPart, Packet, StreamRow, StreamTable, enqueue};
use rtc_parts::AssocEvent;
use rtc_wire::Moment;
use std::alloc::AllocError;
use std::collections::VecDeque;

/// One more item was received: its stream has this row now, and it is acknowledged, in room that was made.
fn count_item(
    received: &mut u64,
    streams: &mut StreamTable,
    packets: &mut VecDeque<Packet>,
    row: StreamRow,
    answer: Packet,
)
    requires number { received.old + 1 < 2 ^ 64 }
    requires sound { SoundTable streams.old.rows.items streams.old.places streams.old.at_last }
    requires rows { vec_len streams.old.rows < vec_capacity streams.old.rows }
    requires place { HasPlaceRoom row.stream streams.old.places }
    requires room { deque_len packets.old < deque_capacity packets.old }
    ensures received { received.new ≡ received.old + 1 }
    ensures streams { streams.new.rows.items
        ≡ put row streams.old.rows.items }
    ensures sound { SoundTable streams.new.rows.items streams.new.places streams.new.at_last }
    ensures packets { packets.new.items ≡ packets.old.items ++ answer ∷ [] }
{
    *received += 1;
    streams.set_row(row);
    enqueue(packets, answer);
}

impl PlainAssociation {
    /// An item was received that changes nothing but the number, and the row of its stream.
    pub(crate) fn skip_item(&mut self, row: StreamRow) -> Result<(), AllocError>
        requires { self.old.inbox.received + 1 < 2 ^ 64 }
        ensures ok { OnOk result (Sends self.old (answered (item_counted row self.old)) self.new) }
        ensures err { OnErr result (self.new ≡ self.old) }
    {
        let answer = make_ready(
            self.alloc,
            self.received + 1,
            &mut self.streams,
            row.stream,
            &mut self.events,
            &mut self.packets,
        )?;
        count_item(
            &mut self.received,
            &mut self.streams,
            &mut self.packets,
            row,
            answer,
        );
        Ok(())
    }

    /// A piece of a message was received, with more to follow.
    fn take_more(
        &mut self,
        row: StreamRow,
        item: ItemHeader,
        bytes: &[u8],
    ) -> Result<(), AllocError>
        requires { self.old.inbox.received + 1 < 2 ^ 64 }
        ensures ok { OnOk result (Sends self.old (answered (more_kept (item_with item bytes.now) (item_counted row self.old))) self.new) }
        ensures err { OnErr result (self.new ≡ self.old) }
    {
        let answer = make_ready(
            self.alloc,
            self.received + 1,
            &mut self.streams,
            row.stream,
            &mut self.events,
            &mut self.packets,
        )?;
        self.parts.keep_more(self.alloc, item, bytes)?;
        count_item(
            &mut self.received,
            &mut self.streams,
            &mut self.packets,
            row,
            answer,
        );
        Ok(())
    }

    /// The last piece of a message was received.
    fn take_last(
        &mut self,
        row: StreamRow,
        item: ItemHeader,
        bytes: &[u8],
    ) -> Result<(), AllocError>
        requires { self.old.inbox.received + 1 < 2 ^ 64 }
        ensures ok { OnOk result (Sends self.old (answered (last_kept (item_with item bytes.now) (item_counted row self.old))) self.new) }
        ensures err { OnErr result (self.new ≡ self.old) }
    {
        let stream = item.stream;
        let answer = make_ready(
            self.alloc,
            self.received + 1,
            &mut self.streams,
            row.stream,
            &mut self.events,
            &mut self.packets,
        )?;
        self.unread
            .keep_last(self.alloc, &mut self.parts, item, bytes)?;
        enqueue(&mut self.events, AssocEvent::Readable(stream));
        count_item(
            &mut self.received,
            &mut self.streams,
            &mut self.packets,
            row,
            answer,
        );
        Ok(())
    }

    /// A piece of a message was received.
    pub(crate) fn take_piece(
        &mut self,
        row: StreamRow,
        item: ItemHeader,
        bytes: &[u8],
    ) -> Result<(), AllocError>
        requires { self.old.inbox.received + 1 < 2 ^ 64 }
        ensures ok { OnOk result (Sends self.old (answered (piece_came (item_with item bytes.now) row self.old)) self.new) }
        ensures err { OnErr result (self.new ≡ self.old) }
    {
        if !row.takes_messages(item.generation) {
            return self.skip_item(row);
        }
        match item.part {
            ItemPart::More => self.take_more(row, item, bytes),
            ItemPart::Last => self.take_last(row, item, bytes),
            ItemPart::Close => self.take_more(row, item, bytes),
        }
    }

    /// The close of a stream was received, which this end did not close: it does now.
    pub(crate) fn take_first_close(
        &mut self,
        now: Moment,
        mut row: StreamRow,
    ) -> Result<(), AllocError>
        requires number { self.old.inbox.received + 1 < 2 ^ 64 }
        requires lives { is_ending self.old ≡ false }
        ensures ok { OnOk result (Sends self.old (answered (close_came_at Unclosed now row (finished row self.old))) self.new) }
        ensures err { OnErr result (self.new ≡ self.old) }
    {
        let number = self.acked + self.items.len() as u64 + 1;
        let answer = make_ready(
            self.alloc,
            self.received + 1,
            &mut self.streams,
            row.stream,
            &mut self.events,
            &mut self.packets,
        )?;
        queue_close(
            self.alloc,
            self.received + 1,
            number,
            row.stream,
            row.generation,
            &mut self.items,
            &mut self.packets,
        )?;
        finish(&mut self.events, &mut self.unread, &mut self.parts, row);
        self.clock.items_sent = now;
        row.close = CloseState::Queued;
        row.finished = true;
        let packets = &mut self.packets;
        count_item(&mut self.received, &mut self.streams, packets, row, answer);
        Ok(())
    }

    /// The close of a stream was received, which this end closed. Its close was not acknowledged.
    pub(crate) fn take_second_close(&mut self, mut row: StreamRow) -> Result<(), AllocError>
        requires { self.old.inbox.received + 1 < 2 ^ 64 }
        ensures ok { OnOk result (Sends self.old
            (answered (item_counted (record row { finished = true }) (finished row self.old))) self.new) }
        ensures err { OnErr result (self.new ≡ self.old) }
    {
        let answer = make_ready(
            self.alloc,
            self.received + 1,
            &mut self.streams,
            row.stream,
            &mut self.events,
            &mut self.packets,
        )?;
        finish(&mut self.events, &mut self.unread, &mut self.parts, row);
        row.finished = true;
        count_item(
            &mut self.received,
            &mut self.streams,
            &mut self.packets,
            row,
            answer,
        );
        Ok(())
    }

    /// The close of a stream was received, after this end's was acknowledged: the reset is complete.
    pub(crate) fn take_last_close(&mut self, row: StreamRow) -> Result<(), AllocError>
        requires number { self.old.inbox.received + 1 < 2 ^ 64 }
        requires generation { row.generation < 4294967295 }
        ensures ok { OnOk result (Sends self.old
            (answered (reset_told row (item_counted (reset_row row) (finished row self.old)))) self.new) }
        ensures err { OnErr result (self.new ≡ self.old) }
    {
        let answer = make_ready(
            self.alloc,
            self.received + 1,
            &mut self.streams,
            row.stream,
            &mut self.events,
            &mut self.packets,
        )?;
        finish(&mut self.events, &mut self.unread, &mut self.parts, row);
        enqueue(&mut self.events, AssocEvent::ResetComplete(row.stream));
        count_item(
            &mut self.received,
            &mut self.streams,
            &mut self.packets,
            row.reset(),
            answer,
        );
        Ok(())
    }
}
