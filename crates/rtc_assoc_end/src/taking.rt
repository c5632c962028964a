//! The cases of an item that is received in order.
ghost use Rattle.std.specs.Prelude.{◌≡◌, ◌<◌, ◌+◌, ◌^◌, OnOk, OnErr, false};
ghost use Rattle.rtc_assoc_state.specs.Headers.{item_with};
ghost use Rattle.rtc_assoc_state.specs.Contents.{is_ending};
ghost use Rattle.rtc_assoc_state.specs.Calls.{answered, item_put, item_taken, close_came};
ghost use Rattle.rtc_assoc_state.specs.PlainMeaning.{Sends};

use crate::association::PlainAssociation;
use rtc_assoc_state::{CloseState, ItemHeader, ItemPart, StreamRow};
use rtc_wire::Moment;
use std::alloc::AllocError;

impl PlainAssociation {
    /// The close of a stream was received.
    fn take_close(&mut self, now: Moment, row: StreamRow, generation: u32) -> Result<(), AllocError>
        requires number { self.old.inbox.received + 1 < 2 ^ 64 }
        requires lives { is_ending self.old ≡ false }
        ensures ok { OnOk result (Sends self.old (answered (close_came now generation row self.old)) self.new) }
        ensures err { OnErr result (self.new ≡ self.old) }
    {
        if generation != row.generation {
            return self.skip_item(row);
        }
        match row.close {
            CloseState::Unclosed => self.take_first_close(now, row),
            CloseState::Queued => self.take_second_close(row),
            CloseState::Acknowledged => {
                if row.generation < u32::MAX {
                    return self.take_last_close(row);
                }
                self.take_second_close(row)
            }
        }
    }

    /// The next item was received. Whether it is of another generation than its stream is remembered.
    #[tactic(auto, unfolding(rtc_assoc_state::specs::Calls::answered))]
    pub(crate) fn take_item(
        &mut self,
        now: Moment,
        item: ItemHeader,
        bytes: &[u8],
    ) -> Result<(), AllocError>
        requires number { self.old.inbox.received + 1 < 2 ^ 64 }
        requires lives { is_ending self.old ≡ false }
        ensures ok { OnOk result (Sends self.old (answered (item_taken now (item_with item bytes.now) self.old)) self.new) }
        ensures err { OnErr result (self.new ≡ self.old) }
    {
        let strayed = self.is_stray(item);
        self.put_item(now, item, bytes)?;
        self.strayed = self.strayed || strayed;
        Ok(())
    }

    /// The next item came: its stream is there.
    fn put_item(&mut self, now: Moment, item: ItemHeader, bytes: &[u8]) -> Result<(), AllocError>
        requires number { self.old.inbox.received + 1 < 2 ^ 64 }
        requires lives { is_ending self.old ≡ false }
        ensures ok { OnOk result (Sends self.old (answered (item_put now (item_with item bytes.now) self.old)) self.new) }
        ensures err { OnErr result (self.new ≡ self.old) }
    {
        let mut row = self.streams.row_of(item.stream);
        row.there = true;
        match item.part {
            ItemPart::Close => self.take_close(now, row, item.generation),
            ItemPart::More => self.take_piece(row, item, bytes),
            ItemPart::Last => self.take_piece(row, item, bytes),
        }
    }
}
