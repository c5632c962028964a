//! What an end returns of itself.
ghost use Rattle.std.specs.Prelude.{◌≡◌, ◌+◌, ◌<◌, ◌^◌, nat_lt, Some, None, []};
ghost use Rattle.std.specs.Bool.{OnFalse};
ghost use Rattle.rtc_assoc_state.specs.Headers.{item_with};
ghost use Rattle.rtc_assoc_state.specs.Contents.{is_closing, is_closed, is_ending, has_stream};
ghost use Rattle.rtc_assoc_state.specs.Contents.{closed_here, is_stale, generation_of, buffered_of, wake_of};
ghost use Rattle.rtc_assoc_state.specs.Contents.{hello_wake, items_wake};
ghost use Rattle.rtc_assoc_state.specs.Calls.{is_stray, hello_due, items_due};

use crate::association::PlainAssociation;
use rtc_assoc_state::{ItemHeader, amount_in, earlier, second_after};
use rtc_wire::Moment;

impl PlainAssociation {
    /// Closing for good: shut down, with few item numbers left, or with a stream at its last generation.
    pub(crate) fn closes(&self) -> bool
        ensures { result ≡ is_closing self.now }
    {
        let last = self.acked + self.items.len() as u64;
        let few = u64::MAX - last < 8_589_934_592;
        self.standing.shut || few || self.streams.at_last
    }

    pub(crate) fn is_lost(&self) -> bool
        ensures { result ≡ is_closed self.now }
    {
        self.standing.lost
    }

    /// Closing or closed.
    pub(crate) fn ends(&self) -> bool
        ensures { result ≡ is_ending self.now }
    {
        self.closes() || self.is_lost()
    }

    /// Whether an item is of another generation than its stream has.
    pub(crate) fn is_stray(&self, item: ItemHeader) -> bool
        ensures { result ≡ is_stray (item_with item []) self.now }
    {
        let row = self.streams.row_of(item.stream);
        item.generation != row.generation
    }

    pub(crate) fn has(&self, id: u16) -> bool
        ensures { result ≡ has_stream self.now id }
    {
        self.streams.row_of(id).there
    }

    pub(crate) fn has_closed(&self, id: u16) -> bool
        ensures { result ≡ closed_here self.now id }
    {
        self.streams.row_of(id).is_closed_here()
    }

    pub(crate) fn stale(&self, id: u16) -> bool
        ensures { result ≡ is_stale self.now id }
    {
        self.has(id) && self.has_closed(id)
    }

    pub(crate) fn generation_of(&self, id: u16) -> u64
        ensures { result ≡ generation_of self.now id }
    {
        self.streams.row_of(id).generation as u64
    }

    pub(crate) fn buffered(&self, id: u16) -> usize
        ensures { result ≡ buffered_of self.now id }
    {
        let amount = amount_in(&self.amounts, id);
        if amount == 0 {
            return 0;
        }
        if self.has(id) {
            return amount;
        }
        0
    }

    /// Whether a message of so many bytes is longer than the other end takes. One that is not has fewer than 2^32.
    pub(crate) fn is_too_long(&self, len: usize) -> bool
        ensures value { result ≡ nat_lt self.now.limits.max_send len }
        ensures short { OnFalse result (len < 2 ^ 32) }
    {
        let most = self.limits.max_send;
        (most as usize) < len
    }

    fn hello_wake(&self) -> Option<Moment>
        ensures { result ≡ hello_wake self.now }
    {
        if self.standing.waits() {
            Some(second_after(self.clock.hello_sent))
        } else {
            None
        }
    }

    fn items_wake(&self) -> Option<Moment>
        ensures { result ≡ items_wake self.now }
    {
        if self.items.is_empty() {
            None
        } else {
            Some(second_after(self.clock.items_sent))
        }
    }

    /// When something is to be queued again.
    pub(crate) fn wake(&self) -> Option<Moment>
        ensures { result ≡ wake_of self.now }
    {
        earlier(self.hello_wake(), self.items_wake())
    }

    pub(crate) fn is_hello_due(&self, now: Moment) -> bool
        ensures { result ≡ hello_due now self.now }
    {
        self.standing.waits() && second_after(self.clock.hello_sent).nanos() <= now.nanos()
    }

    pub(crate) fn are_items_due(&self, now: Moment) -> bool
        ensures { result ≡ items_due now self.now }
    {
        !self.items.is_empty() && second_after(self.clock.items_sent).nanos() <= now.nanos()
    }
}
