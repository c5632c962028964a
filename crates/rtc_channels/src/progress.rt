//! Whether a channel can be given a stream or opened.
ghost use Rattle.std.specs.Prelude.{◌≡◌, ◌&&◌, is_some, drop, length};
ghost use Rattle.rtc_channels.specs.Ids.{parity_of as ParityOf};
ghost use Rattle.rtc_channels.specs.Kept.{channels_of};
ghost use Rattle.rtc_channels.specs.Allocation.{can_allocate as CanAllocate};
ghost use Rattle.rtc_channels.specs.Openings.{can_open as CanOpen, can_progress as CanProgress};

use crate::ChannelHandler;
use crate::kept::Kept;
use rtc_wire::ChannelId;

// Whether a channel with this row and what is kept beside it has a stream and is confirmed.
fn is_ready(row: &(ChannelId, Option<u16>), own: &Kept) -> bool
    ensures { result ≡ (is_some row.now.1 && is_some own.now.config) }
{
    row.1.is_some() && own.config.is_some()
}

// Whether a channel from a place on has a stream and is confirmed.
fn any_ready(rows: &[(ChannelId, Option<u16>)], kept: &[Kept], from: usize) -> bool
    requires { length rows.now ≡ length kept.now }
    ensures { result ≡ CanOpen (drop from (channels_of rows.now kept.now)) }
{
    let mut place = from;
    'places: while place < rows.len() {
        if is_ready(&rows[place], &kept[place]) {
            return true;
        }
        place += 1;
    }
    false
}

impl ChannelHandler {
    // Whether a channel can be given a stream, by a look at each that is not settled.
    fn can_give(&self, client: bool) -> bool
        ensures { result ≡ CanAllocate (ParityOf client) self.now }
    {
        let count = self.count();
        let mut place = self.first_unsettled();
        'places: while place < count {
            if self.seek(place, client).is_some() {
                return true;
            }
            place += 1;
        }
        false
    }

    // Whether a channel can be given a stream.
    fn can_allocate(&self, client: bool) -> bool
        ensures { result ≡ CanAllocate (ParityOf client) self.now }
    {
        if !self.is_waiting() {
            return false;
        }
        self.can_give(client)
    }

    // Whether a channel can be opened. No settled one can.
    pub(crate) fn can_open(&self) -> bool
        ensures { result ≡ CanOpen self.now.rows }
    {
        any_ready(self.rows.as_slice(), self.kept.as_slice(), self.settled)
    }

    /// Whether a channel can be given a stream or opened.
    pub(crate) fn can_progress(&self, client: bool) -> bool
        ensures { result ≡ CanProgress client self.now }
    {
        self.can_open() || self.can_allocate(client)
    }
}
