//! The channels from the first on that wait for nothing.
ghost use Rattle.std.specs.Prelude.{◌≡◌, ◌≤◌, ◌<◌, ◌+◌, ◌&&◌, is_some, not, length};
ghost use Rattle.rtc_channels.specs.Kept.{channels_of};
ghost use Rattle.rtc_channels.specs.Settled.{AreSettled};

use crate::ChannelHandler;
use crate::kept::Kept;
use rtc_wire::ChannelId;

// Whether a channel with this row and what is kept beside it has a stream, and nothing more to be opened with.
fn is_settled(row: &(ChannelId, Option<u16>), own: &Kept) -> bool
    ensures { result ≡ (is_some row.now.1 && not (is_some own.now.config)) }
{
    row.1.is_some() && own.config.is_none()
}

// How many channels from the first on are settled, where so many are.
fn count_settled(rows: &[(ChannelId, Option<u16>)], kept: &[Kept], settled: usize) -> usize
    requires same { length rows.now ≡ length kept.now }
    requires settled { AreSettled settled (channels_of rows.now kept.now) }
    ensures { AreSettled result (channels_of rows.now kept.now) }
{
    let mut count = settled;
    'places: while count < rows.len() {
        if !is_settled(&rows[count], &kept[count]) {
            return count;
        }
        count += 1;
    }
    count
}

/// How many of so many settled channels stand before a place.
pub fn settled_before(settled: usize, place: usize) -> usize
    ensures less { result ≤ settled }
    ensures before { result ≤ place }
{
    if place < settled {
        return place;
    }
    settled
}

/// How many settled channels are left without the channel at a place.
pub fn settled_without(settled: usize, place: usize) -> usize
    ensures less { place < settled → result + 1 ≡ settled }
    ensures same { settled ≤ place → result ≡ settled }
{
    if place < settled {
        return settled - 1;
    }
    settled
}

impl ChannelHandler {
    // The place before which all channels are settled.
    pub(crate) fn first_unsettled(&self) -> usize
        ensures { AreSettled result self.now.rows }
    {
        self.settled
    }

    // Passes over the channels that are settled now.
    pub(crate) fn settle(&mut self)
        ensures { self.new ≡ self.old }
    {
        self.settled = count_settled(self.rows.as_slice(), self.kept.as_slice(), self.settled);
    }
}
