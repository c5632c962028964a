//! Holds of streams, and channels that go.
ghost use Rattle.std.specs.Prelude.{◌≡◌, true, false};
ghost use Rattle.rtc_channels.specs.Holds.{hold_count, reset_completed, holds_lost, removed_channel};
ghost use Rattle.rtc_channels.specs.Holds.{is_unconfirmed as IsUnconfirmed};

use crate::ChannelHandler;
use crate::grants::{count_holds, drop_hold, drop_holds, release};
use crate::kept::find_place;
use crate::pools::Pools;
use crate::settled::settled_without;
use rtc_wire::ChannelId;

impl ChannelHandler {
    /// How often a stream is held. While it is, only the other end can open a channel over it.
    pub fn held_count(&self, s: u16) -> u64
        ensures { result ≡ hold_count s self.now.holds }
    {
        count_holds(&self.grants, s)
    }

    /// The reset of a stream is complete: one hold of it fewer, if it has any. Nothing is allocated.
    pub fn stream_reset_complete(&mut self, s: u16)
        ensures { self.new ≡ reset_completed s self.old }
    {
        drop_hold(&mut self.grants, s);
        self.pools.note(&self.grants, s);
    }

    /// The association is lost, and with it every hold. Nothing is allocated.
    pub fn association_lost(&mut self)
        ensures { self.new ≡ holds_lost self.old }
    {
        drop_holds(&mut self.grants);
        self.pools = Pools::collect(&self.grants);
    }

    /// Removes a channel, if it is there. If a reset of its stream is pending, the stream is held once more. Nothing is allocated.
    pub fn remove_channel(&mut self, id: ChannelId, reset_pending: bool)
        ensures { self.new ≡ removed_channel id reset_pending self.old }
    {
        let Some(place) = find_place(self.rows.as_slice(), id) else {
            return;
        };
        self.settled = settled_without(self.settled, place);
        let row = self.rows.remove(place);
        self.kept.remove(place);
        match row.1 {
            Some(stream) => {
                release(&mut self.grants, stream, reset_pending);
                self.pools.note(&self.grants, stream);
            }
            None => {}
        }
    }

    /// Whether a channel is there and was never confirmed.
    pub fn is_unconfirmed(&self, id: ChannelId) -> bool
        ensures { result ≡ IsUnconfirmed id self.now.rows }
    {
        let Some(place) = find_place(self.rows.as_slice(), id) else {
            return false;
        };
        !self.kept[place].confirmed
    }

    /// Removes a channel that was never confirmed. Its stream, if it has one, can be given again at once. Nothing is allocated.
    pub fn cancel(&mut self, id: ChannelId)
        requires { IsUnconfirmed id self.old.rows ≡ true }
        ensures { self.new ≡ removed_channel id false self.old }
    {
        self.remove_channel(id, false);
    }
}
