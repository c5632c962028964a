//! The streams that channels are given (RFC 8832, section 6).
ghost use Rattle.std.specs.Prelude.{◌≡◌, ◌<◌, ◌==◌, ◌||◌, true, false, not, is_some, filter, drop, length, map, slice_get};
ghost use Rattle.std.specs.Prelude.{IfSome, OnOk, OnErr};
ghost use Rattle.std.specs.List.{list_any};
ghost use Rattle.rtc_channels.specs.Ids.{parity_of as ParityOf, all_ids};
ghost use Rattle.rtc_channels.specs.Granted.{is_granted as IsGranted, stream_of_free};
ghost use Rattle.rtc_channels.specs.Pools.{ArePools};
ghost use Rattle.rtc_channels.specs.Holds.{is_stream_held as IsHeld};
ghost use Rattle.rtc_channels.specs.Channels.{numbered_stream};
ghost use Rattle.rtc_channels.specs.Allocation.{
  AreUnshared,
  is_given as IsGiven,
  is_waiting as IsWaiting,
  sought_at,
  given_to,
  IsBare,
  Allocates,
  is_ensured as IsEnsured,
  channel_ensured,
};

use crate::ChannelHandler;
use crate::channel_handler::next_channel;
use crate::grants::{Grants, give, owner_of};
use crate::kept::Kept;
use crate::pools::{Pools, is_granted};
use rtc_wire::ChannelId;
use std::alloc::AllocError;

// The stream for a channel, by the one that it was negotiated for, if it was.
fn stream_for(negotiated: Option<u16>, grants: &Grants, pools: &Pools, client: bool) -> Option<u16>
    requires { ArePools grants.now pools.now }
    ensures sought { result
        ≡ stream_of_free negotiated grants.now (filter (λ stream. not (IsGranted grants.now stream)) (all_ids (ParityOf client))) }
    ensures fits { IfSome negotiated (λ stream. stream < 65536) }
{
    match negotiated {
        Some(stream) => {
            if is_granted(grants, stream) {
                return None;
            }
            Some(stream)
        }
        None => pools.least(client),
    }
}

// Whether a row from a place on has no stream.
fn any_bare(rows: &[(ChannelId, Option<u16>)], from: usize) -> bool
    ensures { result ≡ list_any (λ row. not (is_some row.1)) (drop from rows.now) }
{
    let mut place = from;
    'places: while place < rows.len() {
        if rows[place].1.is_none() {
            return true;
        }
        place += 1;
    }
    false
}

impl ChannelHandler {
    // Whether a channel waits for a stream. No settled one does.
    pub(crate) fn is_waiting(&self) -> bool
        ensures { result ≡ IsWaiting self.now.rows }
    {
        any_bare(self.rows.as_slice(), self.settled)
    }

    // How many channels there are.
    pub(crate) fn count(&self) -> usize
        ensures { result ≡ length self.now.rows }
    {
        self.rows.as_slice().len()
    }

    // The stream that the channel at a place is to be given, if there is one.
    pub(crate) fn seek(&self, place: usize, client: bool) -> Option<u16>
        requires { place < length self.now.rows }
        ensures { result ≡ sought_at (slice_get self.now.rows place) (ParityOf client) self.now }
    {
        if self.rows[place].1.is_some() {
            return None;
        }
        stream_for(
            self.kept[place].negotiated,
            &self.grants,
            &self.pools,
            client,
        )
    }

    // Gives a stream that no channel has to the channel at a place, which has none.
    fn give_at(&mut self, place: usize, stream: u16) -> Result<(), AllocError>
        requires bare { IsBare (slice_get self.old.rows place) }
        requires free { IsGiven stream self.old.rows ≡ false }
        ensures given { OnOk result (self.new ≡ given_to (slice_get self.old.rows place) stream self.old) }
        ensures behind { (k : _) → place < k → slice_get self.new.rows k ≡ slice_get self.old.rows k }
        ensures count { length self.new.rows ≡ length self.old.rows }
        ensures refused { OnErr result (self.new ≡ self.old) }
    {
        give(&mut self.grants, stream, self.rows[place].0)?;
        self.pools.note(&self.grants, stream);
        self.rows[place].1 = Some(stream);
        Ok(())
    }

    /// Gives streams to the channels that have none, in order of their numbers. A channel negotiated out-of-band gets
    /// its own stream, if no channel has it and it is not held; another gets the least of its parity. The others stay
    /// without.
    pub fn do_allocations(&mut self, client: bool) -> Result<(), AllocError>
        ensures allocates { Allocates (ParityOf client) self.old result self.new }
        ensures unheld { (s : _) → IsGiven s self.old.rows ≡ false → IsGiven s self.new.rows ≡ true → IsHeld s self.old.holds ≡ false }
    {
        if !self.is_waiting() {
            return Ok(());
        }
        let count = self.count();
        let mut place = self.first_unsettled();
        'places: while place < count {
            if let Some(stream) = self.seek(place, client) {
                if self.give_at(place, stream).is_err() {
                    return Err(AllocError);
                }
            }
            place += 1;
        }
        Ok(())
    }

    /// No two channels have one stream.
    pub fn streams_are_unshared(&self)
        ensures { AreUnshared (map numbered_stream self.now.rows) }
    {
        let _rows = self.rows.as_slice();
    }

    // Whether a channel has a stream, or no number is left for one.
    fn is_ensured(&self, s: u16) -> bool
        ensures { result ≡ IsEnsured s self.now }
    {
        owner_of(&self.grants, s).is_some() || self.given == u64::MAX
    }

    /// Makes a channel of a stream that the other end opened, if no channel has it. None is made if channel numbers are exhausted.
    pub fn ensure_channel_id_for(&mut self, s: u16) -> Result<(), AllocError>
        ensures ensured { OnOk result (self.new ≡ channel_ensured s self.old) }
        ensures refused { OnErr result (self.new ≡ self.old) }
    {
        if self.is_ensured(s) {
            return Ok(());
        }
        self.rows.reserve(1)?;
        self.kept.reserve(1)?;
        let id = next_channel(self.given);
        give(&mut self.grants, s, id)?;
        self.pools.note(&self.grants, s);
        self.rows.push_reserved((id, Some(s)));
        self.kept.push_reserved(Kept {
            negotiated: None,
            config: None,
            confirmed: false,
        });
        self.given += 1;
        Ok(())
    }
}
