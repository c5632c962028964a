//! The channels of a peer.
ghost use Rattle.std.specs.Prelude.{◌≡◌, ◌≤◌, true, length, map};
ghost use Rattle.rtc_channels.specs.Channels.{
  no_channels,
  MakesChannel,
  confirmed,
  has_channel as HasChannel,
  is_bad_channel as IsBadChannel,
  numbered_stream,
  channel_of_stream,
  stream_of_channel,
};

use crate::ChannelError;
use crate::grants::{Grants, owner_of};
use crate::kept::{Kept, find_place, find_stream, is_claimed};
use crate::pools::Pools;
use crate::settled::settled_before;
use rtc_wire::{ChannelConfig, ChannelId, is_overlong};
use std::alloc::Global;
use std::collections::BTreeMap;
use std::marker::Model;

// The number of the next channel, by how many were given.
pub(crate) fn next_channel(given: u64) -> ChannelId
    ensures { result ≡ given }
{
    ChannelId::new(given)
}

/// The channels of a peer, numbered as they were made.
#[derive(Debug)]
pub struct ChannelHandler {
    pub(crate) given: u64,
    pub(crate) rows: Vec<(ChannelId, Option<u16>)>,
    pub(crate) kept: Vec<Kept>,
    // So many channels from the first on have a stream, and nothing more to be opened with.
    pub(crate) settled: usize,
    pub(crate) grants: Grants,
    pub(crate) pools: Pools,
}

impl Model for ChannelHandler {
    ghost use Rattle.rtc_channels.specs.Channels.{Channels};
    ghost use Rattle.rtc_channels.specs.Kept.{channels_of};
    ghost use Rattle.rtc_channels.specs.Granted.{holds_of};
    ghost use Rattle.rtc_channels.specs.Settled.{AreKept};

    ghost Value = { Channels };

    ghost view = { λ handler. record {
      given = handler.given;
      rows = channels_of handler.rows.items handler.kept.items;
      holds = holds_of handler.grants;
    } };

    ghost invariant = { λ handler.
        AreKept handler.given handler.settled handler.rows.items handler.kept.items handler.grants handler.pools };
}

// Written out, so that the proof of what owns the channels sees one call and not the drop of each field.
impl Drop for ChannelHandler {
    fn drop(self) {
        let ChannelHandler {
            given: _given,
            rows: _rows,
            kept: _kept,
            settled: _settled,
            grants: _grants,
            pools: _pools,
        } = self;
    }
}

impl ChannelHandler {
    /// No channels.
    pub fn new(alloc: Global) -> ChannelHandler
        ensures { result ≡ no_channels }
    {
        ChannelHandler {
            given: 0,
            rows: Vec::new(alloc),
            kept: Vec::new(alloc),
            settled: 0,
            grants: BTreeMap::new(alloc),
            pools: Pools::new(),
        }
    }

    /// The channels by their numbers, each with its stream.
    pub fn rows(&self) -> &[(ChannelId, Option<u16>)]
        ensures { result.now ≡ map numbered_stream self.now.rows }
    {
        self.rows.as_slice()
    }

    /// Whether there is a channel of this number.
    pub fn has_channel(&self, id: ChannelId) -> bool
        ensures { result ≡ HasChannel id self.now.rows }
    {
        find_place(self.rows.as_slice(), id).is_some()
    }

    /// The channel that a stream was given to.
    pub fn channel_id_by_stream_id(&self, s: u16) -> Option<ChannelId>
        ensures { result ≡ channel_of_stream s (map numbered_stream self.now.rows) }
    {
        owner_of(&self.grants, s)
    }

    /// The stream that a channel was given.
    pub fn stream_id_by_channel_id(&self, id: ChannelId) -> Option<u16>
        ensures { result ≡ stream_of_channel id (map numbered_stream self.now.rows) }
    {
        find_stream(self.rows.as_slice(), id)
    }

    // Whether no channel can be made of a config.
    fn is_bad(&self, config: &ChannelConfig) -> bool
        ensures { result ≡ IsBadChannel self.now config.now }
    {
        if is_overlong(&config.label) || is_overlong(&config.protocol) || self.given == u64::MAX {
            return true;
        }
        match config.negotiated {
            Some(stream) => is_claimed(self.rows.as_slice(), self.kept.as_slice(), stream),
            None => false,
        }
    }

    /// Makes a channel of a config. It has a number above all before, no stream, and waits to be confirmed.
    pub fn new_channel(&mut self, config: &ChannelConfig) -> Result<ChannelId, ChannelError>
        ensures { MakesChannel self.old config.now result self.new }
    {
        if self.is_bad(config) {
            return Err(ChannelError::BadChannel);
        }
        self.rows.reserve(1)?;
        self.kept.reserve(1)?;
        let id = next_channel(self.given);
        self.rows.push_reserved((id, None));
        self.kept.push_reserved(Kept {
            negotiated: config.negotiated,
            config: None,
            confirmed: false,
        });
        self.given += 1;
        Ok(id)
    }

    /// Keeps what a channel is to be opened with. Nothing is allocated.
    pub fn confirm(&mut self, id: ChannelId, config: ChannelConfig)
        requires channel { HasChannel id self.old.rows ≡ true }
        requires label { length config.label ≤ 65535 }
        requires protocol { length config.protocol ≤ 65535 }
        ensures { self.new ≡ confirmed id config self.old }
    {
        let Some(place) = find_place(self.rows.as_slice(), id) else {
            return;
        };
        self.settled = settled_before(self.settled, place);
        self.kept[place].keep_config(config);
    }
}
