//! The plain media part.
ghost use Rattle.std.specs.Prelude.{◌≡◌};

use crate::PlainMediaEvent;
use crate::lines::Lines;
use crate::source_counts::SourceCounts;
use crate::stream_table::StreamTable;
use indexmap::IndexMap;
use rtc_parts::MediaUpdate;
use rtc_wire::DatagramSend;
use std::alloc::Global;
use std::collections::VecDeque;
use std::marker::Model;

/// Media lines, streams and queues in memory, for tests and simulations. Nothing is protected: whoever can give it a
/// packet can forge one, and packets are only counted.
pub struct PlainMedia {
    pub(crate) alloc: Global,
    pub(crate) raw_packets: bool,
    pub(crate) is_keyed: bool,
    pub(crate) is_shut: bool,
    pub(crate) lines: Lines,
    /// How often each SSRC is among those of the lines.
    pub(crate) counts: SourceCounts,
    /// How many SSRCs the updates so far can have had at most. No count is greater.
    pub(crate) most: usize,
    pub(crate) pending: VecDeque<MediaUpdate>,
    pub(crate) rx: StreamTable,
    pub(crate) tx: StreamTable,
    pub(crate) events: VecDeque<PlainMediaEvent>,
    pub(crate) datagrams: VecDeque<DatagramSend>,
}

impl Model for PlainMedia {
    ghost use Rattle.rtc_plain_media.specs.MediaContents.{MediaContents};

    ghost Value = { MediaContents };

    ghost view = { λ m. record {
      raw_packets = m.raw_packets;
      is_keyed = m.is_keyed;
      is_shut = m.is_shut;
      lines = m.lines.entries;
      pending = m.pending.items;
      rx = m.rx;
      tx = m.tx;
      events = m.events.items;
      datagrams = m.datagrams.items;
    } };

    ghost use Rattle.std.specs.Prelude.{◌+◌, ◌≤◌};
    ghost use Rattle.std.specs.VecDeque.{deque_len, deque_capacity};
    ghost use Rattle.indexmap.specs.IndexMap.{spare};
    ghost use Rattle.rtc_plain_media.specs.SourceCounts.{KeepsCounts};

    ghost invariant = { λ m. (deque_len m.pending ≤ spare m.lines) × (deque_len m.events + deque_len m.pending ≤ deque_capacity m.events)
        × KeepsCounts m.counts m.most m.pending.items m.lines.entries };
}

// Written out, so that the proof of what owns a part sees one call and not the drop of each field.
impl Drop for PlainMedia {
    fn drop(self) {
        let PlainMedia {
            alloc: _alloc,
            raw_packets: _raw_packets,
            is_keyed: _is_keyed,
            is_shut: _is_shut,
            lines: _lines,
            counts: _counts,
            most: _most,
            pending: _pending,
            rx: _rx,
            tx: _tx,
            events: _events,
            datagrams: _datagrams,
        } = self;
    }
}

impl PlainMedia {
    ghost use Rattle.rtc_plain_media.specs.MediaContents.{fresh_media};

    /// A part without lines, streams, keys or anything queued. No memory is taken.
    pub fn new(alloc: Global) -> PlainMedia
        ensures { result ≡ fresh_media }
    {
        PlainMedia {
            alloc,
            raw_packets: false,
            is_keyed: false,
            is_shut: false,
            lines: IndexMap::new(alloc),
            counts: IndexMap::new(alloc),
            most: 0,
            pending: VecDeque::new(alloc),
            rx: StreamTable::new(alloc),
            tx: StreamTable::new(alloc),
            events: VecDeque::new(alloc),
            datagrams: VecDeque::new(alloc),
        }
    }
}
