//! The plain association.
ghost use Rattle.std.specs.Prelude.{◌≡◌, ◌≤◌, ◌<◌, ◌+◌, ◌^◌, ◌⊎◌, IfOk, OnOk, OnErr, IfSome, Some, None, true, false, length, MatchOption};
ghost use Rattle.rtc_assoc_state.specs.Contents.{Contents, fresh_contents, is_started, is_closing, is_closed};
ghost use Rattle.rtc_assoc_state.specs.Contents.{is_ending, has_stream, closed_here, is_stale, generation_of};
ghost use Rattle.rtc_assoc_state.specs.Contents.{buffered_of, wake_of, hello_wake, items_wake, waits};
ghost use Rattle.rtc_assoc_state.specs.Says.{Queues};
ghost use Rattle.rtc_assoc_state.specs.Calls as call;
ghost use Rattle.rtc_assoc_state.specs.PlainMeaning.{Sends};

use rtc_assoc_state::{
    Clock, Limits, Outgoing, Packet, Parts, Role, Standing, StreamTable, Unread,
};
use rtc_parts::AssocEvent;
use rtc_wire::{LOCAL_MAX_MESSAGE_SIZE, Moment};
use std::alloc::Global;
use std::collections::{BTreeMap, VecDeque};
use std::marker::Model;

/// One end of a reliable transport of messages over streams that can be reset. It keeps everything in memory and has no
/// security: whoever can give it a packet can forge one.
///
/// Items (pieces of messages, and closes of streams) are numbered from 1 over all streams. A receiver takes only the
/// next one, and acknowledges the greatest number up to which all were received. A sender queues what is not
/// acknowledged again one second after it last queued an item.
pub struct PlainAssociation {
    pub(crate) alloc: Global,
    pub(crate) limits: Limits,
    pub(crate) standing: Standing,
    pub(crate) clock: Clock,
    pub(crate) acked: u64,
    pub(crate) items: VecDeque<Outgoing>,
    pub(crate) amounts: BTreeMap<u16, usize>,
    pub(crate) received: u64,
    pub(crate) parts: Parts,
    pub(crate) unread: Unread,
    pub(crate) strayed: bool,
    pub(crate) streams: StreamTable,
    pub(crate) events: VecDeque<AssocEvent>,
    pub(crate) packets: VecDeque<Packet>,
}

impl Model for PlainAssociation {
    ghost use Rattle.rtc_assoc_state.specs.Contents.{Contents};
    ghost use Rattle.rtc_assoc_end.specs.SoundContents.{SoundContents};

    ghost Value = { Contents };

    ghost view = { λ a. record {
      limits = a.limits;
      standing = a.standing;
      clock = a.clock;
      outbox = record { acked = a.acked; items = a.items.items };
      inbox = record { received = a.received; parts = a.parts; unread = a.unread; strayed = a.strayed };
      streams = a.streams.rows.items;
      events = a.events.items;
      packets = a.packets.items;
    } };

    ghost use Rattle.std.specs.VecDeque.{deque_len};

    ghost invariant = { λ a. SoundContents a.limits.max_payload a.acked (deque_len a.items) a.amounts a.items.items
        a.streams.rows.items a.streams.places a.streams.at_last };
}

// Written out, so that the proof of what owns an association sees one call and not the drop of each field.
impl Drop for PlainAssociation {
    fn drop(self) {
        let PlainAssociation {
            alloc: _alloc,
            limits: _limits,
            standing: _standing,
            clock: _clock,
            acked: _acked,
            items: _items,
            amounts: _amounts,
            received: _received,
            parts: _parts,
            unread: _unread,
            strayed: _strayed,
            streams: _streams,
            events: _events,
            packets: _packets,
        } = self;
    }
}

impl PlainAssociation {
    /// An end that is not started, with packets of at most 1062 bytes. No memory is taken.
    pub fn new(alloc: Global) -> PlainAssociation
        ensures { result ≡ fresh_contents }
    {
        PlainAssociation {
            alloc,
            limits: Limits {
                max_payload: 1062,
                local_max_message: LOCAL_MAX_MESSAGE_SIZE,
                max_send: 0,
            },
            standing: Standing {
                role: Role::Unstarted,
                connected: false,
                shut: false,
                lost: false,
            },
            clock: Clock {
                now: Moment::FAR_PAST,
                hello_sent: Moment::FAR_PAST,
                items_sent: Moment::FAR_PAST,
            },
            acked: 0,
            items: VecDeque::new(alloc),
            amounts: BTreeMap::new(alloc),
            received: 0,
            parts: Parts::new(alloc),
            unread: Unread::new(alloc),
            strayed: false,
            streams: StreamTable::new(alloc),
            events: VecDeque::new(alloc),
            packets: VecDeque::new(alloc),
        }
    }
}
