//! The streams over an association.
ghost use Rattle.std.specs.Prelude.{◌≡◌, ◌≤◌, ◌&&◌, if◌then◌else◌, MatchOption, None, Some, All, length};
ghost use Rattle.rtc_sctp_entries.specs.Entries.{stream_config};
ghost use Rattle.rtc_sctp.specs.Streams.{no_streams, ArePushedShort};

use crate::agenda::Agenda;
use crate::pushed_back::PushedBack;
use crate::{RtcSctpState, StreamEntry};
use rtc_parts::Association;
use rtc_sctp_entries::entries::config_of;
use rtc_sctp_values::SnapHalves;
use rtc_wire::{
    Bytes, ChannelConfig, DEFAULT_MAX_BUFFERED_AMOUNT, DEFAULT_REMOTE_MAX_MESSAGE_SIZE,
    MAX_DTLS_OVERHEAD, Moment, SCTP_OVERHEAD, Seq,
};
use std::alloc::Global;
use std::collections::VecDeque;
use std::marker::Model;

/// The streams of the data channels of a peer, over an association.
///
/// Packets and moments are given, and events are polled.
pub struct RtcSctp<S: Association> {
    pub(crate) alloc: Global,
    pub(crate) association: S,
    pub(crate) state: RtcSctpState,
    pub(crate) client: bool,
    pub(crate) local_max: u32,
    pub(crate) remote_max: u32,
    pub(crate) max_payload: usize,
    pub(crate) max_buffered: usize,
    pub(crate) last: Moment,
    pub(crate) snap: SnapHalves,
    pub(crate) pushed: PushedBack,
    pub(crate) entries: Vec<StreamEntry>,
    pub(crate) resets: Vec<u16>,
    pub(crate) completed: VecDeque<u16>,
    // Room for the packet that is taken next, so that a poll with nothing to give allocates nothing.
    pub(crate) room: Vec<Bytes>,
    // Whether there was no memory for the room of the next packet or event, which the next poll reports.
    pub(crate) lacks_room: bool,
    pub(crate) agenda: Agenda,
    // Whether a poll gave nothing, and nothing changed since but for packets that were pushed back.
    pub(crate) rests: bool,
}

impl<S: Association> Model for RtcSctp<S> {
    ghost use Rattle.rtc_sctp.specs.Streams.{SctpStreams};
    ghost use Rattle.std.specs.Prelude.{◌≡◌, true};
    ghost use Rattle.rtc_sctp.specs.Rest.{AreTended};
    ghost use Rattle.rtc_sctp.specs.Polls.{AreResting};

    ghost Value = { SctpStreams S };

    ghost view = { λ s. record {
      association = s.association;
      state = s.state;
      client = s.client;
      local_max = s.local_max;
      remote_max = s.remote_max;
      max_payload = s.max_payload;
      max_buffered = s.max_buffered;
      last = s.last;
      snap = s.snap;
      pushed = s.pushed;
      entries = s.entries.items;
      resets = s.resets.items;
      completed = s.completed.items;
      rests = s.rests;
    } };

    ghost invariant = { λ s. AreTended S.association s.association s.entries.items s.agenda
        × (s.rests ≡ true → AreResting S.association s.association s.state s.last s.entries.items) };
}

// Written out, so that the proof of what owns the streams sees one call and not the drop of each field.
impl<S: Association + Drop> Drop for RtcSctp<S> {
    fn drop(self) {
        let RtcSctp {
            alloc: _alloc,
            association: _association,
            state: _state,
            client: _client,
            local_max: _local_max,
            remote_max: _remote_max,
            max_payload: _max_payload,
            max_buffered: _max_buffered,
            last: _last,
            snap: _snap,
            pushed: _pushed,
            entries: _entries,
            resets: _resets,
            completed: _completed,
            room: _room,
            lacks_room: _lacks_room,
            agenda: _agenda,
            rests: _rests,
        } = self;
    }
}

impl<S: Association> RtcSctp<S> {
    /// Streams over an association that is as it was made. `mtu` is the size of datagrams, in bytes, and `start` the
    /// moment that counts as the last one before the first timeout.
    pub fn new(
        alloc: Global,
        mtu: usize,
        local_max_message_size: u32,
        start: Moment,
        assoc: S,
    ) -> RtcSctp<S>
        requires least { 117 ≤ mtu }
        requires most { mtu ≤ 1988 }
        requires fresh { S.association.fresh assoc }
        ensures limits { S.association.limits_set assoc result.max_payload local_max_message_size result.association }
        ensures made { result ≡ no_streams mtu local_max_message_size start result.association }
    {
        let max_payload = mtu - MAX_DTLS_OVERHEAD - SCTP_OVERHEAD;
        let mut association = assoc;
        association.set_limits(max_payload, local_max_message_size);
        RtcSctp {
            alloc,
            association,
            state: RtcSctpState::Uninited,
            client: false,
            local_max: local_max_message_size,
            remote_max: DEFAULT_REMOTE_MAX_MESSAGE_SIZE,
            max_payload,
            max_buffered: DEFAULT_MAX_BUFFERED_AMOUNT,
            last: start,
            snap: SnapHalves::none(alloc),
            pushed: PushedBack::none(),
            entries: Vec::new(alloc),
            resets: Vec::new(alloc),
            completed: VecDeque::new(alloc),
            room: Vec::new(alloc),
            lacks_room: false,
            agenda: Agenda::new(),
            rests: false,
        }
    }

    /// The greatest packet of the association, in bytes.
    pub fn max_payload_size(&self) -> usize
        ensures { result ≡ self.now.max_payload }
    {
        self.max_payload
    }

    /// Whether an `init` returned Ok.
    pub fn is_inited(&self) -> bool
        ensures { result ≡ S.association.started self.now.association }
    {
        self.association.is_started()
    }

    pub fn is_closing(&self) -> bool
        ensures { result ≡ (S.association.started self.now.association && S.association.closing self.now.association) }
    {
        self.association.is_started() && self.association.is_closing()
    }

    pub fn is_closed(&self) -> bool
        ensures { result ≡ (S.association.started self.now.association && S.association.closed self.now.association) }
    {
        self.association.is_started() && self.association.is_closed()
    }

    /// Whether the association was started as the client.
    pub fn is_client(&self) -> bool
        ensures { result ≡ self.now.client }
    {
        self.client
    }

    /// The longest message that this end takes, in bytes.
    pub fn local_max_message_size(&self) -> u32
        ensures { result ≡ self.now.local_max }
    {
        self.local_max
    }

    /// The bytes of a stream that are not acknowledged.
    pub fn buffered_amount(&self, id: u16) -> usize
        ensures { result ≡ (if S.association.started self.now.association then S.association.buffered self.now.association id else 0) }
    {
        if self.association.is_started() {
            return self.association.buffered_amount(id);
        }
        0
    }

    /// How often a stream was reset.
    pub fn generation(&self, id: u16) -> u64
        ensures { result ≡ S.association.generation self.now.association id }
    {
        self.association.generation(id)
    }

    /// What the channel of a stream was opened with.
    pub fn config(&self, id: u16) -> Option<&ChannelConfig>
        ensures { MatchOption result (stream_config id self.now.entries ≡ None)
            (λ config. stream_config id self.now.entries ≡ Some config.now) }
    {
        config_of(self.entries.as_slice(), id)
    }

    /// Sets how many bytes may be buffered before nothing is available.
    pub fn set_max_buffered_amount(&mut self, n: usize)
        ensures { self.new ≡ record self.old { max_buffered = n } }
    {
        self.max_buffered = n;
    }

    /// Takes packets back that a poll gave, to give them again.
    pub fn push_back_transmit(&mut self, packets: Seq<Bytes>)
        requires none { self.old.pushed ≡ None }
        requires short { All (λ packet. length packet ≤ 1900) packets }
        ensures { self.new ≡ record self.old { pushed = Some packets } }
    {
        self.pushed = PushedBack::of(packets);
    }

    /// Passes on packets that were pushed back, before a poll gives them again. Each is short enough to be sent over DTLS.
    pub fn take_pushed_back(&mut self) -> Option<Seq<Bytes>>
        ensures given { result ≡ self.old.pushed }
        ensures taken { self.new ≡ record self.old { pushed = None } }
        ensures short { ArePushedShort result }
    {
        self.pushed.take()
    }

    /// Each packet that was pushed back is short enough to be sent over DTLS.
    pub fn pushed_back_is_short(&self)
        ensures { ArePushedShort self.now.pushed }
    {
        self.pushed.are_short();
    }
}
