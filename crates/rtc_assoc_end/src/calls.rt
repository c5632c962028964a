//! What the calls of an end do to it.
ghost use Rattle.std.specs.Prelude.{◌≡◌, ◌≤◌, ◌<◌, ◌^◌, OnOk, OnErr, false, length};
ghost use Rattle.rtc_assoc_state.specs.Contents.{is_ending};
ghost use Rattle.rtc_assoc_state.specs.Calls.{limited, connected, accepted, snapped, opened, message_written};
ghost use Rattle.rtc_assoc_state.specs.Calls.{stream_ended, thresholded, shut_down, next_message, taken_out};
ghost use Rattle.rtc_assoc_state.specs.PlainMeaning.{Sends};

use crate::association::PlainAssociation;
use crate::queueing::{queue_close, queue_message};
use rtc_assoc_state::{CloseState, DATA_OVERHEAD, Message, Packet, Role, cut_message, packets_of};
use rtc_wire::Moment;
use std::alloc::AllocError;

impl PlainAssociation {
    #[tactic(auto, unfolding(rtc_assoc_state::specs::Calls::limited))]
    pub(crate) fn limit(&mut self, max_payload: usize, local_max_message: u32)
        requires least { 29 ≤ max_payload }
        requires most { max_payload ≤ 1900 }
        ensures { self.new ≡ limited max_payload local_max_message self.old }
    {
        self.limits.max_payload = max_payload;
        self.limits.local_max_message = local_max_message;
    }

    #[tactic(auto, unfolding(rtc_assoc_state::specs::Calls::started_as, rtc_assoc_state::specs::Calls::said_hello))]
    pub(crate) fn start_client(&mut self, now: Moment, max_send: u32) -> Result<(), AllocError>
        ensures ok { OnOk result (self.new ≡ connected now max_send self.old) }
        ensures err { OnErr result (self.new ≡ self.old) }
    {
        let hello = Packet::hello(self.alloc)?;
        self.packets.push_back(hello)?;
        self.limits.max_send = max_send;
        self.standing.role = Role::Client;
        self.clock.now = now;
        self.clock.hello_sent = now;
        Ok(())
    }

    #[tactic(auto, unfolding(rtc_assoc_state::specs::Calls::started_as))]
    pub(crate) fn start_server(&mut self, now: Moment, max_send: u32)
        ensures { self.new ≡ accepted now max_send self.old }
    {
        self.limits.max_send = max_send;
        self.standing.role = Role::Server;
        self.clock.now = now;
    }

    #[tactic(auto, unfolding(rtc_assoc_state::specs::Calls::started_as, rtc_assoc_state::specs::Calls::snapped))]
    pub(crate) fn start_snap(&mut self, now: Moment, max_send: u32)
        ensures { self.new ≡ snapped now max_send self.old }
    {
        self.limits.max_send = max_send;
        self.standing.role = Role::Snap;
        self.standing.connected = true;
        self.clock.now = now;
    }

    #[tactic(auto, unfolding(rtc_assoc_state::specs::Calls::opened))]
    pub(crate) fn open(&mut self, id: u16) -> Result<(), AllocError>
        ensures ok { OnOk result (self.new ≡ opened id self.old) }
        ensures err { OnErr result (self.new ≡ self.old) }
    {
        let mut row = self.streams.row_of(id);
        row.there = true;
        self.streams.put_row(row)?;
        Ok(())
    }

    #[tactic(auto, unfolding(rtc_assoc_state::specs::Calls::thresholded))]
    pub(crate) fn set_low(&mut self, id: u16, n: usize) -> Result<(), AllocError>
        ensures ok { OnOk result (self.new ≡ thresholded id n self.old) }
        ensures err { OnErr result (self.new ≡ self.old) }
    {
        let mut row = self.streams.row_of(id);
        row.threshold = Some(n);
        self.streams.put_row(row)?;
        Ok(())
    }

    #[tactic(auto, unfolding(rtc_assoc_state::specs::Calls::shut_down))]
    pub(crate) fn shut(&mut self) -> Result<(), AllocError>
        ensures ok { OnOk result (self.new ≡ shut_down self.old) }
        ensures err { OnErr result (self.new ≡ self.old) }
    {
        let packet = Packet::shutdown(self.alloc)?;
        self.packets.push_back(packet)?;
        self.standing.shut = true;
        Ok(())
    }

    #[tactic(auto, unfolding(rtc_assoc_state::specs::Calls::taken_out))]
    pub(crate) fn read(&mut self, id: u16) -> Option<Message>
        ensures message { result ≡ next_message id self.old }
        ensures rest { self.new ≡ taken_out id self.old }
    {
        let generation = self.streams.row_of(id).generation;
        self.unread.take_out(id, generation)
    }

    #[tactic(auto, unfolding(rtc_assoc_state::specs::Calls::sent))]
    pub(crate) fn write(&mut self, id: u16, identifier: u32, bytes: &[u8]) -> Result<(), AllocError>
        requires lives { is_ending self.old ≡ false }
        requires short { length bytes.now < 2 ^ 32 }
        ensures ok { OnOk result (Sends self.old (message_written id identifier bytes.now self.old) self.new) }
        ensures err { OnErr result (self.new ≡ self.old) }
    {
        let generation = self.streams.row_of(id).generation;
        let size = self.limits.max_payload - DATA_OVERHEAD;
        let items = cut_message(self.alloc, size, id, generation, identifier, bytes)?;
        let first = self.acked + self.items.len() as u64 + 1;
        let packets = packets_of(self.alloc, self.received, first, &items)?;
        queue_message(
            &mut self.items,
            &mut self.packets,
            &mut self.amounts,
            id,
            bytes.len(),
            items,
            packets,
        )?;
        self.clock.items_sent = self.clock.now;
        Ok(())
    }

    #[tactic(auto, unfolding(rtc_assoc_state::specs::Calls::sent, rtc_assoc_state::specs::Calls::stream_ended))]
    pub(crate) fn end(&mut self, id: u16) -> Result<(), AllocError>
        requires { is_ending self.old ≡ false }
        ensures ok { OnOk result (Sends self.old (stream_ended self.old.clock.now id self.old) self.new) }
        ensures err { OnErr result (self.new ≡ self.old) }
    {
        let mut row = self.streams.row_of(id);
        let generation = row.generation;
        let number = self.acked + self.items.len() as u64 + 1;
        self.streams.make_room(row.stream)?;
        queue_close(
            self.alloc,
            self.received,
            number,
            id,
            generation,
            &mut self.items,
            &mut self.packets,
        )?;
        row.close = CloseState::Queued;
        self.streams.set_row(row);
        self.unread.forget(&mut self.parts, id, generation);
        self.clock.items_sent = self.clock.now;
        Ok(())
    }
}
