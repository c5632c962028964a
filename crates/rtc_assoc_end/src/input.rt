//! What packets and time do to an end.
ghost use Rattle.std.specs.Prelude.{◌≡◌, ◌<◌, ◌+◌, ◌^◌, ◌-◌, ◌≤◌, ◌⊎◌, ◌++◌, ◌∷◌, [], min, if◌then◌else◌};
ghost use Rattle.std.specs.Prelude.{Bool, OnOk, OnErr, IfOk, false, true, ◌||◌, Some};
ghost use Rattle.std.specs.VecDeque.{deque_len, deque_capacity};
ghost use Rattle.rtc_parts.specs.declared.assoc_event.AssocEvent.TheVariants.{Connected};
ghost use Rattle.rtc_assoc_state.specs.Packets.{frame_in};
ghost use Rattle.rtc_assoc_state.specs.Headers.{frame_with, item_with};
ghost use Rattle.rtc_assoc_state.specs.Pieces.{packets_from, ReadBack};
ghost use Rattle.std.specs.Bool.{OnTrue};
ghost use Rattle.rtc_assoc_state.specs.Contents.{is_ending, waits, is_client};
ghost use Rattle.rtc_assoc_state.specs.declared.role.Role.TheVariants.{Server};
ghost use Rattle.rtc_assoc_state.specs.Outbox.{settled_count};
ghost use Rattle.rtc_assoc_state.specs.Calls.{greeted, welcomed, acknowledged, item_taken, item_came, answered, lost};
ghost use Rattle.rtc_assoc_state.specs.Calls.{framed, half_taken, input_taken, timed, at_moment};
ghost use Rattle.rtc_assoc_state.specs.PlainMeaning.{Sends, Gives, Times, Polls, Transmits};

use crate::association::PlainAssociation;
use crate::queueing::queue_both;
use rtc_assoc_state::{
    Header, ItemHeader, Packet, Role, Standing, content_of, enqueue, packets_of, settle,
};
use rtc_parts::AssocEvent;
use rtc_wire::{Bytes, Moment};
use std::alloc::AllocError;
use std::collections::VecDeque;

/// The client hears of the server, for which room was made.
fn greet(standing: &mut Standing, events: &mut VecDeque<AssocEvent>)
    requires { deque_len events.old < deque_capacity events.old }
    ensures standing { standing.new ≡ record standing.old { connected = standing.old.connected || is_client standing.old.role } }
    ensures events { events.new.items ≡ events.old.items ++ (if waits standing.old then Connected ∷ [] else []) }
    ensures len { deque_len events.new ≤ deque_len events.old + 1 }
    ensures capacity { deque_capacity events.old ≤ deque_capacity events.new }
{
    match standing.role {
        Role::Client => {
            if !standing.connected {
                standing.connected = true;
                enqueue(events, AssocEvent::Connected);
            }
        }
        Role::Unstarted | Role::Server | Role::Snap => {}
    }
}

/// The association is connected, which is reported once, in room that was made.
fn link(standing: &mut Standing, events: &mut VecDeque<AssocEvent>)
    requires { deque_len events.old < deque_capacity events.old }
    ensures standing { standing.new ≡ record standing.old { connected = true } }
    ensures events { events.new.items ≡ events.old.items ++ (if standing.old.connected then [] else Connected ∷ []) }
{
    if !standing.connected {
        standing.connected = true;
        enqueue(events, AssocEvent::Connected);
    }
}

impl PlainAssociation {
    /// How many items an acknowledgement settles.
    fn settled_count(&self, number: u64) -> usize
        ensures count { result ≡ settled_count number self.now.outbox }
    {
        (number.saturating_sub(self.acked) as usize).min(self.items.len())
    }

    /// Takes an acknowledgement.
    #[tactic(auto, unfolding(rtc_assoc_state::specs::Calls::acknowledged))]
    fn acknowledge(&mut self, number: u64) -> Result<(), AllocError>
        ensures ok { OnOk result (self.new ≡ acknowledged number self.old) }
        ensures err { OnErr result (self.new ≡ self.old) }
    {
        let count = self.settled_count(number);
        self.events.reserve(count)?;
        settle(
            count,
            &mut self.items,
            &mut self.amounts,
            &mut self.streams,
            &mut self.events,
        );
        self.acked += count as u64;
        Ok(())
    }

    /// Hears of the server by its answer.
    #[tactic(auto, unfolding(rtc_assoc_state::specs::Calls::greeted))]
    fn hear(&mut self) -> Result<(), AllocError>
        ensures ok { OnOk result (self.new ≡ greeted self.old) }
        ensures err { OnErr result (self.new ≡ self.old) }
    {
        self.events.reserve(1)?;
        greet(&mut self.standing, &mut self.events);
        Ok(())
    }

    /// Hears of the server by its data, with an acknowledgement.
    #[tactic(auto, unfolding(rtc_assoc_state::specs::Calls::greeted, rtc_assoc_state::specs::Calls::acknowledged))]
    fn hear_data(&mut self, number: u64) -> Result<(), AllocError>
        ensures ok { OnOk result (self.new ≡ acknowledged number (greeted self.old)) }
        ensures err { OnErr result (self.new ≡ self.old) }
    {
        let count = self.settled_count(number);
        self.events.reserve(count + 1)?;
        greet(&mut self.standing, &mut self.events);
        settle(
            count,
            &mut self.items,
            &mut self.amounts,
            &mut self.streams,
            &mut self.events,
        );
        self.acked += count as u64;
        Ok(())
    }

    /// Hears of the client.
    #[tactic(auto, unfolding(rtc_assoc_state::specs::Calls::welcomed))]
    fn welcome(&mut self) -> Result<(), AllocError>
        ensures ok { OnOk result (Sends self.old (welcomed self.old) self.new) }
        ensures err { OnErr result (self.new ≡ self.old) }
    {
        match self.standing.role {
            Role::Unstarted | Role::Client | Role::Snap => Ok(()),
            Role::Server => self.welcome_client(),
        }
    }

    #[tactic(auto, unfolding(rtc_assoc_state::specs::Calls::welcomed))]
    fn welcome_client(&mut self) -> Result<(), AllocError>
        requires { self.old.standing.role ≡ Server }
        ensures ok { OnOk result (Sends self.old (welcomed self.old) self.new) }
        ensures err { OnErr result (self.new ≡ self.old) }
    {
        let packet = Packet::welcome(self.alloc)?;
        self.events.reserve(1)?;
        self.packets.push_back(packet)?;
        link(&mut self.standing, &mut self.events);
        Ok(())
    }

    /// The other end shut down.
    #[tactic(auto, unfolding(rtc_assoc_state::specs::Calls::lost))]
    fn lose(&mut self) -> Result<(), AllocError>
        ensures ok { OnOk result (self.new ≡ lost self.old) }
        ensures err { OnErr result (self.new ≡ self.old) }
    {
        self.events.push_back(AssocEvent::Lost)?;
        self.standing.lost = true;
        Ok(())
    }

    /// Acknowledges the number up to which all items were received.
    #[tactic(auto, unfolding(rtc_assoc_state::specs::Calls::answered))]
    fn answer(&mut self) -> Result<(), AllocError>
        ensures ok { OnOk result (Sends self.old (answered self.old) self.new) }
        ensures err { OnErr result (self.new ≡ self.old) }
    {
        let packet = Packet::acknowledgement(self.alloc, self.received)?;
        self.packets.push_back(packet)?;
        Ok(())
    }

    /// Receives a data packet: its acknowledgement first, then its item if it is the next one; then acknowledges.
    #[tactic(auto, unfolding(rtc_assoc_state::specs::Calls::item_came))]
    fn take_data(
        &mut self,
        now: Moment,
        heard: u64,
        number: u64,
        item: ItemHeader,
        bytes: &[u8],
    ) -> Result<(), AllocError>
        ensures ok { OnOk result (Sends self.old
            (answered (item_came now number (item_with item bytes.now) (acknowledged heard (greeted self.old)))) self.new) }
        ensures err { OnErr result ((self.new ≡ self.old) ⊎ (self.new ≡ acknowledged heard (greeted self.old))) }
    {
        self.hear_data(heard)?;
        self.take_numbered(now, number, item, bytes)
    }

    /// Receives an item: takes it if its number is the next one, and acknowledges.
    #[tactic(auto, unfolding(rtc_assoc_state::specs::Calls::item_came))]
    fn take_numbered(
        &mut self,
        now: Moment,
        number: u64,
        item: ItemHeader,
        bytes: &[u8],
    ) -> Result<(), AllocError>
        ensures ok { OnOk result (Sends self.old (answered (item_came now number (item_with item bytes.now) self.old)) self.new) }
        ensures err { OnErr result (self.new ≡ self.old) }
    {
        if number == 0 || number - 1 != self.received || self.ends() {
            return self.answer();
        }
        self.take_item(now, item, bytes)
    }

    /// Takes what a packet says, by its header.
    fn take_packet(&mut self, now: Moment, header: Header, bytes: &[u8]) -> Result<(), AllocError>
        ensures ok { OnOk result (Sends self.old (framed now (Some (frame_with header bytes.now)) self.old) self.new) }
        ensures err { OnErr result ((self.new ≡ self.old) ⊎ (self.new ≡ half_taken (Some (frame_with header bytes.now)) self.old)) }
    {
        match header {
            Header::Hello => self.welcome(),
            Header::Welcome => self.hear(),
            Header::Data {
                acknowledged,
                number,
                item,
            } => self.take_data(now, acknowledged, number, item, content_of(bytes)),
            Header::Acknowledgement(number) => self.acknowledge(number),
            Header::Shutdown => self.lose(),
        }
    }

    /// Takes a packet of the other end.
    #[tactic(auto, unfolding(rtc_assoc_state::specs::Calls::at_moment))]
    pub(crate) fn take(&mut self, now: Moment, bytes: &[u8]) -> Result<(), AllocError>
        ensures { Gives self.old now bytes.now result self.new }
    {
        if let Some(header) = Header::read(bytes) {
            self.take_packet(now, header, bytes)?;
            self.clock.now = now;
            return Ok(());
        }
        self.clock.now = now;
        Ok(())
    }

    /// The hello again, if it is due.
    fn hello_again(&self, due: bool) -> Result<VecDeque<Packet>, AllocError>
        ensures { IfOk result (λ packets. packets.items ≡ (if due then (1 ∷ []) ∷ [] else [])) }
    {
        let mut packets = VecDeque::new(self.alloc);
        if due {
            let hello = Packet::hello(self.alloc)?;
            packets.push_back(hello)?;
        }
        Ok(packets)
    }

    /// The unacknowledged items again, if they are due.
    fn items_again(&self, due: bool) -> Result<VecDeque<Packet>, AllocError>
        ensures packets { IfOk result (λ packets. packets.items
            ≡ (if due then packets_from self.now.inbox.received (self.now.outbox.acked + 1) self.now.outbox.items
            else [])) }
        ensures reads { OnOk result (OnTrue due (ReadBack self.now.inbox.received (self.now.outbox.acked + 1) self.now.outbox.items)) }
    {
        if !due {
            return Ok(VecDeque::new(self.alloc));
        }
        if self.items.is_empty() {
            return Ok(VecDeque::new(self.alloc));
        }
        packets_of(self.alloc, self.received, self.acked + 1, &self.items)
    }

    /// Takes a moment: what is due is queued again.
    #[tactic(auto, unfolding(rtc_assoc_state::specs::Calls::timed))]
    pub(crate) fn time(&mut self, now: Moment) -> Result<(), AllocError>
        ensures { Times self.old now result self.new }
    {
        let hello = self.is_hello_due(now);
        let items = self.are_items_due(now);
        let first = self.hello_again(hello)?;
        let second = self.items_again(items)?;
        queue_both(&mut self.packets, first, second)?;
        self.clock.now = now;
        self.clock.hello_sent = either(hello, now, self.clock.hello_sent);
        self.clock.items_sent = either(items, now, self.clock.items_sent);
        Ok(())
    }

    /// The next event.
    pub(crate) fn next_event(&mut self) -> Option<AssocEvent>
        ensures { Polls self.old.events self.old result self.new }
    {
        self.events.pop_front()
    }

    /// The next packet.
    pub(crate) fn next_packet(&mut self) -> Option<Bytes>
        ensures { Transmits self.old.packets self.old result self.new }
    {
        match self.packets.pop_front() {
            None => None,
            Some(packet) => Some(packet.into_bytes()),
        }
    }
}

/// One of two moments.
fn either(test: bool, yes: Moment, no: Moment) -> Moment
    ensures { result ≡ (if test then yes else no) }
{
    if test { yes } else { no }
}
