//! What messages and time do to an agent.
ghost use Rattle.std.specs.Prelude.{◌≡◌, ◌≤◌, ◌<◌, ◌+◌, ◌-◌, ◌++◌, ◌∷◌, [], length, IfOk, OnOk, OnErr, true};
ghost use Rattle.std.specs.Str.{bytes_eq};
ghost use Rattle.std.specs.VecDeque.{deque_len, deque_capacity};
ghost use Rattle.rtc_parts.specs.declared.ice_event.IceEvent.TheVariants.{DiscoveredRecv};
ghost use Rattle.rtc_plain_ice.specs.Places.{with_addr};
ghost use Rattle.rtc_plain_ice.specs.PlaceTables.{addrs_of};
ghost use Rattle.rtc_plain_ice.specs.Contents.{ufrags_fit};
ghost use Rattle.rtc_plain_ice.specs.Calls.{check_came, response_came, ice_input_taken, ice_time_passed, checked};
ghost use Rattle.rtc_plain_ice.specs.Messages.{check_number, message_bytes};
ghost use Rattle.rtc_plain_ice.specs.PlainMeaning.{PollsEvent, PollsTransmit};

use crate::addr_table::{AddrTable, remember};
use crate::agent::PlainIce;
use crate::calls::is_check_due;
use crate::check::{Check, Ends};
use crate::message::{CHECK, Message, RESPONSE, number_bytes, read, write};
use crate::queues::{nominate, start_checking, tell};
use rtc_parts::IceEvent;
use rtc_sdp_values::IceCreds;
use rtc_wire::{Addr, DatagramSend, Moment, Protocol, Span, Transmit};
use std::alloc::{AllocError, Global};
use std::collections::VecDeque;

// The response to a check, with its fragments exchanged.
fn response_to(alloc: Global, check: &Message<'_>) -> Result<DatagramSend, AllocError>
    requires receiver_fits { length check.now.receiver.now ≤ 255 }
    requires sender_fits { length check.now.sender.now ≤ 255 }
    ensures { IfOk result (λ m. m ≡ message_bytes 1 check.now.number.now check.now.sender.now check.now.receiver.now) }
{
    write(alloc, 1, check.number, check.sender, check.receiver)
}

/// Reports and answers a check that was received between these ends, and leaves room for two more events.
fn answer_check(
    alloc: Global,
    ends: &Ends,
    message: &Message<'_>,
    discovered: &mut AddrTable,
    events: &mut VecDeque<IceEvent>,
    transmits: &mut VecDeque<Transmit>,
) -> Result<(), AllocError>
    requires receiver_fits { length message.now.receiver.now ≤ 255 }
    requires sender_fits { length message.now.sender.now ≤ 255 }
    ensures discovered { OnOk result (addrs_of discovered.new.keys ≡ with_addr ends.now.destination (addrs_of discovered.old.keys)) }
    ensures events { OnOk result (events.new.items ≡ events.old.items ++ DiscoveredRecv ends.now.proto ends.now.destination ∷ []) }
    ensures room { OnOk result (deque_len events.new + 2 ≤ deque_capacity events.new) }
    ensures transmits { OnOk result (transmits.new.items ≡ transmits.old.items ++ record {
      proto = ends.now.proto;
      source = ends.now.source;
      destination = ends.now.destination;
      contents = message_bytes 1 message.now.number.now message.now.sender.now message.now.receiver.now;
    } ∷ []) }
    ensures same_discovered { OnErr result (addrs_of discovered.new.keys ≡ addrs_of discovered.old.keys) }
    ensures same_events { OnErr result (events.new.items ≡ events.old.items) }
    ensures same_transmits { OnErr result (transmits.new.items ≡ transmits.old.items) }
{
    events.reserve(3)?;
    discovered.reserve(1)?;
    transmits.reserve(1)?;
    let contents = response_to(alloc, message)?;
    transmits.push_back_reserved(Transmit {
        proto: ends.proto,
        source: ends.source,
        destination: ends.destination,
        contents,
    });
    let (proto, source) = (ends.proto, ends.destination);
    remember(discovered, source);
    tell(events, IceEvent::DiscoveredRecv { proto, source });
    Ok(())
}

/// Queues a check of a pair, and makes room for an event.
fn queue_check(
    alloc: Global,
    number: u64,
    ends: &Ends,
    remote: &IceCreds,
    local: &IceCreds,
    events: &mut VecDeque<IceEvent>,
    transmits: &mut VecDeque<Transmit>,
) -> Result<(), AllocError>
    requires remote_fits { length remote.now.ufrag ≤ 255 }
    requires local_fits { length local.now.ufrag ≤ 255 }
    ensures events { events.new.items ≡ events.old.items }
    ensures room { OnOk result (deque_len events.new < deque_capacity events.new) }
    ensures transmits { OnOk result (transmits.new.items ≡ transmits.old.items ++ record {
      proto = ends.now.proto;
      source = ends.now.source;
      destination = ends.now.destination;
      contents = message_bytes 0 (check_number number) remote.now.ufrag local.now.ufrag;
    } ∷ []) }
    ensures same_transmits { OnErr result (transmits.new.items ≡ transmits.old.items) }
{
    events.reserve(1)?;
    transmits.reserve(1)?;
    let receiver = remote.ufrag.as_str().as_bytes();
    let sender = local.ufrag.as_str().as_bytes();
    let contents = write(alloc, 0, &number_bytes(number), receiver, sender)?;
    transmits.push_back_reserved(Transmit {
        proto: ends.proto,
        source: ends.source,
        destination: ends.destination,
        contents,
    });
    Ok(())
}

/// Whether a number is that of a check.
fn is_number_of(check: &Check, number: &[u8]) -> bool
    ensures { result ≡ bytes_eq (check_number check.now.number) number.now }
{
    number_bytes(check.number).as_slice() == number
}

/// How long ago a check was made.
fn time_since(check: &Check, now: Moment) -> Span
    ensures { result ≡ now - check.now.made }
{
    Span::from_nanos(now.nanos().saturating_sub(check.made.nanos()))
}

impl PlainIce {
    /// Answers a check that was received between these ends. A lite agent without a pair takes them as its pair.
    #[tactic(auto, unfolding(crate::specs::Calls::heard_check, crate::specs::Calls::nominated_with))]
    fn take_check(&mut self, ends: &Ends, message: &Message<'_>) -> Result<(), AllocError>
        requires receiver_fits { length message.now.receiver.now ≤ 255 }
        requires sender_fits { length message.now.sender.now ≤ 255 }
        ensures ok { OnOk result (self.new
            ≡ check_came ends.now.proto ends.now.destination ends.now.source (record {
              kind = message.now.kind;
              number = message.now.number.now;
              receiver = message.now.receiver.now;
              sender = message.now.sender.now;
            }) self.old) }
        ensures err { OnErr result (self.new ≡ self.old) }
    {
        answer_check(
            self.alloc,
            ends,
            message,
            &mut self.discovered,
            &mut self.events,
            &mut self.transmits,
        )?;
        if self.lite && !self.nominated {
            nominate(
                ends,
                &mut self.nominated,
                &mut self.check,
                &mut self.state,
                &mut self.events,
            );
        }
        Ok(())
    }

    /// A response with the number of the outstanding check nominates its pair.
    #[tactic(auto, unfolding(crate::specs::Calls::timed_response, crate::specs::Calls::nominated_with))]
    fn take_response(&mut self, now: Moment, number: &[u8]) -> Result<(), AllocError>
        ensures ok { OnOk result (self.new ≡ response_came self.old.check now number.now self.old) }
        ensures err { OnErr result (self.new ≡ self.old) }
    {
        let Some(check) = self.check else {
            return Ok(());
        };
        if !is_number_of(&check, number) {
            return Ok(());
        }
        self.events.reserve(2)?;
        self.rtt = Some(time_since(&check, now));
        nominate(
            &check.ends,
            &mut self.nominated,
            &mut self.check,
            &mut self.state,
            &mut self.events,
        );
        Ok(())
    }

    pub(crate) fn take(
        &mut self,
        now: Moment,
        proto: Protocol,
        source: Addr,
        destination: Addr,
        bytes: &[u8],
    ) -> Result<(), AllocError>
        ensures ok { OnOk result (self.new ≡ ice_input_taken now proto source destination bytes.now self.old) }
        ensures err { OnErr result (self.new ≡ self.old) }
    {
        let Some(message) = read(bytes) else {
            return Ok(());
        };
        if message.kind == CHECK {
            if message.receiver != self.local.ufrag.as_str().as_bytes() {
                return Ok(());
            }
            let ends = Ends {
                proto,
                source: destination,
                destination: source,
            };
            return self.take_check(&ends, &message);
        }
        if message.kind == RESPONSE {
            return self.take_response(now, message.number);
        }
        Ok(())
    }

    /// Makes a check of a pair.
    #[tactic(auto, unfolding(crate::specs::Calls::checked))]
    fn check_pair(&mut self, now: Moment, ends: &Ends) -> Result<(), AllocError>
        requires { ufrags_fit self.old.settings.remote self.old.settings.local.ufrag ≡ true }
        ensures ok { OnOk result (self.new ≡ checked now ends.now self.old) }
        ensures err { OnErr result (self.new ≡ self.old) }
    {
        let Some(remote) = &self.remote else {
            return Ok(());
        };
        let number = self.checks.wrapping_add(1);
        queue_check(
            self.alloc,
            number,
            ends,
            remote,
            &self.local,
            &mut self.events,
            &mut self.transmits,
        )?;
        self.checks = number;
        self.check = Some(Check {
            number,
            ends: *ends,
            made: now,
            due: now.plus(self.rto),
        });
        start_checking(&mut self.state, &mut self.events);
        Ok(())
    }

    pub(crate) fn time(&mut self, now: Moment) -> Result<(), AllocError>
        ensures ok { OnOk result (self.new ≡ ice_time_passed now self.old) }
        ensures err { OnErr result (self.new ≡ self.old) }
    {
        let Some(ends) = self.next_pair() else {
            return Ok(());
        };
        if !is_check_due(&self.check, now) {
            return Ok(());
        }
        self.check_pair(now, &ends)
    }

    pub(crate) fn next_event(&mut self) -> Option<IceEvent>
        ensures { PollsEvent self.old.events self.old result self.new }
    {
        self.events.pop_front()
    }

    pub(crate) fn next_transmit(&mut self) -> Option<Transmit>
        ensures { PollsTransmit self.old.transmits self.old result self.new }
    {
        self.transmits.pop_front()
    }
}
