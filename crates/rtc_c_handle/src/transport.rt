//! Moments, datagrams, polls, messages and closes of a peer that C keeps.
ghost use Rattle.std.specs.Prelude.{◌≡◌};
ghost use Rattle.rtc_wire.specs.DatagramRecv.{kind_by};
ghost use Rattle.rtc_plain_ice.specs.Messages.{is_ice_message};
ghost use Rattle.rtc_peer_core.specs.Meanings.{meanings};
ghost use Rattle.rtc_peer_polling.specs.Inputs.{HandlesInput};
ghost use Rattle.rtc_peer_transport.specs.ChannelCalls.{open_stream_under};
ghost use Rattle.rtc_peer_transport.specs.declared.input.Input.TheVariants as given;
ghost use Rattle.rtc_peer.specs.CachedPeer.{polled_of};
ghost use Rattle.rtc.specs.PlainPeers.{memory_parts};
ghost use Rattle.rtc.specs.Receives.{ReceivesDatagram};
ghost use Rattle.rtc_c_handle.specs.Statuses.{status_of_memory};
ghost use Rattle.rtc_c_handle.specs.Transport.{BeginsClose, ClosesHeldChannel, HearsDatagram, HearsMoment, PollsRow};
ghost use Rattle.rtc_c_handle.specs.Transport.{WritesHeld, WritesOpen, status_of_written, udp_datagram};

use crate::outputs::output_row;
use crate::{Address, Held, OutputBytes, OutputRow, Status};
use rtc::{
    ChannelId, Input, Moment, Parts, Peer, Plain, PlainIce, PlainRtc, Protocol, Receive, RtcError,
};
use std::alloc::AllocError;

// Gives a peer a moment.
fn give_moment<P: Parts>(peer: &mut Peer<P>, now: Moment) -> Result<(), RtcError>
    ensures { HandlesInput (meanings P.Ice.ice P.Dtls.dtls P.Sctp.association P.Media.media P.Ids.ids)
        (given.Timeout now) (polled_of peer.old) result (polled_of peer.new) }
{
    peer.handle_input(&Input::Timeout(now))
}

// Gives a peer a datagram that was sent by UDP.
fn receive(
    rtc: &mut PlainRtc,
    now: u64,
    source: &Address,
    destination: &Address,
    bytes: &[u8],
) -> Result<(), RtcError>
    ensures { ReceivesDatagram memory_parts (kind_by is_ice_message bytes.now)
        (udp_datagram source.now destination.now bytes.now) now (polled_of rtc.old) result (polled_of rtc.new) }
{
    match Receive::new::<PlainIce>(Protocol::Udp, source.addr(), destination.addr(), bytes) {
        Ok(received) => rtc.handle_input(&Input::Receive(Moment::from_nanos(now), received)),
        Err(why) => Err(RtcError::Net(why)),
    }
}

// Writes a message to a channel, and returns nothing if that is not open.
fn write_if_open(
    rtc: &mut PlainRtc,
    channel: u64,
    binary: bool,
    bytes: &[u8],
) -> Option<Result<bool, RtcError>>
    ensures { WritesOpen (open_stream_under channel (polled_of rtc.old)) binary bytes.now (polled_of rtc.old) result (polled_of rtc.new) }
{
    match rtc.channel(ChannelId::new(channel)) {
        Some(mut open) => Some(open.write(binary, bytes)),
        None => None,
    }
}

// The status of a write to a channel.
fn written_status(returned: Option<Result<bool, RtcError>>) -> Status
    ensures { result ≡ status_of_written returned }
{
    match returned {
        Some(returned) => Status::of_write(returned),
        None => Status::NoChannel,
    }
}

// The status of a call that fails only if there is no memory.
fn memory_status(returned: Result<(), AllocError>) -> Status
    ensures { result ≡ status_of_memory returned }
{
    match returned {
        Ok(()) => Status::Done,
        Err(_) => Status::NoMemory,
    }
}

impl Held {
    /// Gives the peer a moment, in nanoseconds.
    pub fn handle_timeout(&mut self, now: u64) -> Status
        ensures { HearsMoment now self.old result self.new }
    {
        let returned = give_moment::<Plain>(&mut self.rtc, Moment::from_nanos(now));
        Status::of_call(returned)
    }

    /// Gives the peer a datagram that was received by UDP at a moment, with its addresses as the other side sent it.
    pub fn handle_receive(
        &mut self,
        now: u64,
        source: &Address,
        destination: &Address,
        bytes: &[u8],
    ) -> Status
        ensures { HearsDatagram now source.now destination.now bytes.now self.old result self.new }
    {
        let returned = receive(&mut self.rtc, now, source, destination, bytes);
        Status::of_call(returned)
    }

    /// Polls the peer, and keeps the bytes of what it returns until the next poll.
    pub fn poll_output(&mut self, row: &mut OutputRow) -> Status
        ensures { PollsRow self.old row.old result self.new row.new }
    {
        match self.rtc.poll_output() {
            Ok(output) => {
                *row = output_row(&output);
                self.output = OutputBytes::of_output(output);
                Status::Done
            }
            Err(error) => Status::of_error(&error),
        }
    }

    /// Writes a message, text or binary, to a channel that is open.
    pub fn write(&mut self, channel: u64, binary: bool, bytes: &[u8]) -> Status
        ensures { WritesHeld channel binary bytes.now self.old result self.new }
    {
        let returned = write_if_open(&mut self.rtc, channel, binary, bytes);
        written_status(returned)
    }

    /// Closes a channel (RFC 8831, section 6.7).
    pub fn close_channel(&mut self, channel: u64) -> Status
        ensures { ClosesHeldChannel channel self.old result self.new }
    {
        let returned = self.rtc.close_data_channel(ChannelId::new(channel));
        memory_status(returned)
    }

    /// Begins to close the peer, which polls end.
    pub fn close(&mut self) -> Status
        ensures { BeginsClose self.old result self.new }
    {
        let returned = self.rtc.close();
        Status::of_call(returned)
    }
}
