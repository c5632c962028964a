//! The outputs of a connection.
ghost use Rattle.std.specs.Prelude.{◌≡◌, ◌≤◌, length};
ghost use Rattle.rtc_parts.specs.DtlsState.{PollsOutput, Drains};

use crate::{Dtls, DtlsInstance, DtlsOutput, DtlsPolled};
use rtc_wire::{Bytes, DatagramSend, Moment};
use std::alloc::{AllocError, Global};
use std::collections::VecDeque;

/// Queues each packet, and returns the first other output.
fn drain<'a, D: DtlsInstance>(
    alloc: Global,
    instance: &mut D,
    packets: &mut VecDeque<DatagramSend>,
    buf: &'a mut [u8],
) -> Result<DtlsOutput<'a>, AllocError>
    requires { 2000 ≤ length buf.old }
    ensures { Drains D.dtls instance.old packets.old.items result instance.new packets.new.items }
{
    'polls: loop {
        match instance.poll(buf) {
            DtlsPolled::Packet(len) => {
                let packet = Vec::from_slice(alloc, &buf[..len])?;
                packets.push_back(DatagramSend::new(Bytes::new(packet)))?;
            }
            DtlsPolled::Connected => return Ok(DtlsOutput::Connected),
            DtlsPolled::KeyingMaterial(len, profile) => {
                return Ok(DtlsOutput::KeyingMaterial(&buf[..len], profile));
            }
            DtlsPolled::PeerCert(len) => return Ok(DtlsOutput::PeerCert(&buf[..len])),
            DtlsPolled::ApplicationData(len) => {
                return Ok(DtlsOutput::ApplicationData(&buf[..len]));
            }
            DtlsPolled::Timeout(moment) => return Ok(DtlsOutput::Timeout(moment)),
            DtlsPolled::CloseNotify => return Ok(DtlsOutput::CloseNotify),
        }
    }
}

impl<D: DtlsInstance> Dtls<D> {
    /// The next output that is no packet; packets up to it are queued. Before a role is set nothing is due.
    pub fn poll_output<'a>(&mut self, buf: &'a mut [u8]) -> Result<DtlsOutput<'a>, AllocError>
        requires { 2000 ≤ length buf.old }
        ensures { PollsOutput D.dtls self.old self.old.active result self.new }
    {
        if self.active.is_none() {
            return Ok(DtlsOutput::Timeout(Moment::FAR_FUTURE));
        }
        drain(self.alloc, &mut self.instance, &mut self.packets, buf)
    }
}
