//! The plain association as a part.
use crate::association::PlainAssociation;
use rtc_parts::{AssocError, AssocEvent, Association, Ppi};
use rtc_wire::{Moment, ReliabilityType};
use std::alloc::AllocError;

impl Association for PlainAssociation {
    ghost use Rattle.rtc_assoc_state.specs.PlainMeaning.{plain_meaning};
    ghost use Rattle.rtc_assoc_state.proofs.PlainLaws.{plain_laws};

    ghost association = { plain_meaning };

    ghost laws = { plain_laws };

    fn set_limits(&mut self, max_payload: usize, local_max_message: u32) {
        self.limit(max_payload, local_max_message);
    }

    fn connect(&mut self, now: Moment, max_send: u32) -> Result<(), AssocError> {
        self.start_client(now, max_send)?;
        Ok(())
    }

    fn accept(&mut self, now: Moment, max_send: u32) -> Result<(), AssocError> {
        self.start_server(now, max_send);
        Ok(())
    }

    fn connect_snap(
        &mut self,
        now: Moment,
        max_send: u32,
        _local: &[u8],
        _remote: &[u8],
    ) -> Result<(), AssocError> {
        self.start_snap(now, max_send);
        Ok(())
    }

    fn is_started(&self) -> bool {
        self.standing.role.is_started()
    }

    fn is_closing(&self) -> bool {
        self.closes()
    }

    fn is_closed(&self) -> bool {
        self.is_lost()
    }

    fn open_stream(&mut self, id: u16) -> Result<(), AssocError> {
        if self.has(id) {
            return Err(AssocError::StreamExists);
        }
        if self.has_closed(id) {
            return Err(AssocError::ResetPending);
        }
        if self.ends() {
            return Err(AssocError::Closing);
        }
        self.open(id)?;
        Ok(())
    }

    fn has_stream(&self, id: u16) -> bool {
        self.has(id)
    }

    fn is_stale(&self, id: u16) -> bool {
        self.stale(id)
    }

    fn generation(&self, id: u16) -> u64 {
        self.generation_of(id)
    }

    fn stream_write(&mut self, id: u16, ppi: Ppi, bytes: &[u8]) -> Result<usize, AssocError> {
        if !self.has(id) || self.has_closed(id) {
            return Err(AssocError::NoStream);
        }
        if self.is_too_long(bytes.len()) {
            return Err(AssocError::TooLong);
        }
        if self.ends() {
            return Err(AssocError::Closing);
        }
        self.write(id, ppi.number(), bytes)?;
        Ok(bytes.len())
    }

    fn stream_read(&mut self, id: u16) -> Result<Option<(Ppi, Vec<u8>)>, AssocError> {
        if !self.has(id) {
            return Err(AssocError::NoStream);
        }
        match self.read(id) {
            None => Ok(None),
            Some(message) => {
                let ppi = Ppi::of(message.identifier);
                Ok(Some((ppi, message.bytes.into_vec())))
            }
        }
    }

    fn stream_close(&mut self, id: u16) -> Result<(), AssocError> {
        if !self.has(id) || self.has_closed(id) {
            return Err(AssocError::NoStream);
        }
        if self.ends() {
            return Err(AssocError::Closing);
        }
        self.end(id)?;
        Ok(())
    }

    fn buffered_amount(&self, id: u16) -> usize {
        self.buffered(id)
    }

    fn set_threshold(&mut self, id: u16, n: usize) -> Result<(), AssocError> {
        if !self.has(id) {
            return Err(AssocError::NoStream);
        }
        self.set_low(id, n)?;
        Ok(())
    }

    /// All streams are ordered and reliable, whatever is set.
    fn set_reliability(
        &mut self,
        id: u16,
        _unordered: bool,
        _t: ReliabilityType,
        _p: u32,
    ) -> Result<(), AssocError> {
        if !self.has(id) {
            return Err(AssocError::NoStream);
        }
        Ok(())
    }

    fn handle_input(&mut self, now: Moment, bytes: &[u8]) -> Result<(), AllocError> {
        self.take(now, bytes)
    }

    fn handle_timeout(&mut self, now: Moment) -> Result<(), AllocError> {
        self.time(now)
    }

    fn poll(&mut self) -> Option<AssocEvent> {
        self.next_event()
    }

    fn poll_transmit(&mut self) -> Option<Vec<u8>> {
        match self.next_packet() {
            None => None,
            Some(packet) => Some(packet.into_vec()),
        }
    }

    fn poll_timeout(&self) -> Option<Moment> {
        self.wake()
    }

    fn shutdown(&mut self) -> Result<(), AssocError> {
        if self.ends() {
            return Err(AssocError::Closing);
        }
        self.shut()?;
        Ok(())
    }
}
