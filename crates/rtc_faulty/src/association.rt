//! A faulty association.
use crate::faulty::Faulty;
use rtc_parts::{AssocError, AssocEvent, Association, Ppi};
use rtc_wire::{Moment, ReliabilityType};
use std::alloc::AllocError;

impl<S: Association> Association for Faulty<S> {
    ghost use Rattle.rtc_faulty.specs.FaultyAssociation.{faulty_association};
    ghost use Rattle.rtc_faulty.specs.FaultyAssociationLaws.{faulty_association_laws};

    ghost association = { faulty_association S.association };

    ghost laws = { faulty_association_laws S.association S.laws };

    fn set_limits(&mut self, max_payload: usize, local_max_message: u32) {
        self.inner.set_limits(max_payload, local_max_message);
    }

    fn connect(&mut self, now: Moment, max_send: u32) -> Result<(), AssocError> {
        if self.numbers.fail() {
            return Err(AssocError::Fault);
        }
        let answer = self.inner.connect(now, max_send);
        self.numbers.use_number();
        answer
    }

    fn accept(&mut self, now: Moment, max_send: u32) -> Result<(), AssocError> {
        if self.numbers.fail() {
            return Err(AssocError::Fault);
        }
        let answer = self.inner.accept(now, max_send);
        self.numbers.use_number();
        answer
    }

    fn connect_snap(
        &mut self,
        now: Moment,
        max_send: u32,
        local: &[u8],
        remote: &[u8],
    ) -> Result<(), AssocError> {
        if self.numbers.fail() {
            return Err(AssocError::Fault);
        }
        let answer = self.inner.connect_snap(now, max_send, local, remote);
        self.numbers.use_number();
        answer
    }

    fn is_started(&self) -> bool {
        self.inner.is_started()
    }

    fn is_closing(&self) -> bool {
        self.inner.is_closing()
    }

    fn is_closed(&self) -> bool {
        self.inner.is_closed()
    }

    /// A refusal as `StreamExists` or `ResetPending` uses no number.
    fn open_stream(&mut self, id: u16) -> Result<(), AssocError> {
        if self.numbers.fail() {
            return Err(AssocError::Fault);
        }
        let answer = self.inner.open_stream(id);
        match answer {
            Err(AssocError::StreamExists | AssocError::ResetPending) => {}
            Ok(())
            | Err(
                AssocError::NoStream
                | AssocError::TooLong
                | AssocError::Closing
                | AssocError::Fault
                | AssocError::Alloc,
            ) => self.numbers.use_number(),
        }
        answer
    }

    fn has_stream(&self, id: u16) -> bool {
        self.inner.has_stream(id)
    }

    fn is_stale(&self, id: u16) -> bool {
        self.inner.is_stale(id)
    }

    fn generation(&self, id: u16) -> u64 {
        self.inner.generation(id)
    }

    fn stream_write(&mut self, id: u16, ppi: Ppi, bytes: &[u8]) -> Result<usize, AssocError> {
        if self.numbers.fail() {
            return Err(AssocError::Fault);
        }
        let answer = self.inner.stream_write(id, ppi, bytes);
        self.numbers.use_number();
        answer
    }

    /// A reading that gives none uses no number.
    fn stream_read(&mut self, id: u16) -> Result<Option<(Ppi, Vec<u8>)>, AssocError> {
        if self.numbers.fail() {
            return Err(AssocError::Fault);
        }
        let answer = self.inner.stream_read(id);
        match &answer {
            Ok(None) => {}
            Ok(Some(_)) | Err(_) => self.numbers.use_number(),
        }
        answer
    }

    fn stream_close(&mut self, id: u16) -> Result<(), AssocError> {
        if self.numbers.fail() {
            return Err(AssocError::Fault);
        }
        let answer = self.inner.stream_close(id);
        self.numbers.use_number();
        answer
    }

    fn buffered_amount(&self, id: u16) -> usize {
        self.inner.buffered_amount(id)
    }

    fn set_threshold(&mut self, id: u16, n: usize) -> Result<(), AssocError> {
        if self.numbers.fail() {
            return Err(AssocError::Fault);
        }
        let answer = self.inner.set_threshold(id, n);
        self.numbers.use_number();
        answer
    }

    fn set_reliability(
        &mut self,
        id: u16,
        unordered: bool,
        t: ReliabilityType,
        p: u32,
    ) -> Result<(), AssocError> {
        if self.numbers.fail() {
            return Err(AssocError::Fault);
        }
        let answer = self.inner.set_reliability(id, unordered, t, p);
        self.numbers.use_number();
        answer
    }

    fn handle_input(&mut self, now: Moment, bytes: &[u8]) -> Result<(), AllocError> {
        self.inner.handle_input(now, bytes)
    }

    fn handle_timeout(&mut self, now: Moment) -> Result<(), AllocError> {
        self.inner.handle_timeout(now)
    }

    fn poll(&mut self) -> Option<AssocEvent> {
        self.inner.poll()
    }

    fn poll_transmit(&mut self) -> Option<Vec<u8>> {
        self.inner.poll_transmit()
    }

    fn poll_timeout(&self) -> Option<Moment> {
        self.inner.poll_timeout()
    }

    fn shutdown(&mut self) -> Result<(), AssocError> {
        if self.numbers.fail() {
            return Err(AssocError::Fault);
        }
        let answer = self.inner.shutdown();
        self.numbers.use_number();
        answer
    }
}
