//! A counted association.
use crate::{CallKind, Counted};
use rtc_parts::{AssocError, AssocEvent, Association, Ppi};
use rtc_wire::{Moment, ReliabilityType};
use std::alloc::AllocError;

impl<S: Association> Association for Counted<S> {
    ghost association = { S.association };

    ghost laws = { S.laws };

    fn set_limits(&mut self, max_payload: usize, local_max_message: u32) {
        self.calls.add(CallKind::Change);
        self.inner.set_limits(max_payload, local_max_message);
    }

    fn connect(&mut self, now: Moment, max_send: u32) -> Result<(), AssocError> {
        self.calls.add(CallKind::Change);
        self.inner.connect(now, max_send)
    }

    fn accept(&mut self, now: Moment, max_send: u32) -> Result<(), AssocError> {
        self.calls.add(CallKind::Change);
        self.inner.accept(now, max_send)
    }

    fn connect_snap(
        &mut self,
        now: Moment,
        max_send: u32,
        local: &[u8],
        remote: &[u8],
    ) -> Result<(), AssocError> {
        self.calls.add(CallKind::Change);
        self.inner.connect_snap(now, max_send, local, remote)
    }

    fn is_started(&self) -> bool {
        self.calls.add(CallKind::Reading);
        self.inner.is_started()
    }

    fn is_closing(&self) -> bool {
        self.calls.add(CallKind::Reading);
        self.inner.is_closing()
    }

    fn is_closed(&self) -> bool {
        self.calls.add(CallKind::Reading);
        self.inner.is_closed()
    }

    fn open_stream(&mut self, id: u16) -> Result<(), AssocError> {
        self.calls.add(CallKind::Change);
        self.inner.open_stream(id)
    }

    fn has_stream(&self, id: u16) -> bool {
        self.calls.add(CallKind::Reading);
        self.inner.has_stream(id)
    }

    fn is_stale(&self, id: u16) -> bool {
        self.calls.add(CallKind::Reading);
        self.inner.is_stale(id)
    }

    fn generation(&self, id: u16) -> u64 {
        self.calls.add(CallKind::Reading);
        self.inner.generation(id)
    }

    fn stream_write(&mut self, id: u16, ppi: Ppi, bytes: &[u8]) -> Result<usize, AssocError> {
        self.calls.add(CallKind::Change);
        self.inner.stream_write(id, ppi, bytes)
    }

    fn stream_read(&mut self, id: u16) -> Result<Option<(Ppi, Vec<u8>)>, AssocError> {
        self.calls.add(CallKind::Message);
        self.inner.stream_read(id)
    }

    fn stream_close(&mut self, id: u16) -> Result<(), AssocError> {
        self.calls.add(CallKind::Change);
        self.inner.stream_close(id)
    }

    fn buffered_amount(&self, id: u16) -> usize {
        self.calls.add(CallKind::Reading);
        self.inner.buffered_amount(id)
    }

    fn set_threshold(&mut self, id: u16, n: usize) -> Result<(), AssocError> {
        self.calls.add(CallKind::Change);
        self.inner.set_threshold(id, n)
    }

    fn set_reliability(
        &mut self,
        id: u16,
        unordered: bool,
        t: ReliabilityType,
        p: u32,
    ) -> Result<(), AssocError> {
        self.calls.add(CallKind::Change);
        self.inner.set_reliability(id, unordered, t, p)
    }

    fn handle_input(&mut self, now: Moment, bytes: &[u8]) -> Result<(), AllocError> {
        self.calls.add(CallKind::Packet);
        self.inner.handle_input(now, bytes)
    }

    fn handle_timeout(&mut self, now: Moment) -> Result<(), AllocError> {
        self.calls.add(CallKind::Timeout);
        self.inner.handle_timeout(now)
    }

    fn poll(&mut self) -> Option<AssocEvent> {
        self.calls.add(CallKind::Poll);
        self.inner.poll()
    }

    fn poll_transmit(&mut self) -> Option<Vec<u8>> {
        self.calls.add(CallKind::Poll);
        self.inner.poll_transmit()
    }

    fn poll_timeout(&self) -> Option<Moment> {
        self.calls.add(CallKind::Reading);
        self.inner.poll_timeout()
    }

    fn shutdown(&mut self) -> Result<(), AssocError> {
        self.calls.add(CallKind::Change);
        self.inner.shutdown()
    }
}
