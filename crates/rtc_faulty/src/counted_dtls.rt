//! A counted DTLS part.
use crate::{CallKind, Counted};
use rtc_parts::{DtlsError, DtlsInstance, DtlsPolled, DtlsVersion};
use rtc_wire::Moment;
use std::alloc::AllocError;

impl<D: DtlsInstance> DtlsInstance for Counted<D> {
    ghost dtls = { D.dtls };

    ghost laws = { D.laws };

    fn set_certificate(&mut self, cert: &[u8]) -> Result<(), AllocError> {
        self.calls.add(CallKind::Change);
        self.inner.set_certificate(cert)
    }

    fn set_active(&mut self, active: bool) {
        self.calls.add(CallKind::Change);
        self.inner.set_active(active);
    }

    fn handle_packet(&mut self, packet: &[u8]) -> Result<(), DtlsError> {
        self.calls.add(CallKind::Packet);
        self.inner.handle_packet(packet)
    }

    fn set_version(&mut self, v: DtlsVersion) {
        self.calls.add(CallKind::Change);
        self.inner.set_version(v);
    }

    fn send_application_data(&mut self, bytes: &[u8]) -> Result<(), DtlsError> {
        self.calls.add(CallKind::Change);
        self.inner.send_application_data(bytes)
    }

    fn handle_timeout(&mut self, now: Moment) -> Result<(), DtlsError> {
        self.calls.add(CallKind::Timeout);
        self.inner.handle_timeout(now)
    }

    fn close(&mut self) -> Result<(), DtlsError> {
        self.calls.add(CallKind::Change);
        self.inner.close()
    }

    fn is_closed(&self) -> bool {
        self.calls.add(CallKind::Reading);
        self.inner.is_closed()
    }

    fn is_finished(&self) -> bool {
        self.calls.add(CallKind::Reading);
        self.inner.is_finished()
    }

    fn protocol_version(&self) -> Option<DtlsVersion> {
        self.calls.add(CallKind::Reading);
        self.inner.protocol_version()
    }

    fn poll(&mut self, buf: &mut [u8]) -> DtlsPolled {
        self.calls.add(CallKind::Poll);
        self.inner.poll(buf)
    }
}
