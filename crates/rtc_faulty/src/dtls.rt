//! A faulty DTLS part.
use crate::faulty::Faulty;
use rtc_parts::{DtlsError, DtlsInstance, DtlsPolled, DtlsVersion};
use rtc_wire::Moment;
use std::alloc::AllocError;

impl<D: DtlsInstance> DtlsInstance for Faulty<D> {
    ghost use Rattle.rtc_faulty.specs.FaultyDtls.{faulty_dtls};
    ghost use Rattle.rtc_faulty.specs.FaultyDtlsLaws.{faulty_dtls_laws};

    ghost dtls = { faulty_dtls D.dtls };

    ghost laws = { faulty_dtls_laws D.dtls D.laws };

    fn set_certificate(&mut self, cert: &[u8]) -> Result<(), AllocError> {
        self.inner.set_certificate(cert)
    }

    fn set_active(&mut self, active: bool) {
        self.inner.set_active(active);
    }

    fn handle_packet(&mut self, packet: &[u8]) -> Result<(), DtlsError> {
        if self.numbers.fail() {
            return Err(DtlsError::Fault);
        }
        let answer = self.inner.handle_packet(packet);
        self.numbers.use_number();
        answer
    }

    fn set_version(&mut self, v: DtlsVersion) {
        self.inner.set_version(v);
    }

    /// A refusal as `WouldBlock` uses no number.
    fn send_application_data(&mut self, bytes: &[u8]) -> Result<(), DtlsError> {
        if self.numbers.fail() {
            return Err(DtlsError::Fault);
        }
        let answer = self.inner.send_application_data(bytes);
        match answer {
            Err(DtlsError::WouldBlock) => {}
            Ok(()) | Err(DtlsError::Fault | DtlsError::Alloc) => self.numbers.use_number(),
        }
        answer
    }

    fn handle_timeout(&mut self, now: Moment) -> Result<(), DtlsError> {
        if self.numbers.fail() {
            return Err(DtlsError::Fault);
        }
        let answer = self.inner.handle_timeout(now);
        self.numbers.use_number();
        answer
    }

    fn close(&mut self) -> Result<(), DtlsError> {
        if self.numbers.fail() {
            return Err(DtlsError::Fault);
        }
        let answer = self.inner.close();
        self.numbers.use_number();
        answer
    }

    fn is_closed(&self) -> bool {
        self.inner.is_closed()
    }

    fn is_finished(&self) -> bool {
        self.inner.is_finished()
    }

    fn protocol_version(&self) -> Option<DtlsVersion> {
        self.inner.protocol_version()
    }

    fn poll(&mut self, buf: &mut [u8]) -> DtlsPolled {
        self.inner.poll(buf)
    }
}
