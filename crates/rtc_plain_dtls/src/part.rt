//! The plain part as a part.
use crate::calls::finished;
use crate::instance::PlainDtls;
use rtc_parts::{DtlsError, DtlsInstance, DtlsPolled, DtlsVersion};
use rtc_wire::{Bytes, Moment};
use std::alloc::AllocError;

#[tactic(auto, unfolding(crate::specs::Calls::certificate_kept))]
impl DtlsInstance for PlainDtls {
    ghost use Rattle.rtc_plain_dtls.specs.PlainMeaning.{plain_dtls};
    ghost use Rattle.rtc_plain_dtls.specs.PlainLaws.{plain_dtls_laws};

    ghost dtls = { plain_dtls };

    ghost laws = { plain_dtls_laws };

    fn set_certificate(&mut self, cert: &[u8]) -> Result<(), AllocError> {
        let cert = Vec::from_slice(self.alloc, cert)?;
        self.cert = Bytes::new(cert);
        Ok(())
    }

    /// The first role is kept.
    fn set_active(&mut self, active: bool) {
        self.take_role(active);
    }

    fn handle_packet(&mut self, packet: &[u8]) -> Result<(), DtlsError> {
        self.take(packet)?;
        Ok(())
    }

    /// The version is DTLS 1.2, whatever is set.
    fn set_version(&mut self, _v: DtlsVersion) {}

    fn send_application_data(&mut self, bytes: &[u8]) -> Result<(), DtlsError> {
        if !finished(self.phase) {
            return Err(DtlsError::WouldBlock);
        }
        self.queue_data(bytes)?;
        Ok(())
    }

    fn handle_timeout(&mut self, now: Moment) -> Result<(), DtlsError> {
        self.time(now)?;
        Ok(())
    }

    fn close(&mut self) -> Result<(), DtlsError> {
        self.shut()?;
        Ok(())
    }

    fn is_closed(&self) -> bool {
        self.closed
    }

    fn is_finished(&self) -> bool {
        finished(self.phase)
    }

    fn protocol_version(&self) -> Option<DtlsVersion> {
        if finished(self.phase) {
            Some(DtlsVersion::Dtls12)
        } else {
            None
        }
    }

    fn poll(&mut self, buf: &mut [u8]) -> DtlsPolled {
        self.next_output(buf)
    }
}
