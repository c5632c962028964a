//! The DTLS connection of a peer.
use crate::{DtlsError, DtlsPolled, DtlsVersion};
use rtc_wire::Moment;
use std::alloc::AllocError;

/// One side of a DTLS connection (RFC 6347), which proves a certificate to the other side and carries application data.
///
/// Packets and moments are given; packets, data and events are polled. What a call does is its relation in the meaning
/// of the part, and what holds of every part are the laws.
pub trait DtlsInstance {
    ghost use Rattle.std.specs.Prelude.{◌≡◌, ◌≤◌, length};
    ghost use Rattle.rtc_parts.specs.DtlsDrawn.{dtls_drawn, polled_length};
    ghost use Rattle.rtc_parts.specs.DtlsMeaning.{DtlsMeaning};
    ghost use Rattle.rtc_parts.specs.DtlsLaws.{DtlsLaws};

    ghost dtls: { DtlsMeaning Self };

    /// Sets the certificate of this side, in DER.
    fn set_certificate(&mut self, cert: &[u8]) -> Result<(), AllocError>
        requires { length cert.now ≤ 1900 }
        ensures { dtls.certificate_set self.old cert.now result self.new };

    /// Sets whether this side begins the handshake.
    fn set_active(&mut self, active: bool)
        ensures { dtls.activated self.old active self.new };

    /// Takes a packet of the other side. One of no bytes starts the handshake of the active side.
    fn handle_packet(&mut self, packet: &[u8]) -> Result<(), DtlsError>
        ensures { dtls.given self.old packet.now result self.new };

    /// Sets the version that the handshake is to give.
    fn set_version(&mut self, v: DtlsVersion)
        ensures { dtls.version_set self.old v self.new };

    fn send_application_data(&mut self, bytes: &[u8]) -> Result<(), DtlsError>
        requires { length bytes.now ≤ 1900 }
        ensures { dtls.sent self.old bytes.now result self.new };

    fn handle_timeout(&mut self, now: Moment) -> Result<(), DtlsError>
        ensures { dtls.timed self.old now result self.new };

    /// Closes the connection, and notifies the other side.
    fn close(&mut self) -> Result<(), DtlsError>
        ensures { dtls.shut self.old result self.new };

    fn is_closed(&self) -> bool
        ensures { result ≡ dtls.closed self.now };

    /// Whether the handshake is finished, so that application data can be sent.
    fn is_finished(&self) -> bool
        ensures { result ≡ dtls.finished self.now };

    /// The version that the handshake gave; None before.
    fn protocol_version(&self) -> Option<DtlsVersion>
        ensures { result ≡ dtls.version self.now };

    /// The next output. Its bytes are written to the front of the buffer.
    fn poll(&mut self, buf: &mut [u8]) -> DtlsPolled
        requires { 2000 ≤ length buf.old }
        ensures polled { dtls.polled self.old (dtls_drawn result buf.new) self.new }
        ensures short { polled_length result ≤ 2000 };

    ghost laws: { DtlsLaws dtls };
}
