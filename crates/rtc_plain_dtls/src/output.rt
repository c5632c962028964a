//! Outputs that are no packets.
ghost use Rattle.std.specs.Prelude.{◌≡◌, ◌≤◌, length, take};
ghost use Rattle.rtc_parts.specs.DtlsDrawn.{dtls_drawn, drawn_bytes, polled_length};
ghost use Rattle.rtc_plain_dtls.specs.Held.{output_drawn, key_bytes};

use crate::short::Short;
use rtc_parts::{DtlsPolled, SrtpProfile};

/// An output that is no packet.
#[derive(Debug, Drop)]
pub enum Output {
    PeerCert(Short),
    /// 56 zero bytes.
    Keying,
    Connected,
    Data(Short),
    Close,
}

/// Writes 56 zero bytes to the front of a buffer.
fn put_key(buf: &mut [u8])
    requires { 2000 ≤ length buf.old }
    ensures { take 56 buf.new ≡ key_bytes }
{
    buf[..56].copy_from_slice(&[0; 56]);
}

impl Output {
    /// Writes its bytes to the front of a buffer.
    pub fn show(&self, buf: &mut [u8]) -> DtlsPolled
        requires { 2000 ≤ length buf.old }
        ensures drawn { dtls_drawn result buf.new ≡ output_drawn self.now }
        ensures short { polled_length result ≤ 2000 }
        ensures short_bytes { length (drawn_bytes (output_drawn self.now)) ≤ 2000 }
    {
        match self {
            Output::PeerCert(cert) => DtlsPolled::PeerCert(cert.put(buf)),
            Output::Keying => {
                put_key(buf);
                DtlsPolled::KeyingMaterial(56, SrtpProfile::AeadAes128Gcm)
            }
            Output::Connected => DtlsPolled::Connected,
            Output::Data(bytes) => DtlsPolled::ApplicationData(bytes.put(buf)),
            Output::Close => DtlsPolled::CloseNotify,
        }
    }
}
