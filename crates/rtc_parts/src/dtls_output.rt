//! What a poll of `Dtls` returns.
use crate::SrtpProfile;
use rtc_wire::Moment;

/// What `poll_output` returns, with its bytes in the caller's buffer.
#[derive(Clone, Copy, Debug, PartialEq, Eq)]
pub enum DtlsOutput<'a> {
    Connected,
    KeyingMaterial(&'a [u8], SrtpProfile),
    /// The certificate of the other side, in DER.
    PeerCert(&'a [u8]),
    ApplicationData(&'a [u8]),
    /// Nothing is left. The moment is when `handle_timeout` is wanted.
    Timeout(Moment),
    CloseNotify,
}
