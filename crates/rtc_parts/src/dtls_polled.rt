//! What a poll of a DTLS part returns.
use crate::SrtpProfile;
use rtc_wire::Moment;

/// What `poll` returns. A number is that of the bytes that were written to the front of the buffer.
#[derive(Clone, Copy, Debug, PartialEq, Eq)]
pub enum DtlsPolled {
    /// A packet for the other side.
    Packet(usize),
    /// The handshake is finished.
    Connected,
    /// The keys of media, as exported by the handshake (RFC 5764, section 4.2).
    KeyingMaterial(usize, SrtpProfile),
    /// The certificate of the other side, in DER.
    PeerCert(usize),
    ApplicationData(usize),
    /// Nothing is left. The moment is when `handle_timeout` is wanted.
    Timeout(Moment),
    /// The other side closed the connection (RFC 8446, section 6.1).
    CloseNotify,
}
