//! Transport protocols.

/// The protocol that a datagram or a candidate uses.
#[derive(Clone, Copy, Debug, PartialEq, Eq)]
pub enum Protocol {
    Udp,
    Tcp,
    SslTcp,
    Tls,
}
