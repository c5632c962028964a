//! STUN messages in datagrams.

/// A STUN message, borrowed from the datagram that it fills.
#[derive(Clone, Copy, Debug, PartialEq, Eq)]
pub struct StunView<'a> {
    pub bytes: &'a [u8],
}
