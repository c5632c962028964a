//! Datagrams to be sent.
ghost use Rattle.std.specs.Prelude.{◌≡◌, ℕ, List};

use crate::Bytes;
use std::marker::Model;

/// The bytes of a datagram to be sent. A contract sees them as a list.
#[derive(Debug, PartialEq, Eq, Drop)]
pub struct DatagramSend {
    bytes: Bytes,
}

impl Model for DatagramSend {
    ghost Value = { List ℕ };

    ghost view = { λ datagram. datagram.bytes };

    ghost inverse = { λ bytes. record { bytes = bytes } };
}

impl DatagramSend {
    /// The datagram of these bytes, without a copy.
    pub fn new(bytes: Bytes) -> DatagramSend
        ensures { result ≡ bytes }
    {
        DatagramSend { bytes }
    }

    /// The bytes, lent.
    pub fn as_slice(&self) -> &[u8]
        ensures { result.now ≡ self.now }
    {
        self.bytes.as_slice()
    }
}
