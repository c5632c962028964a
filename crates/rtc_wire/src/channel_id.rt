//! Numbers of channels.
ghost use Rattle.std.specs.Prelude.{◌≡◌, ℕ};

use crate::TryCopy;
use std::alloc::AllocError;
use std::marker::Model;

/// A data channel of a peer, by its number. It is no SCTP stream, which may change and is given later.
#[derive(Clone, Copy, Debug, PartialEq, Eq, Hash)]
pub struct ChannelId(u64);

impl Model for ChannelId {
    ghost Value = { ℕ };

    ghost view = { λ channel. channel.0 };

    ghost inverse = { λ n. record { 0 = n } };
}

impl ChannelId {
    pub fn new(n: u64) -> ChannelId
        ensures { result ≡ n }
    {
        ChannelId(n)
    }

    pub fn number(self) -> u64
        ensures { result ≡ self }
    {
        self.0
    }
}

impl TryCopy for ChannelId {
    fn copy(&self) -> Result<ChannelId, AllocError> {
        Ok(*self)
    }
}
