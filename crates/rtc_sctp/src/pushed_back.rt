//! Packets that were pushed back.
ghost use Rattle.std.specs.Prelude.{◌≡◌, ◌≤◌, All, None, Some, length};
ghost use Rattle.rtc_sctp.specs.Streams.{ArePushedShort};

use rtc_wire::{Bytes, Seq};
use std::marker::Model;

/// Packets that a poll gave and that were pushed back, each short enough for a datagram of DTLS.
#[derive(Drop)]
pub(crate) struct PushedBack {
    packets: Option<Seq<Bytes>>,
}

impl Model for PushedBack {
    ghost use Rattle.std.specs.Prelude.{ℕ, List, Option};
    ghost use Rattle.rtc_sctp.specs.Streams.{ArePushedShort};

    ghost Value = { Option (List (List ℕ)) };

    ghost view = { λ pushed. pushed.packets };

    ghost invariant = { λ pushed. ArePushedShort pushed.packets };
}

impl PushedBack {
    /// No packet was pushed back.
    pub(crate) fn none() -> PushedBack
        ensures { result ≡ None }
    {
        PushedBack { packets: None }
    }

    /// These packets were pushed back.
    pub(crate) fn of(packets: Seq<Bytes>) -> PushedBack
        requires { All (λ packet. length packet ≤ 1900) packets }
        ensures { result ≡ Some packets }
    {
        PushedBack {
            packets: Some(packets),
        }
    }

    /// Passes them on.
    pub(crate) fn take(&mut self) -> Option<Seq<Bytes>>
        ensures given { result ≡ self.old }
        ensures taken { self.new ≡ None }
        ensures short { ArePushedShort result }
    {
        self.packets.take()
    }

    /// Each of them is short.
    pub(crate) fn are_short(&self)
        ensures { ArePushedShort self.now }
    {
        let _none = self.packets.is_none();
    }
}
