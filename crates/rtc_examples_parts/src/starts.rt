//! Ends that are started, and steps for which there is no call.
use crate::scripts::{Do, L, R, Says, is_played};
use rtc_parts::{AssocError, AssocEvent, Ppi};
use std::alloc::Global;

static STARTS: [(Do, Says); 28] = [
    (Do::Open(L, 0), Says::NoSuch),
    (Do::Write(L, 0, Ppi::Text, b"a"), Says::NoSuch),
    (Do::Close(L, 0), Says::NoSuch),
    (Do::Time(L, 1), Says::NoSuch),
    (Do::Send(L), Says::NoSuch),
    (Do::Give(L, 0, 0), Says::NoSuch),
    (Do::Poll(L), Says::NoSuch),
    (Do::Read(L, 0), Says::NoSuch),
    (Do::Connect(L), Says::Done),
    (Do::Connect(L), Says::NoSuch),
    (Do::Accept(L), Says::NoSuch),
    (Do::Send(L), Says::Packet(Some(0))),
    (Do::Give(R, 0, 0), Says::NoSuch),
    (Do::Accept(R), Says::Done),
    (Do::Give(L, 0, 0), Says::NoSuch),
    (Do::Give(R, 1, 0), Says::NoSuch),
    (Do::Give(R, 0, 0), Says::Done),
    (Do::Poll(R), Says::Event(Some(AssocEvent::Connected))),
    (Do::Poll(R), Says::Event(None)),
    (Do::Send(R), Says::Packet(Some(1))),
    (Do::Give(R, 1, 0), Says::NoSuch),
    (Do::Give(L, 1, 0), Says::Done),
    (Do::Poll(L), Says::Event(Some(AssocEvent::Connected))),
    (Do::Poll(L), Says::Event(None)),
    (Do::Read(L, 0), Says::Refused(AssocError::NoStream)),
    (Do::Close(L, 0), Says::Refused(AssocError::NoStream)),
    (Do::Open(L, 0), Says::Done),
    (Do::Open(L, 0), Says::Refused(AssocError::StreamExists)),
];

/// Whether a script is played as its rules say.
pub fn does_agree(alloc: Global, example: &str) -> bool {
    match example {
        "steps before the start and second starts are no such" => is_played(alloc, &STARTS),
        _ => false,
    }
}
