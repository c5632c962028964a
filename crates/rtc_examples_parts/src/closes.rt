//! Streams that are closed, reset and opened again.
use crate::scripts::{Do, L, R, Says, is_played};
use rtc_parts::{AssocError, AssocEvent, Ppi};
use std::alloc::Global;

// The left end writes and closes, the right end reads and reports it, both are reset, and the right end opens again.
static RESET: [(Do, Says); 44] = [
    (Do::Connect(L), Says::Done),
    (Do::Accept(R), Says::Done),
    (Do::Open(L, 1), Says::Done),
    (Do::Write(L, 1, Ppi::Text, b"one"), Says::Wrote(0)),
    (Do::Close(L, 1), Says::Done),
    (
        Do::Write(L, 1, Ppi::Text, b"late"),
        Says::Refused(AssocError::NoStream),
    ),
    (Do::Close(L, 1), Says::Refused(AssocError::NoStream)),
    (Do::Open(L, 1), Says::Refused(AssocError::StreamExists)),
    (Do::Send(L), Says::Packet(Some(0))),
    (Do::Send(L), Says::Packet(Some(1))),
    (Do::Send(L), Says::Packet(Some(2))),
    (Do::Give(R, 1, 0), Says::Done),
    (Do::Read(R, 1), Says::Message(0, Some((Ppi::Text, b"one")))),
    (Do::Give(R, 2, 0), Says::Done),
    (Do::Poll(R), Says::Event(Some(AssocEvent::Readable(1)))),
    (Do::Poll(R), Says::Event(Some(AssocEvent::Finished(1)))),
    (Do::Poll(R), Says::Event(None)),
    (
        Do::Write(R, 1, Ppi::Text, b"late"),
        Says::Refused(AssocError::NoStream),
    ),
    (Do::Send(R), Says::Packet(Some(3))),
    (Do::Send(R), Says::Packet(Some(4))),
    (Do::Send(R), Says::Packet(Some(5))),
    (Do::Send(R), Says::Packet(None)),
    (Do::Give(L, 4, 0), Says::Done),
    (Do::Poll(L), Says::Event(Some(AssocEvent::Connected))),
    (Do::Poll(L), Says::Event(Some(AssocEvent::Finished(1)))),
    (Do::Poll(L), Says::Event(Some(AssocEvent::ResetComplete(1)))),
    (Do::Poll(L), Says::Event(None)),
    (Do::Give(L, 4, 0), Says::Done),
    (Do::Poll(L), Says::Event(None)),
    (Do::Send(L), Says::Packet(Some(6))),
    (Do::Give(R, 6, 0), Says::Done),
    (Do::Poll(R), Says::Event(Some(AssocEvent::ResetComplete(1)))),
    (Do::Give(R, 6, 0), Says::Done),
    (Do::Poll(R), Says::Event(None)),
    (Do::Read(R, 1), Says::Refused(AssocError::NoStream)),
    (Do::Open(R, 1), Says::Done),
    (Do::Give(R, 1, 0), Says::Done),
    (Do::Read(R, 1), Says::Message(1, None)),
    (Do::Write(R, 1, Ppi::Text, b"two"), Says::Wrote(1)),
    (Do::Send(R), Says::Packet(Some(7))),
    (Do::Send(R), Says::Packet(Some(8))),
    (Do::Give(L, 8, 0), Says::Done),
    (Do::Read(L, 1), Says::Message(1, Some((Ppi::Text, b"two")))),
    (Do::Read(L, 1), Says::Message(1, None)),
];

static UNREAD: [(Do, Says); 24] = [
    (Do::Connect(L), Says::Done),
    (Do::Accept(R), Says::Done),
    (Do::Open(L, 5), Says::Done),
    (Do::Write(L, 5, Ppi::Text, b"unread"), Says::Wrote(0)),
    (Do::Close(L, 5), Says::Done),
    (Do::Send(L), Says::Packet(Some(0))),
    (Do::Send(L), Says::Packet(Some(1))),
    (Do::Send(L), Says::Packet(Some(2))),
    (Do::Give(R, 1, 0), Says::Done),
    (Do::Give(R, 2, 0), Says::Done),
    (Do::Read(R, 5), Says::Message(0, None)),
    (Do::Send(R), Says::Packet(Some(3))),
    (Do::Give(L, 3, 0), Says::Done),
    (Do::Poll(L), Says::Event(None)),
    (Do::Time(L, 1000), Says::Done),
    (Do::Send(L), Says::Packet(Some(4))),
    (Do::Send(L), Says::Packet(Some(5))),
    (Do::Give(R, 5, 1000), Says::Done),
    (Do::Send(R), Says::Packet(Some(6))),
    (Do::Give(L, 6, 1000), Says::Done),
    (Do::Poll(L), Says::Event(Some(AssocEvent::Connected))),
    (Do::Poll(L), Says::Event(Some(AssocEvent::Finished(5)))),
    (Do::Poll(L), Says::Event(Some(AssocEvent::ResetComplete(5)))),
    (Do::Poll(L), Says::Event(None)),
];

/// Whether a script is played as its rules say.
pub fn does_agree(alloc: Global, example: &str) -> bool {
    match example {
        "a stream is reset and opened again" => is_played(alloc, &RESET),
        "unread messages go with the close" => is_played(alloc, &UNREAD),
        _ => false,
    }
}
