//! Packets that are lost, repeated and out of order.
use crate::scripts::{Do, L, R, Says, is_played};
use rtc_parts::{AssocError, AssocEvent, Ppi};
use std::alloc::Global;

const MESSAGE: &[u8] = b"thirty bytes in three pieces..";

static RESENT: [(Do, Says); 33] = [
    (Do::Connect(L), Says::Done),
    (Do::Accept(R), Says::Done),
    (Do::Send(L), Says::Packet(Some(0))),
    (Do::Give(R, 0, 0), Says::Done),
    (Do::Send(R), Says::Packet(Some(1))),
    (Do::Give(L, 1, 0), Says::Done),
    (Do::Send(L), Says::Packet(None)),
    (Do::Send(R), Says::Packet(None)),
    (Do::Open(L, 0), Says::Done),
    (Do::Write(L, 0, Ppi::Binary, MESSAGE), Says::Wrote(0)),
    (Do::Send(L), Says::Packet(Some(2))),
    (Do::Send(L), Says::Packet(Some(3))),
    (Do::Send(L), Says::Packet(Some(4))),
    (Do::Send(L), Says::Packet(None)),
    (Do::Give(R, 4, 0), Says::Done),
    (Do::Give(R, 2, 0), Says::Done),
    (Do::Give(R, 2, 0), Says::Done),
    (Do::Give(R, 3, 0), Says::Done),
    (Do::Read(R, 0), Says::Message(0, None)),
    (Do::Time(L, 999), Says::Done),
    (Do::Send(L), Says::Packet(None)),
    (Do::Time(L, 1000), Says::Done),
    (Do::Send(L), Says::Packet(Some(5))),
    (Do::Send(L), Says::Packet(Some(6))),
    (Do::Send(L), Says::Packet(Some(7))),
    (Do::Send(L), Says::Packet(None)),
    (Do::Give(R, 5, 1000), Says::Done),
    (Do::Give(R, 6, 1000), Says::Done),
    (Do::Give(R, 7, 1000), Says::Done),
    (
        Do::Read(R, 0),
        Says::Message(0, Some((Ppi::Binary, MESSAGE))),
    ),
    (Do::Read(R, 0), Says::Message(0, None)),
    (Do::Give(R, 4, 1000), Says::Done),
    (Do::Read(R, 0), Says::Message(0, None)),
];

static ORDERED: [(Do, Says); 25] = [
    (Do::Connect(L), Says::Done),
    (Do::Accept(R), Says::Done),
    (Do::Open(L, 1), Says::Done),
    (Do::Open(L, 2), Says::Done),
    (Do::Write(L, 1, Ppi::Text, b"a"), Says::Wrote(0)),
    (Do::Write(L, 2, Ppi::Binary, b""), Says::Wrote(0)),
    (Do::Write(L, 1, Ppi::Text, b"c"), Says::Wrote(0)),
    (Do::Send(L), Says::Packet(Some(0))),
    (Do::Send(L), Says::Packet(Some(1))),
    (Do::Send(L), Says::Packet(Some(2))),
    (Do::Send(L), Says::Packet(Some(3))),
    (Do::Give(R, 3, 0), Says::Done),
    (Do::Give(R, 2, 0), Says::Done),
    (Do::Read(R, 1), Says::Refused(AssocError::NoStream)),
    (Do::Give(R, 1, 0), Says::Done),
    (Do::Give(R, 3, 0), Says::Done),
    (Do::Give(R, 2, 0), Says::Done),
    (Do::Give(R, 2, 0), Says::Done),
    (Do::Read(R, 1), Says::Message(0, Some((Ppi::Text, b"a")))),
    (Do::Read(R, 1), Says::Message(0, None)),
    (Do::Read(R, 2), Says::Message(0, Some((Ppi::Binary, b"")))),
    (Do::Give(R, 3, 0), Says::Done),
    (Do::Read(R, 2), Says::Message(0, None)),
    (Do::Read(R, 1), Says::Message(0, Some((Ppi::Text, b"c")))),
    (Do::Read(R, 1), Says::Message(0, None)),
];

/// Whether a script is played as its rules say.
pub fn does_agree(alloc: Global, example: &str) -> bool {
    match example {
        "three pieces are read once after a resend" => is_played(alloc, &RESENT),
        "messages of two streams keep their order" => is_played(alloc, &ORDERED),
        _ => false,
    }
}
