//! What input errors say.
use std::fmt;

/// What is wrong with a datagram that has no kind.
#[derive(Clone, Copy, Debug, PartialEq, Eq)]
pub enum IoText {
    EmptyDatagram,
    UnknownDatagram,
}

impl fmt::Display for IoText {
    fn fmt<W: fmt::Write>(&self, f: &mut fmt::Formatter<W>) -> fmt::Result {
        match self {
            IoText::EmptyDatagram => write!(f, "Empty datagram"),
            IoText::UnknownDatagram => write!(f, "Unknown datagram"),
        }
    }
}
