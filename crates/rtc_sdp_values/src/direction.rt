//! Directions of media lines.
ghost use Rattle.std.specs.Prelude.{◌≡◌, ◌⊎◌, IsTrue, ◌↔◌};
ghost use Rattle.rtc_sdp_values.specs.Direction.{inverse_of, does_send, does_receive, same_direction};

use rtc_wire::TryCopy;
use std::alloc::AllocError;

/// Which way media flows, as the holder of the line sees it (RFC 8866, section 6.7).
#[derive(Clone, Copy, Debug, PartialEq, Eq)]
pub enum Direction {
    SendRecv,
    SendOnly,
    RecvOnly,
    Inactive,
}

impl Direction {
    /// The direction as the other end sees it.
    pub fn invert(self) -> Direction
        ensures { result ≡ inverse_of self }
    {
        match self {
            Direction::SendRecv => Direction::SendRecv,
            Direction::SendOnly => Direction::RecvOnly,
            Direction::RecvOnly => Direction::SendOnly,
            Direction::Inactive => Direction::Inactive,
        }
    }

    /// Whether it is the same as another.
    pub fn is_same(self, other: Direction) -> bool
        ensures { result ≡ same_direction self other }
    {
        self.is_sending() == other.is_sending() && self.is_receiving() == other.is_receiving()
    }

    /// Whether the holder sends.
    pub fn is_sending(self) -> bool
        ensures { result ≡ does_send self }
    {
        match self {
            Direction::SendRecv | Direction::SendOnly => true,
            Direction::RecvOnly | Direction::Inactive => false,
        }
    }

    /// Whether the holder receives.
    pub fn is_receiving(self) -> bool
        ensures { result ≡ does_receive self }
    {
        match self {
            Direction::SendRecv | Direction::RecvOnly => true,
            Direction::SendOnly | Direction::Inactive => false,
        }
    }
}

impl TryCopy for Direction {
    fn copy(&self) -> Result<Direction, AllocError> {
        Ok(*self)
    }
}
