//! The front of a stream.
ghost use Rattle.std.specs.Prelude.{◌≡◌};
ghost use Rattle.rtc_gate_calls.specs.ReadFront.{IsReadFront};

use crate::{FrameExtent, SignalFrame, frame_extent, frame_in};

/// What is at the front of a stream.
#[derive(Debug, Drop)]
pub enum StreamFront<'a> {
    /// Less than a whole frame.
    Unfinished,
    /// No incoming frame.
    Malformed,
    /// A frame, and how many bytes it has with those of its length.
    Arrived(SignalFrame<'a>, usize),
}

/// What is at the front of a stream. The work is in the bytes of one frame, and none if it is not whole.
#[tactic(auto, unfolding(crate::specs::SignalStream::signal_front))]
pub fn read_front(bytes: &[u8]) -> StreamFront<'_>
    ensures { IsReadFront result bytes.now }
{
    match frame_extent(bytes) {
        FrameExtent::Partial => StreamFront::Unfinished,
        FrameExtent::OutOfRange => StreamFront::Malformed,
        FrameExtent::Whole(size) => match frame_in(&bytes[4..size]) {
            Some(frame) => StreamFront::Arrived(frame, size),
            None => StreamFront::Malformed,
        },
    }
}
