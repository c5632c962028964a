//! Changes that a step asks for.
use rtc_sdp_values::{Direction, MediaKind};
use rtc_wire::ChannelConfig;

/// A change of a peer's lines and channels that a step asks for.
#[derive(Debug, PartialEq, Eq, Drop)]
pub enum Op {
    AddMedia { kind: MediaKind, dir: Direction },
    /// Sets the direction of the media line at a place, counted from 0.
    SetDirection { place: u32, dir: Direction },
    /// Stops the media line at a place for good.
    StopMedia { place: u32 },
    /// Adds a data channel, and the m-line of data channels if there is none.
    AddChannel { config: ChannelConfig },
    /// Restarts ICE, with new credentials, and with the local candidates kept or dropped.
    IceRestart { keep: bool },
}
