//! Changes that wait for the next offer.
use rtc::{ChannelConfig, Direction, MediaKind, Mid};

/// A change of the m-lines and channels of a peer that its next offer is to make.
#[derive(Debug, PartialEq, Eq, Drop)]
pub enum WantedChange {
    /// A new media line. The names of its stream and its track are drawn.
    Media(MediaKind, Direction),
    Channel(ChannelConfig),
    Direction(Mid, Direction),
    /// A media line is stopped for good.
    Stop(Mid),
    /// ICE is restarted, with the local candidates kept or dropped.
    Restart(bool),
}
