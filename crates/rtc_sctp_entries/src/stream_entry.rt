//! A stream in use.
use crate::{BufferedThresholdConfig, StreamEntryState};
use rtc_wire::{ChannelConfig, Moment};

/// A stream that is in use or is to be opened.
#[derive(Debug, Drop)]
pub struct StreamEntry {
    pub id: u16,
    pub state: StreamEntryState,
    /// What its channel is opened with; None until the open message of the other end was received.
    pub config: Option<ChannelConfig>,
    /// Whether it is to be closed.
    pub marked: bool,
    pub threshold: BufferedThresholdConfig,
    /// When its opening was first refused, if it is tried again.
    pub refused: Option<Moment>,
    /// The generation of the stream in which its channel was announced or acknowledged; None before, and if the channel
    /// was negotiated out-of-band.
    pub generation: Option<u64>,
}
