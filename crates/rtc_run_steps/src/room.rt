//! Room for a table.
use rtc_channels::ChannelRow;
use rtc_sdp_values::LineRow;

/// Room for a table, made before its peer is called.
#[derive(Drop)]
pub struct Room {
    pub lines: Vec<LineRow>,
    pub channels: Vec<ChannelRow>,
}
