//! Tables that replies show.
use rtc_channels::ChannelRow;
use rtc_sdp_values::LineRow;
use rtc_wire::Seq;

/// The acting peer's lines and channels after a step.
#[derive(Debug, PartialEq, Eq)]
pub struct Table {
    pub lines: Seq<LineRow>,
    pub channels: Seq<ChannelRow>,
}

// Written out, so that the proof of what owns a table sees one call and not the drop of each field.
impl Drop for Table {
    fn drop(self) {
        let Table {
            lines: _lines,
            channels: _channels,
        } = self;
    }
}
