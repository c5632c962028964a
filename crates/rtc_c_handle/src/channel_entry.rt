//! Rows of channels as C has them.
ghost use Rattle.std.specs.Prelude.{◌≡◌};
ghost use Rattle.rtc_c_handle.specs.Rows.{channel_entry};

use rtc::ChannelRow;

/// What a peer has of a data channel.
#[repr(C)]
#[derive(Clone, Copy, Debug, PartialEq, Eq)]
pub struct ChannelEntry {
    pub id: u64,
    /// How often its stream was reset before.
    pub generation: u64,
    /// Its SCTP stream, if it has one.
    pub stream: u16,
    pub has_stream: bool,
    pub is_open: bool,
}

impl ChannelEntry {
    // The entry of a row.
    pub(crate) fn of_row(row: &ChannelRow) -> ChannelEntry
        ensures { result ≡ channel_entry row.now }
    {
        ChannelEntry {
            id: row.id.number(),
            generation: row.generation,
            stream: row.stream.unwrap_or(0),
            has_stream: row.stream.is_some(),
            is_open: row.is_open,
        }
    }
}
