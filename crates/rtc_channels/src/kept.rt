//! What is kept of channels beside their numbers and streams.
ghost use Rattle.std.specs.Prelude.{◌≡◌, ◌<◌, ◌||◌, IfSome, length};
ghost use Rattle.rtc_channels.specs.Kept.{channels_of, AreAscending, IsLowerBound, place_of_channel, kept_config};
ghost use Rattle.rtc_channels.specs.Channels.{is_of_stream as IsStream, is_claimed as IsClaimed, stream_of_channel};

use rtc_wire::{ChannelConfig, ChannelId};

// What is kept of a channel beside its number and its stream.
#[derive(Debug, Drop)]
pub struct Kept {
    pub negotiated: Option<u16>,
    pub config: Option<ChannelConfig>,
    /// Whether it was confirmed, also once it was opened.
    pub confirmed: bool,
}

fn is_of_stream(stream: u16, own: Option<u16>) -> bool
    ensures { result ≡ IsStream stream own }
{
    match own {
        Some(own) => own == stream,
        None => false,
    }
}

// Whether a channel with this row and what is kept beside it claims a stream.
fn claims(row: &(ChannelId, Option<u16>), own: &Kept, stream: u16) -> bool
    ensures { result ≡ (IsStream stream row.now.1 || IsStream stream own.now.negotiated) }
{
    is_of_stream(stream, row.1) || is_of_stream(stream, own.negotiated)
}

impl Kept {
    /// Keeps what the channel is to be opened with.
    pub fn keep_config(&mut self, config: ChannelConfig)
        ensures { self.new ≡ kept_config config self.old }
    {
        self.config = Some(config);
        self.confirmed = true;
    }
}

/// Whether a stream was given to a channel, or is negotiated out-of-band for one.
pub fn is_claimed(rows: &[(ChannelId, Option<u16>)], kept: &[Kept], stream: u16) -> bool
    requires { length rows.now ≡ length kept.now }
    ensures { result ≡ IsClaimed stream (channels_of rows.now kept.now) }
{
    for (place, row) in rows.iter().enumerate() {
        if claims(row, &kept[place], stream) {
            return true;
        }
    }
    false
}

// The place of the first row with this number or a greater one.
fn lower_bound(rows: &[(ChannelId, Option<u16>)], id: ChannelId) -> usize
    requires { AreAscending rows.now }
    ensures { IsLowerBound id rows.now result }
{
    let mut low = 0usize;
    let mut high = rows.len();
    'search: while low < high {
        let middle = low + (high - low) / 2;
        if rows[middle].0.number() < id.number() {
            low = middle + 1;
        } else {
            high = middle;
        }
    }
    low
}

/// The place of the row of a channel.
pub fn find_place(rows: &[(ChannelId, Option<u16>)], id: ChannelId) -> Option<usize>
    requires { AreAscending rows.now }
    ensures place { result ≡ place_of_channel 0 id rows.now }
    ensures within { IfSome result (λ place. place < length rows.now) }
{
    let place = lower_bound(rows, id);
    if place == rows.len() {
        return None;
    }
    if rows[place].0 == id {
        return Some(place);
    }
    None
}

/// The stream that a channel was given.
pub fn find_stream(rows: &[(ChannelId, Option<u16>)], id: ChannelId) -> Option<u16>
    requires { AreAscending rows.now }
    ensures { result ≡ stream_of_channel id rows.now }
{
    match find_place(rows, id) {
        Some(place) => rows[place].1,
        None => None,
    }
}
