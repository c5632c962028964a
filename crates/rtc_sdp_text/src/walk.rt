//! The place of the walk over the lines of a text.
use rtc_sdp_reader::Place;
use rtc_wire::Seq;

/// The place of the walk over the lines of a text.
#[derive(Drop)]
pub struct Walk {
    /// The place of the next line.
    pub place: Place,
    /// The numbers of the attributes that were seen in its part and count once.
    pub came: Seq<u8>,
    /// How many lines there are up to the one that refuses the text, and it among them.
    pub left: Option<u32>,
}
