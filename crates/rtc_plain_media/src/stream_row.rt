//! Rows of stream tables.
ghost use Rattle.std.specs.Prelude.{◌≡◌};
ghost use Rattle.rtc_plain_media.specs.Streams.{row_can_renumber, is_ssrc, numbered};

use crate::PlainMark;
use rtc_sdp_values::{Mid, Rid, Ssrc};

/// A stream that is received or sent.
#[derive(Clone, Copy)]
pub struct StreamRow {
    pub ssrc: Ssrc,
    /// The stream of its retransmissions (RFC 4588).
    pub rtx: Option<Ssrc>,
    pub mid: Mid,
    pub rid: Option<Rid>,
    pub mark: PlainMark,
}

/// Whether it is this SSRC.
fn is_ssrc(held: Option<Ssrc>, ssrc: Ssrc) -> bool
    ensures { result ≡ is_ssrc held ssrc }
{
    match held {
        Some(other) => other.0 == ssrc.0,
        None => false,
    }
}

impl StreamRow {
    /// Whether both numbers are new to it.
    pub fn can_renumber(&self, ssrc: Ssrc, rtx: Option<Ssrc>) -> bool
        ensures { result ≡ row_can_renumber ssrc rtx self.now }
    {
        if self.ssrc.0 == ssrc.0 {
            return false;
        }
        match self.rtx {
            None => true,
            Some(held) => !is_ssrc(rtx, held),
        }
    }

    /// The row with other numbers and a mark of its own.
    pub fn numbered(&self, ssrc: Ssrc, rtx: Option<Ssrc>) -> StreamRow
        ensures { result ≡ numbered ssrc rtx (record { count = 0 }) self.now }
    {
        StreamRow {
            ssrc,
            rtx,
            mid: self.mid,
            rid: self.rid,
            mark: PlainMark { count: 0 },
        }
    }
}
