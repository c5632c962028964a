//! Words of sides, kinds and directions.
ghost use Rattle.std.specs.Prelude.{◌≡◌};
ghost use Rattle.rtc_script.specs.Words.{direction_text, kind_text, side_text};

use rtc_run_history::Side;
use rtc_sdp_values::{Direction, MediaKind};

/// The letter of a side.
pub fn side_word(side: Side) -> &'static str
    ensures { result.now ≡ side_text side }
{
    match side {
        Side::Left => "L",
        Side::Right => "R",
    }
}

/// The word of a kind of media (RFC 8866, section 5.14).
pub fn kind_word(kind: MediaKind) -> &'static str
    ensures { result.now ≡ kind_text kind }
{
    match kind {
        MediaKind::Audio => "audio",
        MediaKind::Video => "video",
    }
}

/// The word of a direction (RFC 8866, section 6.7).
pub fn direction_word(dir: Direction) -> &'static str
    ensures { result.now ≡ direction_text dir }
{
    match dir {
        Direction::SendRecv => "sendrecv",
        Direction::SendOnly => "sendonly",
        Direction::RecvOnly => "recvonly",
        Direction::Inactive => "inactive",
    }
}
