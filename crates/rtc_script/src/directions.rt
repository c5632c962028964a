//! Words of directions.
ghost use Rattle.std.specs.Prelude.{◌≡◌, ◌≢◌, IfSome, IfNone};
ghost use Rattle.rtc_script.specs.Words.{direction_text};
ghost use Rattle.rtc_sdp_values.specs.declared.direction.Direction.{Direction};

use crate::words::is_word;
use rtc_sdp_values::Direction;

/// The direction whose word it is.
pub fn read_direction(word: &[u8]) -> Option<Direction>
    ensures some { IfSome result (λ dir. word.now ≡ direction_text dir) }
    ensures none { IfNone result ((dir : Direction) → word.now ≢ direction_text dir) }
{
    if is_word(word, "sendrecv") {
        Some(Direction::SendRecv)
    } else if is_word(word, "sendonly") {
        Some(Direction::SendOnly)
    } else if is_word(word, "recvonly") {
        Some(Direction::RecvOnly)
    } else if is_word(word, "inactive") {
        Some(Direction::Inactive)
    } else {
        None
    }
}
