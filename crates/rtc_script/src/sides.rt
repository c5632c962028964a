//! Letters of sides.
ghost use Rattle.std.specs.Prelude.{◌≡◌, ◌≢◌, IfSome, IfNone};
ghost use Rattle.rtc_script.specs.Words.{side_text};
ghost use Rattle.rtc_run_history.specs.declared.side.Side.{Side};

use crate::words::is_word;
use rtc_run_history::Side;

/// The side whose letter a word is.
pub fn read_side(word: &[u8]) -> Option<Side>
    ensures some { IfSome result (λ side. word.now ≡ side_text side) }
    ensures none { IfNone result ((side : Side) → word.now ≢ side_text side) }
{
    if is_word(word, "L") {
        Some(Side::Left)
    } else if is_word(word, "R") {
        Some(Side::Right)
    } else {
        None
    }
}
