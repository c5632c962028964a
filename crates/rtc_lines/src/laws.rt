//! What readings say, in the words of their subject.
ghost use Rattle.std.specs.Prelude.{◌≡◌, ℕ, List, length};
ghost use Rattle.rtc_lines.specs.SkippedLines.{HasSkippedLine, with_line_behind};
ghost use Rattle.rtc_sdp_reader.specs.Reading.{reading};

/// A skipped line changes nothing: a text with one reads as the text without it. If a line is refused, the same line
/// is, by its number in its own text.
pub fn skipped_lines_change_nothing()
    ensures { (text other : List ℕ) (front : List (List ℕ)) → HasSkippedLine text other front
        → reading text ≡ with_line_behind (length front) (reading other) }
{}
