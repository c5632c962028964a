//! What the part returns of its lines.
ghost use Rattle.std.specs.Prelude.{◌≡◌};
ghost use Rattle.std.specs.List.{list_any};
ghost use Rattle.rtc_plain_media.specs.Lines.{Lines as LinesHeld, held_line};
ghost use Rattle.rtc_plain_media.specs.MediaContents.{line_uses, line_has_red, has_red};
ghost use Rattle.rtc_plain_media.specs.SourceCounts.{CountsLines};

use crate::line_key::LineKey;
use crate::lines::Lines;
use crate::source_counts::{SourceCounts, count_of};
use rtc_sdp_values::{Mid, PayloadRow, Ssrc};

/// Whether one of some payload rows has redundancy.
fn any_red(rows: &[PayloadRow]) -> bool
    ensures { result ≡ list_any has_red rows.now }
{
    rows.iter().any(|row| row.red.is_some())
}

/// Whether a line has a payload row with redundancy.
pub fn has_red(lines: &Lines, mid: Mid) -> bool
    ensures { result ≡ line_has_red (held_line mid lines.now.entries) }
{
    match lines.get(&LineKey { mid }) {
        Some(line) => any_red(line.update.payloads.as_slice()),
        None => false,
    }
}

/// Whether some line has an SSRC, by the counts of the lines.
pub fn lines_use(counts: &SourceCounts, ssrc: Ssrc) -> bool
    ensures { (lines : LinesHeld) → CountsLines counts.now lines → result ≡ list_any (line_uses ssrc) lines }
{
    0 < count_of(counts, ssrc.0)
}
