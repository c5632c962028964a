//! M-lines as negotiation reads them.
ghost use Rattle.std.specs.Prelude.{◌≡◌, IfOk, List, ℕ, map};

use crate::bundled::Bundled;
use rtc_sdp_values::{Direction, LineKind, MediaLine, Mid, Sdp};
use std::alloc::{AllocError, Global};

/// What negotiation reads of an m-line.
#[derive(Clone, Copy, Debug, PartialEq, Eq)]
pub struct ParsedLine {
    pub kind: LineKind,
    pub mid: Mid,
    pub dir: Direction,
    /// Its port is 0 and no BUNDLE group names it (RFC 8843, section 7).
    pub rejected: bool,
}

impl ParsedLine {
    ghost use Rattle.rtc_peer_rows.specs.ParsedLines.{parsed_line, parsed_lines};

    fn of(groups: &Bundled<'_>, line: &MediaLine) -> ParsedLine
        ensures { result ≡ parsed_line groups.now line.now }
    {
        let rejected = line.disabled && !groups.names(line.mid);
        ParsedLine {
            kind: line.kind,
            mid: line.mid,
            dir: line.dir,
            rejected,
        }
    }

    /// The lines of a session description.
    pub fn all_of(alloc: Global, sdp: &Sdp) -> Result<Vec<ParsedLine>, AllocError>
        ensures { IfOk result (λ lines. lines.items ≡ parsed_lines sdp.now) }
    {
        let groups = Bundled::of(alloc, sdp)?;
        let mut lines = Vec::new(alloc);
        for line in sdp.lines.as_slice() {
            lines.push(ParsedLine::of(&groups, line))?;
        }
        Ok(lines)
    }
}
