//! Inconsistent session descriptions.
ghost use Rattle.std.specs.Prelude.{Some};
ghost use Rattle.rtc_sdp_values.specs.SdpErrorText as text;

use std::error::Error;
use std::fmt;

/// What is wrong with the BUNDLE group or the mids of a session description (RFC 8843, section 7.1).
#[derive(Clone, Copy, Debug, PartialEq, Eq)]
pub enum Inconsistent {
    NoGroup,
    ManyGroups,
    EmptyGroup,
    /// A mid of the group is that of no line.
    UnknownMid,
    /// A line with a port is outside of the group.
    LineNotInGroup,
    RepeatedMid,
}

impl fmt::Display for Inconsistent {
    ghost output = { λ cause. Some (text.inconsistent_text cause) };

    #[tactic(auto, unfolding(crate::specs::SdpErrorText::inconsistent_text))]
    fn fmt<W: fmt::Write>(&self, f: &mut fmt::Formatter<W>) -> fmt::Result {
        match self {
            Inconsistent::NoGroup => f.write_str("no BUNDLE group"),
            Inconsistent::ManyGroups => f.write_str("several BUNDLE groups"),
            Inconsistent::EmptyGroup => f.write_str("BUNDLE group is empty"),
            Inconsistent::UnknownMid => f.write_str("BUNDLE names an unknown mid"),
            Inconsistent::LineNotInGroup => f.write_str("line is not in the BUNDLE group"),
            Inconsistent::RepeatedMid => f.write_str("mid is repeated"),
        }
    }
}

impl Error for Inconsistent {}
