//! Single lines, put behind a text.
ghost use Rattle.std.specs.Prelude.{◌≡◌, ◌++◌, OnOk, string_bytes};
ghost use Rattle.rtc_wire_text.specs.Lines.{crlf};
ghost use Rattle.rtc_sdp_grammar.specs.LineTexts as spec;
ghost use Rattle.rtc_sdp_writer.specs.SessionRows.{enabled_mids};

use rtc_sdp_attributes::put_decimal;
use rtc_sdp_values::{Direction, MediaLine, Mid, Setup};
use std::alloc::AllocError;

#[tactic(auto, unfolding(rtc_sdp_grammar::specs::LineTexts::origin_line))]
pub(crate) fn put_origin(out: &mut String, id: u64) -> Result<(), AllocError>
    ensures { OnOk result (string_bytes out.new ≡ string_bytes out.old ++ crlf (spec.origin_line id)) }
{
    out.push_str("o=str0m ")?;
    put_decimal(out, id)?;
    out.push_str(" 2 IN IP4 0.0.0.0\r\n")
}

/// The BUNDLE group of the lines that are not disabled.
#[tactic(auto, unfolding(rtc_sdp_grammar::specs::LineTexts::group_line))]
pub(crate) fn put_group(out: &mut String, lines: &[MediaLine]) -> Result<(), AllocError>
    ensures { OnOk result (string_bytes out.new ≡ string_bytes out.old ++ crlf (spec.group_line (enabled_mids lines.now))) }
{
    out.push_str("a=group:BUNDLE")?;
    for line in lines {
        if line.disabled {
            continue;
        }
        out.push_str(" ")?;
        out.push_str(line.mid.as_str())?;
    }
    out.push_str("\r\n")
}

#[tactic(auto, unfolding(rtc_sdp_grammar::specs::LineTexts::mid_line))]
pub(crate) fn put_mid(out: &mut String, mid: Mid) -> Result<(), AllocError>
    ensures { OnOk result (string_bytes out.new ≡ string_bytes out.old ++ crlf (spec.mid_line mid)) }
{
    out.push_str("a=mid:")?;
    out.push_str(mid.as_str())?;
    out.push_str("\r\n")
}

#[tactic(auto, unfolding(rtc_sdp_grammar::specs::LineTexts::setup_line))]
pub(crate) fn put_setup(out: &mut String, setup: Setup) -> Result<(), AllocError>
    ensures { OnOk result (string_bytes out.new ≡ string_bytes out.old ++ crlf (spec.setup_line setup)) }
{
    out.push_str(match setup {
        Setup::ActPass => "a=setup:actpass\r\n",
        Setup::Active => "a=setup:active\r\n",
        Setup::Passive => "a=setup:passive\r\n",
    })
}

#[tactic(auto, unfolding(rtc_sdp_grammar::specs::LineTexts::direction_line))]
pub(crate) fn put_direction(out: &mut String, dir: Direction) -> Result<(), AllocError>
    ensures { OnOk result (string_bytes out.new ≡ string_bytes out.old ++ crlf (spec.direction_line dir)) }
{
    out.push_str(match dir {
        Direction::SendRecv => "a=sendrecv\r\n",
        Direction::SendOnly => "a=sendonly\r\n",
        Direction::RecvOnly => "a=recvonly\r\n",
        Direction::Inactive => "a=inactive\r\n",
    })
}
