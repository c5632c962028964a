//! Refusals.
ghost use Rattle.std.specs.Prelude.{◌≡◌, ◌++◌, OnOk, string_bytes};
ghost use Rattle.rtc_peer_core.specs.RtcErrorText.{rtc_error_text};
ghost use Rattle.rtc_script_reports.specs.Fits.{FitsError};
ghost use Rattle.rtc_script_reports.specs.Outcomes.{refusal_text};

use crate::reading::read_error;
use rtc_peer_core::RtcError;
use std::alloc::AllocError;

/// Puts a word and what an error prints behind a text.
pub fn push_error_text(out: &mut String, word: &str, error: &RtcError) -> Result<(), AllocError>
    ensures { OnOk result (string_bytes out.new ≡ string_bytes out.old ++ word.now ++ rtc_error_text error.now) }
{
    out.push_str(word)?;
    write!(out, "{error}")
}

/// Puts the words of a refusal behind a text: its number, and what the error prints.
pub fn push_refusal(out: &mut String, error: &RtcError) -> Result<(), AllocError>
    ensures text { OnOk result (string_bytes out.new ≡ string_bytes out.old ++ refusal_text error.now) }
    ensures fit { FitsError error.now }
{
    read_error(error);
    match error {
        RtcError::RemoteSdp(_) => push_error_text(out, "refused 1 ", error),
        RtcError::Sdp(_) => push_error_text(out, "refused 2 ", error),
        RtcError::Net(_) => push_error_text(out, "refused 3 ", error),
        RtcError::Dtls(_) => push_error_text(out, "refused 4 ", error),
        RtcError::Sctp(_) => push_error_text(out, "refused 5 ", error),
        RtcError::Media(_) => push_error_text(out, "refused 6 ", error),
        RtcError::ChangesOutOfOrder => push_error_text(out, "refused 7 ", error),
        RtcError::BadChannel => push_error_text(out, "refused 8 ", error),
        RtcError::Alloc => out.push_str("nomemory"),
        RtcError::Glare => push_error_text(out, "refused 10 ", error),
    }
}
