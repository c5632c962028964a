//! The text of offers and answers, which have one grammar.
ghost use Rattle.std.specs.Prelude.{◌≡◌, IfOk, Ok, string_bytes};
ghost use Rattle.rtc_sdp_reader.specs.Reading.{reading};
ghost use Rattle.rtc_sdp_writer.specs.AsRead.{as_read};
ghost use Rattle.rtc_sdp_writer.specs.Placeholders.{filled_sdp};
ghost use Rattle.rtc_sdp_writer.specs.Plain.{IsLegible, IsPlain};
ghost use Rattle.rtc_sdp_writer.specs.SessionRows.{written_sdp};

use rtc_sdp_values::Sdp;
use rtc_sdp_writer::{write, write_filled, written_text_reads_again, written_text_reads_back};
use std::alloc::AllocError;

/// A session description as text; that of a legible one reads as it, with the SSRCs that its lines give.
pub(crate) fn sdp_text(sdp: &Sdp) -> Result<String, AllocError>
    ensures text { IfOk result (λ text. string_bytes text ≡ written_sdp sdp.now) }
    ensures read_again { IsLegible sdp.now → IfOk result (λ text. reading (string_bytes text) ≡ Ok (as_read sdp.now)) }
    ensures read_back { IsPlain sdp.now → IfOk result (λ text. reading (string_bytes text) ≡ Ok sdp.now) }
{
    written_text_reads_again();
    written_text_reads_back();
    write(sdp)
}

/// The same with a format in each m-line.
pub(crate) fn filled_text(sdp: &Sdp) -> Result<String, AllocError>
    ensures text { IfOk result (λ text. string_bytes text ≡ filled_sdp sdp.now) }
    ensures read_again { IsLegible sdp.now → IfOk result (λ text. reading (string_bytes text) ≡ Ok (as_read sdp.now)) }
    ensures read_back { IsPlain sdp.now → IfOk result (λ text. reading (string_bytes text) ≡ Ok sdp.now) }
{
    written_text_reads_again();
    written_text_reads_back();
    write_filled(sdp)
}
