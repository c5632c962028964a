//! What becomes of an answer whose rejected lines name the formats that were offered (RFC 3264, section 6).
ghost use Rattle.std.specs.Prelude.{◌≡◌, Ok};
ghost use Rattle.std.specs.List.{AllByRecursion};
ghost use Rattle.rtc_lines.specs.OfferedFormats.{answer_with_offered, HasPlainFormats};
ghost use Rattle.rtc_peer_rows.specs.ParsedLines.{parsed_lines};
ghost use Rattle.rtc_sdp_reader.specs.Reading.{reading};
ghost use Rattle.rtc_sdp_values.specs.declared.sdp.Sdp.{Sdp};
ghost use Rattle.rtc_sdp_writer.specs.AsRead.{as_read};
ghost use Rattle.rtc_sdp_writer.specs.Placeholders.{filled_sdp};
ghost use Rattle.rtc_sdp_writer.specs.Plain.{IsLegible, IsPlain};
ghost use Rattle.rtc_sdp_writer.specs.SessionRows.{written_sdp};

use rtc_sdp_writer::{written_text_reads_again, written_text_reads_back};

/// If an answer is legible, and the formats of the offer are such as are read back, both texts of the answer with the formats
/// that were offered read as it, with the SSRCs that its lines give.
pub fn offered_formats_are_read_again()
    ensures written { (answer offer : Sdp) → IsLegible answer → AllByRecursion HasPlainFormats offer.lines
        → reading (written_sdp (answer_with_offered answer offer)) ≡ Ok (as_read (answer_with_offered answer offer)) }
    ensures filled { (answer offer : Sdp) → IsLegible answer → AllByRecursion HasPlainFormats offer.lines
        → reading (filled_sdp (answer_with_offered answer offer)) ≡ Ok (as_read (answer_with_offered answer offer)) }
{
    written_text_reads_again();
}

/// If the answer is plain, they read as it.
pub fn offered_formats_are_read_back()
    ensures written { (answer offer : Sdp) → IsPlain answer → AllByRecursion HasPlainFormats offer.lines
        → reading (written_sdp (answer_with_offered answer offer)) ≡ Ok (answer_with_offered answer offer) }
    ensures filled { (answer offer : Sdp) → IsPlain answer → AllByRecursion HasPlainFormats offer.lines
        → reading (filled_sdp (answer_with_offered answer offer)) ≡ Ok (answer_with_offered answer offer) }
{
    written_text_reads_back();
}

/// The lines that negotiation reads of such an answer are those of the answer without these formats. The update that a media part gets
/// of a rejected line still has them.
pub fn offered_formats_are_ignored()
    ensures { (answer offer : Sdp) → parsed_lines (answer_with_offered answer offer) ≡ parsed_lines answer }
{}
