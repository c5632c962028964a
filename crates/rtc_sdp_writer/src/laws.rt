//! The laws of writing and reading.
ghost use Rattle.std.specs.Prelude.{◌≡◌, ℕ, List, Ok};
ghost use Rattle.std.specs.List.{AllByRecursion};
ghost use Rattle.rtc_sdp_values.specs.declared.sdp.Sdp.{Sdp};
ghost use Rattle.rtc_sdp_reader.specs.Reading.{reading};
ghost use Rattle.rtc_sdp_writer.specs.AsRead.{as_read};
ghost use Rattle.rtc_sdp_writer.specs.Placeholders.{filled_sdp};
ghost use Rattle.rtc_sdp_writer.specs.Plain.{IsLegible, IsPlain};
ghost use Rattle.rtc_sdp_writer.specs.ReadLines.{IsReadLine};
ghost use Rattle.rtc_sdp_writer.specs.SessionRows.{written_sdp};

/// The text of a legible value reads as that value with the SSRCs that its lines give, also if SSRCs repeat. So does
/// the text in which each m-line has a format.
pub fn written_text_reads_again()
    ensures written { (sdp : Sdp) → IsLegible sdp → reading (written_sdp sdp) ≡ Ok (as_read sdp) }
    ensures filled { (sdp : Sdp) → IsLegible sdp → reading (filled_sdp sdp) ≡ Ok (as_read sdp) }
{}

/// The text of a plain value reads as that value, and so does the text in which each m-line has a format.
pub fn written_text_reads_back()
    ensures back { (sdp : Sdp) → IsPlain sdp → reading (written_sdp sdp) ≡ Ok sdp }
    ensures filled { (sdp : Sdp) → IsPlain sdp → reading (filled_sdp sdp) ≡ Ok sdp }
    ensures itself { (sdp : Sdp) → IsPlain sdp → as_read sdp ≡ sdp }
{}

/// Each line of a text that is read, whoever wrote it, has a mid that is a short token. Its payload types do not
/// repeat, its extension ids are in range, and its layers have names of their own.
pub fn read_lines_are_plain()
    ensures { (text : List ℕ) (sdp : Sdp) → reading text ≡ Ok sdp → AllByRecursion IsReadLine sdp.lines }
{}
