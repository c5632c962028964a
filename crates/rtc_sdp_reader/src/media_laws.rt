//! What is written is read back: laws over the definitions, which take no time at all.
ghost use Rattle.std.specs.Prelude.{◌≡◌, List, Option};
ghost use Rattle.std.specs.List.{AllByRecursion};
ghost use Rattle.rtc_sdp_values.specs.declared.payload_row.PayloadRow.{PayloadRow};
ghost use Rattle.rtc_sdp_values.specs.declared.simulcast.Simulcast.{Simulcast};
ghost use Rattle.rtc_sdp_values.specs.declared.ssrc.Ssrc.{Ssrc};
ghost use Rattle.rtc_sdp_reader.specs.Layers.{simulcast_value as layers_with_pairs};
ghost use Rattle.rtc_sdp_reader.specs.Payloads.{payload_rows as rows_with_links};
ghost use Rattle.rtc_sdp_reader.specs.PlainLayers.{rid_lines, listed, AreNamesApart};
ghost use Rattle.rtc_sdp_reader.specs.PlainSources.{numbers_of, source_pairs, AreNumbersApart};
ghost use Rattle.rtc_sdp_reader.specs.Sources.{sources as sources_with_pairs};
ghost use Rattle.rtc_sdp_reader.specs.PlainPayloads.{formats_of, codecs_of, fmtps_of, IsPlainPayload, AreApart};

/// Payload rows are read back from the list, the codecs and the parameters that are written for them.
pub fn payload_rows_read_back()
    ensures { (rows : List PayloadRow) → AllByRecursion IsPlainPayload rows → AreApart rows
        → rows_with_links (formats_of rows) (codecs_of rows) (fmtps_of rows) ≡ rows }
{}

/// Layers are read back from the lists and the pairs that are written for them.
pub fn layers_read_back()
    ensures { (simulcast : Simulcast) → AreNamesApart simulcast → layers_with_pairs (rid_lines simulcast) (listed simulcast) ≡ simulcast }
{}

/// SSRCs are read back from the names and pairs that are written for them.
pub fn sources_read_back()
    ensures { (sources : List (Ssrc × Option Ssrc)) → AreNumbersApart sources
        → sources_with_pairs (numbers_of sources) (source_pairs sources) ≡ sources }
{}
