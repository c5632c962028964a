//! The generations of the streams of the plain association, and the identifiers that it reads.
ghost use Rattle.rtc_assoc_state.specs.PlainMeaning.{plain_meaning};
ghost use Rattle.rtc_sctp_laws.specs.StreamMessages.{NamesReadings};
ghost use Rattle.rtc_sctp_laws.specs.GenerationLaws.{GenerationLaws};

/// Streams of the plain association get another generation only by packets. Within a generation a stream that is there
/// stays there, and one that this end closed stays closed; an association that is closing or closed stays so. A reading
/// names an identifier if its number has one (RFC 8831, section 8).
pub fn plain_streams_keep_laws()
    ensures generations { GenerationLaws plain_meaning }
    ensures named { NamesReadings plain_meaning }
{}
