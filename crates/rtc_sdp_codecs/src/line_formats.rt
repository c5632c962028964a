//! The payload rows of a media line.
ghost use Rattle.std.specs.Prelude.{◌≡◌, ◌==◌, ◌&&◌, IfOk, filter, not};
ghost use Rattle.rtc_sdp_codecs.specs.FormedCodecs.{AreFormedRows, AreDistinctNumbers};
ghost use Rattle.rtc_sdp_codecs.specs.LineFormats as spec;

use rtc_sdp_values::{MediaKind, PayloadRow, Pt};
use rtc_wire::TryCopy;
use rtc_wire_text::same_letters;
use std::alloc::{AllocError, Global};

fn is_video_codec(codec: &str) -> bool
    ensures { result ≡ spec.is_video_codec codec.now }
{
    same_letters("VP8", codec)
        || same_letters("H264", codec)
        || same_letters("H265", codec)
        || same_letters("H266", codec)
        || same_letters("VP9", codec)
        || same_letters("AV1", codec)
}

/// The kind of the lines that have a row.
pub fn payload_kind(row: &PayloadRow) -> MediaKind
    ensures { result ≡ spec.payload_kind row.now }
{
    if is_video_codec(row.codec.as_str()) {
        MediaKind::Video
    } else {
        MediaKind::Audio
    }
}

/// The rows of a line of a kind that this side adds (RFC 3264, section 5.1).
pub fn rows_of_kind(
    alloc: Global,
    kind: MediaKind,
    rows: &[PayloadRow],
) -> Result<Vec<PayloadRow>, AllocError>
    ensures rows { IfOk result (λ found. found.items ≡ spec.rows_of_kind kind rows.now) }
    ensures formed { IfOk result (λ found. AreFormedRows rows.now → AreFormedRows found.items) }
{
    let mut found = Vec::new(alloc);
    for row in rows {
        if payload_kind(row) != kind {
            continue;
        }
        let row = row.copy()?;
        found.push(row)?;
    }
    Ok(found)
}

fn is_same_format(row: &PayloadRow, theirs: &PayloadRow) -> bool
    ensures { result ≡ spec.is_same_format row.now theirs.now }
{
    same_letters(row.codec.as_str(), theirs.codec.as_str())
        && row.clock == theirs.clock
        && row.channels == theirs.channels
}

fn number_of_both(ours: Option<Pt>, theirs: Option<Pt>) -> Option<Pt>
    ensures { result ≡ spec.number_of_both ours theirs }
{
    match ours {
        None => None,
        Some(_) => theirs,
    }
}

fn with_numbers_of(theirs: &PayloadRow, row: &PayloadRow) -> Result<PayloadRow, AllocError>
    ensures { IfOk result (λ made. made ≡ spec.with_numbers_of theirs.now row.now) }
{
    let mut made = row.copy()?;
    made.pt = theirs.pt;
    made.rtx = number_of_both(row.rtx, theirs.rtx);
    made.red = number_of_both(row.red, theirs.red);
    Ok(made)
}

fn match_row(remote: &[PayloadRow], row: &PayloadRow) -> Result<Option<PayloadRow>, AllocError>
    ensures { IfOk result (λ found. found ≡ spec.matched_row remote.now row.now) }
{
    for theirs in remote {
        if is_same_format(row, theirs) {
            let made = with_numbers_of(theirs, row)?;
            return Ok(Some(made));
        }
    }
    Ok(None)
}

/// The rows of a line of a kind that the other side sent: those that both have, in this side's order, with the other
/// side's payload types (RFC 3264, section 6.1).
pub fn match_rows(
    alloc: Global,
    kind: MediaKind,
    rows: &[PayloadRow],
    remote: &[PayloadRow],
) -> Result<Vec<PayloadRow>, AllocError>
    ensures rows { IfOk result (λ found. found.items ≡ spec.matched_rows kind rows.now remote.now) }
    ensures formed { IfOk result (λ found. AreFormedRows rows.now → AreDistinctNumbers remote.now → AreFormedRows found.items) }
{
    let mut found = Vec::new(alloc);
    for row in rows {
        if payload_kind(row) != kind {
            continue;
        }
        let Some(made) = match_row(remote, row)? else {
            continue;
        };
        found.push(made)?;
    }
    Ok(found)
}
