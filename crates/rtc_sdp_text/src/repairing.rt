//! Bytes that are not UTF-8.
ghost use Rattle.std.specs.Prelude.{◌≡◌, ◌++◌, IfOk, OnOk, MatchOption, map, true, false, string_bytes};
ghost use Rattle.std.specs.Str.{is_utf8};
ghost use Rattle.rtc_sdp_text.specs.Repair.{piece_in, fed, repaired};

use rtc_wire_text::pieces;
use std::alloc::{AllocError, Global};
use std::str;

/// The bytes as a text, if they are UTF-8.
pub(crate) fn utf8_of(bytes: &[u8]) -> Option<&str>
    ensures { MatchOption result (is_utf8 bytes.now ≡ false) (λ text. (is_utf8 bytes.now ≡ true) × (text.now ≡ bytes.now)) }
{
    match str::from_utf8(bytes) {
        Ok(text) => Some(text),
        Err(_) => None,
    }
}

fn push_piece(text: &mut String, piece: &[u8]) -> Result<(), AllocError>
    ensures { OnOk result (string_bytes text.new ≡ string_bytes text.old ++ piece_in piece.now) }
{
    match utf8_of(piece) {
        Some(piece) => text.push_str(piece),
        None => text.push_str("?"),
    }
}

// Puts pieces behind a text, each with a line feed in front.
fn push_pieces(text: &mut String, pieces: &[&[u8]]) -> Result<(), AllocError>
    ensures { OnOk result (string_bytes text.new ≡ string_bytes text.old ++ fed (map (λ piece. piece.now) pieces.now)) }
{
    for piece in pieces {
        text.push_str("\n")?;
        push_piece(text, piece)?;
    }
    Ok(())
}

/// The bytes with each line that is not UTF-8 as a question mark, which has no form as a line of a session description.
pub fn repair(alloc: Global, bytes: &[u8]) -> Result<String, AllocError>
    ensures { IfOk result (λ text. string_bytes text ≡ repaired bytes.now) }
{
    let mut text = String::new(alloc);
    let pieces = pieces(alloc, bytes)?;
    if let Some((first, rest)) = pieces.as_slice().split_first() {
        push_piece(&mut text, first)?;
        push_pieces(&mut text, rest)?;
    }
    Ok(text)
}
