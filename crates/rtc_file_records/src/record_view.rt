//! Records, lent by the messages that they are read in.
ghost use Rattle.std.specs.Prelude.{◌≡◌, ◌+◌, ◌≤◌, length, option_map, slice_index, slice_range, IfSome, MatchOption, true, false};
ghost use Rattle.std.specs.Str.{is_utf8};
ghost use Rattle.std.specs.Int.{w16, w64, from_be_bytes};
ghost use Rattle.rtc_file_records.specs.Records.{IsRecord, record_in, begin_record_in, piece_record_in, end_record_in, resume_record_in};
ghost use Rattle.rtc_file_records.specs.RecordView.{record_of};

use crate::file_record::{BEGIN, END, PIECE, PIECE_LIMIT, RESUME};
use std::str;

/// A record, lent by the message that it is read in.
#[derive(Clone, Copy)]
pub enum RecordView<'a> {
    Begin { name: &'a str, total: u64 },
    Piece { offset: u64, bytes: &'a [u8] },
    End { total: u64, digest: [u8; 32] },
    Resume { offset: u64 },
}

fn u16_at(bytes: &[u8], at: usize) -> u16
    requires { at + 2 ≤ length bytes.now }
    ensures { result ≡ from_be_bytes w16 (slice_range bytes.now at (at + 2)) }
{
    let field = &bytes[at..at + 2];
    u16::from_be_bytes([field[0], field[1]])
}

fn u64_at(bytes: &[u8], at: usize) -> u64
    requires { at + 8 ≤ length bytes.now }
    ensures { result ≡ from_be_bytes w64 (slice_range bytes.now at (at + 8)) }
{
    let field = &bytes[at..at + 8];
    u64::from_be_bytes([
        field[0], field[1], field[2], field[3], field[4], field[5], field[6], field[7],
    ])
}

fn text_of(bytes: &[u8]) -> Option<&str>
    ensures { MatchOption result (is_utf8 bytes.now ≡ false) (λ text. (is_utf8 bytes.now ≡ true) × (text.now ≡ bytes.now)) }
{
    match str::from_utf8(bytes) {
        Ok(text) => Some(text),
        Err(_) => None,
    }
}

#[tactic(auto, unfolding(crate::specs::Records::begin_record_in))]
fn read_begin(bytes: &[u8]) -> Option<RecordView<'_>>
    requires { slice_index bytes.now 0 ≡ 1 }
    ensures read { option_map record_of result ≡ begin_record_in bytes.now }
    ensures is { IfSome result (λ view. IsRecord bytes.now (record_of view)) }
{
    if bytes.len() < 11 {
        return None;
    }
    let name_end = 3 + u16_at(bytes, 1) as usize;
    if bytes.len() != name_end + 8 {
        return None;
    }
    let Some(name) = text_of(&bytes[3..name_end]) else {
        return None;
    };
    Some(RecordView::Begin {
        name,
        total: u64_at(bytes, name_end),
    })
}

#[tactic(auto, unfolding(crate::specs::Records::piece_record_in))]
fn read_piece(bytes: &[u8]) -> Option<RecordView<'_>>
    requires { slice_index bytes.now 0 ≡ 2 }
    ensures read { option_map record_of result ≡ piece_record_in bytes.now }
    ensures is { IfSome result (λ view. IsRecord bytes.now (record_of view)) }
{
    if bytes.len() < 10 || bytes.len() > 9 + PIECE_LIMIT {
        return None;
    }
    Some(RecordView::Piece {
        offset: u64_at(bytes, 1),
        bytes: &bytes[9..],
    })
}

#[tactic(auto, unfolding(crate::specs::Records::end_record_in))]
fn read_end(bytes: &[u8]) -> Option<RecordView<'_>>
    requires { slice_index bytes.now 0 ≡ 3 }
    ensures read { option_map record_of result ≡ end_record_in bytes.now }
    ensures is { IfSome result (λ view. IsRecord bytes.now (record_of view)) }
{
    if bytes.len() != 41 {
        return None;
    }
    let mut digest = [0u8; 32];
    digest.copy_from_slice(&bytes[9..]);
    Some(RecordView::End {
        total: u64_at(bytes, 1),
        digest,
    })
}

#[tactic(auto, unfolding(crate::specs::Records::resume_record_in))]
fn read_resume(bytes: &[u8]) -> Option<RecordView<'_>>
    requires { slice_index bytes.now 0 ≡ 4 }
    ensures read { option_map record_of result ≡ resume_record_in bytes.now }
    ensures is { IfSome result (λ view. IsRecord bytes.now (record_of view)) }
{
    if bytes.len() != 9 {
        return None;
    }
    Some(RecordView::Resume {
        offset: u64_at(bytes, 1),
    })
}

impl<'a> RecordView<'a> {
    /// The record that a message is; None if it is none.
    #[tactic(auto, unfolding(crate::specs::Records::record_in))]
    pub fn read(bytes: &'a [u8]) -> Option<RecordView<'a>>
        ensures read { option_map record_of result ≡ record_in bytes.now }
        ensures is { IfSome result (λ view. IsRecord bytes.now (record_of view)) }
    {
        if bytes.is_empty() {
            return None;
        }
        match bytes[0] {
            BEGIN => read_begin(bytes),
            PIECE => read_piece(bytes),
            END => read_end(bytes),
            RESUME => read_resume(bytes),
            _ => None,
        }
    }
}
