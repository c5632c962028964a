//! Whole scripts.
ghost use Rattle.std.specs.Prelude.{◌≡◌, ◌-◌, ◌^◌, ◌≤◌, ◌<◌, [], ◌∷◌, ◌++◌, ◌↔◌, IsTrue, IfOk, IfErr, min, map, length};
ghost use Rattle.rtc_room_laws.specs.RoomSizes.{room_size};
ghost use Rattle.rtc_room.specs.RoomScript.{room_header, AreRoomPieces, AreRefusedRoomPieces, IsRoomScript, IsRefusedRoomScript};

use crate::RoomScriptError;
use crate::step_lines::{LinesError, read_room_steps};
use rtc_room_laws::RoomStep;
use rtc_wire::Seq;
use rtc_wire_text::pieces;
use std::alloc::Global;

// The number of a line, at most `u32::MAX`.
fn line_number(n: usize) -> u32
    ensures { result ≡ min n (2 ^ 32 - 1) }
{
    n.min(u32::MAX as usize) as u32
}

fn is_header(line: &[u8]) -> bool
    ensures { IsTrue result ↔ (line.now ≡ room_header) }
{
    line == b"str0m-room 1".as_slice()
}

// Reads the lines of a text; `end` is what is behind the last line feed.
fn read_pieces(alloc: Global, lines: &[&[u8]], end: &[u8]) -> Result<Seq<RoomStep>, RoomScriptError>
    ensures some { IfOk result (λ steps. AreRoomPieces (map (λ line. line.now) lines.now ++ end.now ∷ []) steps) }
    ensures none { IfErr result (λ error. AreRefusedRoomPieces (map (λ line. line.now) lines.now ++ end.now ∷ []) error) }
{
    let Some((first, rest)) = lines.split_first() else {
        return Err(RoomScriptError::Line(1));
    };
    if !is_header(first) {
        return Err(RoomScriptError::Line(1));
    }
    let steps = match read_room_steps(alloc, rest) {
        Ok(steps) => steps,
        Err(LinesError::NotStep(place)) => return Err(RoomScriptError::Line(line_number(
            place + 2,
        ))),
        Err(LinesError::Alloc) => return Err(RoomScriptError::Alloc),
    };
    if !end.is_empty() {
        return Err(RoomScriptError::Line(line_number(rest.len() + 2)));
    }
    Ok(Seq::new(steps))
}

// Cuts a text into its lines and reads them.
fn read_lines(alloc: Global, bytes: &[u8]) -> Result<Seq<RoomStep>, RoomScriptError>
    ensures some { IfOk result (λ steps. IsRoomScript bytes.now steps) }
    ensures none { IfErr result (λ error. IsRefusedRoomScript bytes.now error) }
{
    let pieces = pieces(alloc, bytes)?;
    let (end, lines) = pieces.as_slice().split_last().unwrap();
    read_pieces(alloc, lines, end)
}

/// The steps of a script, or the first line that is refused.
pub fn read_script(alloc: Global, bytes: &[u8]) -> Result<Seq<RoomStep>, RoomScriptError>
    ensures some { IfOk result (λ steps. IsRoomScript bytes.now steps) }
    ensures few { length bytes.now ≤ 2 ^ 20 → IfOk result (λ steps. room_size steps < 2 ^ 32) }
    ensures none { IfErr result (λ error. IsRefusedRoomScript bytes.now error) }
{
    read_lines(alloc, bytes)
}
