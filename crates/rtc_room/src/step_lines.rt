//! The steps of many lines.
ghost use Rattle.std.specs.Prelude.{◌≡◌, IfOk, IfErr, map};
ghost use Rattle.rtc_room.specs.RoomScript.{HaveRoomLines};
ghost use Rattle.rtc_room.specs.LinesRead.{IsRoomLinesError};
ghost use Rattle.rtc_room.specs.declared.step_lines.LinesError.TheVariants.{Alloc};

use crate::step_words::read_room_line;
use rtc_room_laws::RoomStep;
use std::alloc::{AllocError, AllocFailed, Global};

/// Why lines behind a header are not lines of steps.
#[derive(Clone, Copy, Debug, PartialEq, Eq)]
pub enum LinesError {
    /// The line at this place, counted from 0, is the first that is no step's.
    NotStep(usize),
    Alloc,
}

impl From<AllocError> for LinesError {
    ghost from_gives = { λ _ e. e ≡ Alloc };

    fn from(_error: AllocError) -> LinesError {
        LinesError::Alloc
    }
}

impl<T: Drop> From<AllocFailed<T>> for LinesError {
    ghost from_gives = { λ _ e. e ≡ Alloc };

    fn from(_error: AllocFailed<T>) -> LinesError {
        LinesError::Alloc
    }
}

/// Reads the lines behind a header, one step each.
pub fn read_room_steps(alloc: Global, lines: &[&[u8]]) -> Result<Vec<RoomStep>, LinesError>
    ensures ok { IfOk result (λ steps. HaveRoomLines (map (λ line. line.now) lines.now) steps.items) }
    ensures err { IfErr result (λ error. IsRoomLinesError (map (λ line. line.now) lines.now) error) }
{
    let mut steps = Vec::new(alloc);
    for (i, line) in lines.iter().enumerate() {
        let Some(step) = read_room_line(alloc, line)? else {
            return Err(LinesError::NotStep(i));
        };
        steps.push(step)?;
    }
    Ok(steps)
}
