//! The calls of many lines.
ghost use Rattle.std.specs.Prelude.{◌≡◌, IfOk, IfErr, map};
ghost use Rattle.rtc_gate.specs.GateScript.{HaveCallLines};
ghost use Rattle.rtc_gate.specs.LinesRead.{IsLinesError};
ghost use Rattle.rtc_gate.specs.declared.call_lines.LinesError.TheVariants.{Alloc};

use crate::script_lines::read_line;
use rtc_gate_calls::GateCall;
use std::alloc::{AllocError, AllocFailed, Global};

/// Why lines behind a header are not lines of calls.
#[derive(Clone, Copy, Debug, PartialEq, Eq)]
pub enum LinesError {
    /// The line at this place, counted from 0, is the first that is no call's.
    NotCall(usize),
    Alloc,
}

impl From<AllocError> for LinesError {
    ghost from_gives = { λ _ e. e ≡ Alloc };

    fn from(_error: AllocError) -> LinesError {
        LinesError::Alloc
    }
}

impl<T: Drop> From<AllocFailed<T>> for LinesError {
    ghost from_gives = { λ _ e. e ≡ Alloc };

    fn from(_error: AllocFailed<T>) -> LinesError {
        LinesError::Alloc
    }
}

/// Reads the lines behind a header, one call each.
pub fn read_calls(alloc: Global, lines: &[&[u8]]) -> Result<Vec<GateCall>, LinesError>
    ensures ok { IfOk result (λ calls. HaveCallLines (map (λ line. line.now) lines.now) calls.items) }
    ensures err { IfErr result (λ error. IsLinesError (map (λ line. line.now) lines.now) error) }
{
    let mut calls = Vec::new(alloc);
    for (i, line) in lines.iter().enumerate() {
        let Some(call) = read_line(alloc, line)? else {
            return Err(LinesError::NotCall(i));
        };
        calls.push(call)?;
    }
    Ok(calls)
}
