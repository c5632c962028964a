//! Whole scripts.
ghost use Rattle.std.specs.Prelude.{◌≡◌, ◌-◌, ◌^◌, [], ◌∷◌, ◌++◌, ◌↔◌, IsTrue, IfOk, IfErr, min, map, ◌≤◌, ◌<◌, length};
ghost use Rattle.rtc_run_history.specs.Sizes.{steps_size};
ghost use Rattle.rtc_script.specs.Script.{header, HaveLines, ArePieces, AreRefused, IsScript, IsRefused};
ghost use Rattle.rtc_script.specs.Steps.{IsScriptLinesError};

use crate::settings::read_settings;
use crate::steps::{StepsError, read_steps};
use crate::{Script, ScriptError, cut_lines};
use rtc_wire::Seq;
use std::alloc::Global;

// The number of a line, at most `u32::MAX`.
fn line_number(n: usize) -> u32
    ensures { result ≡ min n (2 ^ 32 - 1) }
{
    n.min(u32::MAX as usize) as u32
}

fn is_header(line: &[u8]) -> bool
    ensures { IsTrue result ↔ (line.now ≡ header) }
{
    line == b"str0m-pair 1".as_slice()
}

// Reads the lines behind a header: settings, and then steps.
fn read_behind(alloc: Global, lines: &[&[u8]]) -> Result<Script, StepsError>
    ensures ok { IfOk result (λ script. HaveLines (map (λ line. line.now) lines.now) script) }
    ensures err { IfErr result (λ error. IsScriptLinesError (map (λ line. line.now) lines.now) error) }
{
    let settings = read_settings(alloc, lines)?;
    let count = settings.len();
    let (_, rest) = lines.split_at(count);
    match read_steps(alloc, rest) {
        Ok(steps) => Ok(Script {
            settings,
            steps: Seq::new(steps),
        }),
        Err(StepsError::NotStep(place)) => Err(StepsError::NotStep(count + place)),
        Err(StepsError::Alloc) => Err(StepsError::Alloc),
    }
}

// Reads the lines of a text; `end` is what is behind the last line feed.
fn read_pieces(alloc: Global, lines: &[&[u8]], end: &[u8]) -> Result<Script, ScriptError>
    ensures some { IfOk result (λ script. ArePieces (map (λ line. line.now) lines.now ++ end.now ∷ []) script) }
    ensures none { IfErr result (λ error. AreRefused (map (λ line. line.now) lines.now ++ end.now ∷ []) error) }
{
    let Some((first, rest)) = lines.split_first() else {
        return Err(ScriptError::Line(1));
    };
    if !is_header(first) {
        return Err(ScriptError::Line(1));
    }
    let script = match read_behind(alloc, rest) {
        Ok(script) => script,
        Err(StepsError::NotStep(place)) => return Err(ScriptError::Line(line_number(place + 2))),
        Err(StepsError::Alloc) => return Err(ScriptError::Alloc),
    };
    if !end.is_empty() {
        return Err(ScriptError::Line(line_number(rest.len() + 2)));
    }
    Ok(script)
}

/// Reads a script, or returns the first line that is refused.
pub fn read_script(alloc: Global, bytes: &[u8]) -> Result<Script, ScriptError>
    ensures some { IfOk result (λ script. IsScript bytes.now script) }
    ensures few { length bytes.now ≤ 2 ^ 20 → IfOk result (λ script. steps_size script.steps < 2 ^ 32) }
    ensures none { IfErr result (λ error. IsRefused bytes.now error) }
{
    let pieces = cut_lines(alloc, bytes)?;
    let (end, lines) = pieces.as_slice().split_last().unwrap();
    read_pieces(alloc, lines, end)
}
