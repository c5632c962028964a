//! Lines of steps.
ghost use Rattle.std.specs.Prelude.{IfOk, IfSome, IfNone, map};
ghost use Rattle.rtc_script.specs.Lines.{AreStepWords, IsLine};
ghost use Rattle.rtc_run_history.specs.declared.step.Step.{Step};

use crate::acts::read_act;
use crate::{cut_words, read_side};
use rtc_run_history::Step;
use std::alloc::{AllocError, Global};

/// The step that the words of a line name, if they are the words of one.
pub fn read_step_words(alloc: Global, words: &[&[u8]]) -> Result<Option<Step>, AllocError>
    ensures some { IfOk result (λ read. IfSome read (λ step. AreStepWords (map (λ word. word.now) words.now) step)) }
    ensures none { IfOk result (λ read. IfNone read ((step : Step) → AreStepWords (map (λ word. word.now) words.now) step → ⊥)) }
{
    let [side, verb, rest @ ..] = words else {
        return Ok(None);
    };
    let Some(at) = read_side(side) else {
        return Ok(None);
    };
    read_act(alloc, at, verb, rest)
}

/// The step that a line without its LF names, if it is the line of one.
pub fn read_step(alloc: Global, line: &[u8]) -> Result<Option<Step>, AllocError>
    ensures some { IfOk result (λ read. IfSome read (λ step. IsLine line.now step)) }
    ensures none { IfOk result (λ read. IfNone read ((step : Step) → IsLine line.now step → ⊥)) }
{
    let words = cut_words(alloc, line)?;
    read_step_words(alloc, words.as_slice())
}
