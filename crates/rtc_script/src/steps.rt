//! The steps of many lines.
ghost use Rattle.std.specs.Prelude.{◌≡◌, IfOk, IfErr, map};
ghost use Rattle.rtc_script.specs.Script.{HaveSteps};
ghost use Rattle.rtc_script.specs.Steps.{IsStepsError};
ghost use Rattle.rtc_script.specs.declared.steps.StepsError.TheVariants.{Alloc};

use crate::lines::read_step;
use rtc_run_history::Step;
use std::alloc::{AllocError, AllocFailed, Global};

/// Why lines behind a header are not lines of steps.
#[derive(Clone, Copy)]
pub enum StepsError {
    /// The line at this place, counted from 0, is the first that is no step's.
    NotStep(usize),
    Alloc,
}

impl From<AllocError> for StepsError {
    ghost from_gives = { λ _ e. e ≡ Alloc };

    fn from(_error: AllocError) -> StepsError {
        StepsError::Alloc
    }
}

impl<T: Drop> From<AllocFailed<T>> for StepsError {
    ghost from_gives = { λ _ e. e ≡ Alloc };

    fn from(_error: AllocFailed<T>) -> StepsError {
        StepsError::Alloc
    }
}

/// Reads the lines behind a header, one step each.
pub fn read_steps(alloc: Global, lines: &[&[u8]]) -> Result<Vec<Step>, StepsError>
    ensures ok { IfOk result (λ steps. HaveSteps (map (λ line. line.now) lines.now) steps.items) }
    ensures err { IfErr result (λ error. IsStepsError (map (λ line. line.now) lines.now) error) }
{
    let mut steps = Vec::new(alloc);
    for (i, line) in lines.iter().enumerate() {
        let Some(step) = read_step(alloc, line)? else {
            return Err(StepsError::NotStep(i));
        };
        steps.push(step)?;
    }
    Ok(steps)
}
