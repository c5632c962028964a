//! Replies to steps.
ghost use Rattle.std.specs.Prelude.{◌≡◌};
ghost use Rattle.rtc_run_history.specs.Memory.{lacks_memory, outcome_lacks, answers_lack, end_lacks};
ghost use Rattle.rtc_run_history.specs.declared.op_answer.OpAnswer.{OpAnswer};

use crate::{Made, OpAnswer, Outcome, PollEnd, Table};
use rtc_peer_core::RtcError;

/// The reply to a step. `E` are the events of the media part.
#[derive(Debug, PartialEq, Eq, Drop)]
pub struct Reply<E> {
    pub outcome: Outcome<E>,
    /// The acting peer's lines and channels after the step; None exactly if the outcome is `Alloc`.
    pub table: Option<Table>,
}

/// Whether memory ran out in one of the ops.
pub fn do_answers_lack(answers: &[OpAnswer]) -> bool
    ensures { result ≡ answers_lack answers.now }
{
    for answer in answers {
        if answer.is_out_of_memory() {
            return true;
        }
    }
    false
}

fn does_end_lack(end: &PollEnd) -> bool
    ensures { result ≡ end_lacks end.now }
{
    match end {
        PollEnd::Refused(RtcError::Alloc) => true,
        PollEnd::NoRoom => true,
        _ => false,
    }
}

fn does_outcome_lack<E>(outcome: &Outcome<E>) -> bool
    ensures { result ≡ outcome_lacks outcome.now }
{
    match outcome {
        Outcome::Negotiated { answers, made } => *made == Made::Alloc
            || do_answers_lack(answers.as_slice()),
        Outcome::Polled { end, .. } => does_end_lack(end),
        Outcome::Refused(RtcError::Alloc) => true,
        Outcome::Alloc => true,
        _ => false,
    }
}

impl<E> Reply<E> {
    /// Whether it reports that memory ran out: in the step, in one of its operations, or in a poll.
    pub fn is_out_of_memory(&self) -> bool
        ensures { result ≡ lacks_memory self.now }
    {
        does_outcome_lack(&self.outcome)
    }
}
