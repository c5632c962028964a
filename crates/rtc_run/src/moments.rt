//! Moments of steps.
ghost use Rattle.rtc_run_laws.specs.Drains.{HasMoment};

use rtc_run_history::Step;

/// Reads the moment of a step, if it has one: it is of 64 bits, and a contract sees that only where it is read.
pub fn read_moment(step: &Step)
    ensures { HasMoment step.now }
{
    match step {
        Step::Time { now, .. } => {
            let _nanos = now.nanos();
        }
        Step::Datagram { now, .. } => {
            let _nanos = now.nanos();
        }
        Step::Raw { now, .. } => {
            let _nanos = now.nanos();
        }
        Step::Negotiate { .. }
        | Step::AcceptOffer { .. }
        | Step::AcceptAnswer { .. }
        | Step::Poll { .. }
        | Step::Drain { .. }
        | Step::Write { .. }
        | Step::CloseChannel { .. }
        | Step::Close { .. }
        | Step::Rollback { .. }
        | Step::ForeignOffer { .. }
        | Step::ForeignAnswer { .. } => {}
    }
}
