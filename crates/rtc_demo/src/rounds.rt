//! The steps of a demo.
ghost use Rattle.std.specs.Prelude.{◌≡◌, ◌≤◌, ◌<◌, ◌^◌, ◌++◌, true, IfOk, OnOk};
ghost use Rattle.rtc_run_history.specs.Orderly.{are_orderly};
ghost use Rattle.rtc_run_history.specs.Sides.{other_side};
ghost use Rattle.rtc_run_history.specs.Sizes.{steps_size};
ghost use Rattle.rtc_demo.specs.DemoSteps as spec;

use crate::drawn::{offerer, scrambled};
use crate::ops::round_ops;
use rtc_run_history::{Op, Side, Step};
use rtc_wire::Seq;
use std::alloc::{AllocError, Global};

// The other side.
fn other(at: Side) -> Side
    ensures { result ≡ other_side at }
{
    match at {
        Side::Left => Side::Right,
        Side::Right => Side::Left,
    }
}

// Puts a round behind the steps; so many session descriptions were made before it.
fn push_steps(steps: &mut Seq<Step>, at: Side, ops: Seq<Op>, sdps: u32) -> Result<(), AllocError>
    requires { sdps < 2 ^ 31 }
    ensures { OnOk result (steps.new ≡ steps.old ++ spec.steps_between at ops sdps) }
{
    steps.push(Step::Negotiate {
        at,
        ops,
        apply: true,
    })?;
    steps.push(Step::AcceptOffer {
        at: other(at),
        offer: sdps,
    })?;
    steps.push(Step::AcceptAnswer {
        at,
        token: sdps,
        answer: sdps + 1,
    })
}

// Puts a round behind the steps of those before it.
#[tactic(auto, unfolding(crate::specs::DemoSteps::round_steps))]
fn push_round(alloc: Global, steps: &mut Seq<Step>, seed: u32, round: u32) -> Result<(), AllocError>
    requires { round < 100 }
    ensures { OnOk result (steps.new ≡ steps.old ++ spec.round_steps seed round) }
{
    let z = scrambled(seed, round);
    let ops = round_ops(alloc, round, z)?;
    push_steps(steps, offerer(z), ops, 2 * round)
}

/// The steps of a demo of at most a hundred rounds, which a seed determines.
///
/// Each round is an offer of one side, which adds a line, its acceptance by the other side, and the acceptance of that
/// answer. The offer may also set a direction, stop a line, add a channel or restart ICE.
pub fn demo_steps(alloc: Global, rounds: u32, seed: u32) -> Result<Seq<Step>, AllocError>
    requires { rounds ≤ 100 }
    ensures steps { IfOk result (λ steps. steps ≡ spec.demo_steps rounds seed) }
    ensures orderly { IfOk result (λ steps. are_orderly steps ≡ true) }
    ensures sizes { IfOk result (λ steps. steps_size steps < 2 ^ 32) }
{
    let mut steps = Seq::empty(alloc);
    for round in 0..rounds {
        push_round(alloc, &mut steps, seed, round)?;
    }
    Ok(steps)
}
