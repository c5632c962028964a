//! What the offerer of a round asks for.
ghost use Rattle.std.specs.Prelude.{◌≡◌, ◌++◌, IfOk, OnOk};
ghost use Rattle.rtc_demo.specs.DemoSteps as spec;

use crate::drawn::{direction_numbered, line_added, round_place};
use rtc_run_history::Op;
use rtc_wire::{ChannelConfig, Seq, Text};
use std::alloc::{AllocError, Global};

// A channel that is labelled with the number of its round.
fn round_channel(alloc: Global, round: u32) -> Result<ChannelConfig, AllocError>
    ensures { IfOk result (λ config. config ≡ spec.round_channel round) }
{
    let label = format!(in alloc; "c{round}")?;
    let mut config = ChannelConfig::new(alloc);
    config.label = Text::new(label);
    Ok(config)
}

// Puts what the offerer does besides adding a line behind its ops.
#[tactic(auto, unfolding(crate::specs::DemoSteps::besides))]
fn push_besides(
    alloc: Global,
    ops: &mut Seq<Op>,
    number: u32,
    round: u32,
    z: u32,
) -> Result<(), AllocError>
    ensures { OnOk result (ops.new ≡ ops.old ++ spec.besides number round z) }
{
    if number == 0 {
        return Ok(());
    }
    if number == 1 {
        let place = round_place(z);
        let dir = direction_numbered(z / 16384 % 4);
        return ops.push(Op::SetDirection { place, dir });
    }
    if number == 2 {
        let place = round_place(z);
        return ops.push(Op::StopMedia { place });
    }
    if number == 3 {
        let config = round_channel(alloc, round)?;
        return ops.push(Op::AddChannel { config });
    }
    ops.push(Op::IceRestart { keep: true })
}

/// The ops of a round.
#[tactic(auto, unfolding(crate::specs::DemoSteps::round_ops))]
pub fn round_ops(alloc: Global, round: u32, z: u32) -> Result<Seq<Op>, AllocError>
    ensures { IfOk result (λ ops. ops ≡ spec.round_ops round z) }
{
    let mut ops = Seq::empty(alloc);
    ops.push(line_added(round, z))?;
    push_besides(alloc, &mut ops, z / 16 % 5, round, z)?;
    Ok(ops)
}
