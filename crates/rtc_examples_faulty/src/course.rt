//! Steps that two peers go.
ghost use Rattle.std.specs.Prelude.{◌≤◌, ◌<◌, ◌^◌, IfSome};
ghost use Rattle.rtc_run_history.specs.Sizes.{step_size, steps_size};

use rtc_run_history::{Op, Side, Step};
use rtc_wire::{Bytes, ChannelConfig, ChannelId, Moment, Seq, Text};
use std::alloc::{AllocError, Global};
use std::marker::Model;

// No course is longer.
const MOST: usize = 100_000;

/// Steps that are performed from the first on, up to some place.
#[derive(Drop)]
pub struct Course {
    steps: Vec<Step>,
}

impl Model for Course {
    ghost use Rattle.std.specs.Prelude.{List, ◌≤◌, ◌*◌, length};
    ghost use Rattle.rtc_run_history.specs.declared.step.Step.{Step};
    ghost use Rattle.rtc_run_history.specs.Sizes.{steps_size};

    ghost Value = { List Step };

    ghost view = { λ course. course.steps.items };

    ghost invariant = { λ course. steps_size course.steps.items ≤ 2 * length course.steps.items };
}

impl Course {
    /// No step yet.
    pub fn new(alloc: Global) -> Course {
        Course {
            steps: Vec::new(alloc),
        }
    }

    /// All steps.
    pub fn steps(&self) -> &[Step] {
        self.steps.as_slice()
    }

    /// How many steps there are.
    pub fn len(&self) -> usize {
        self.steps.len()
    }

    /// The first so many steps, if there are as many.
    #[tactic(auto, using(crate::proofs::CourseSizes::front_is_small))]
    pub fn front(&self, count: usize) -> Option<&[Step]>
        ensures { IfSome result (λ steps. steps_size steps.now < 2 ^ 32) }
    {
        if self.steps.len() > MOST {
            return None;
        }
        self.steps.as_slice().get(..count)
    }

    // Puts a step behind the others.
    #[tactic(auto, using(crate::proofs::CourseSizes::pushed_is_small))]
    fn push(&mut self, step: Step) -> Result<(), AllocError>
        requires { step_size step ≤ 2 }
    {
        self.steps.push(step)?;
        Ok(())
    }

    /// Left offers a channel with a label of one letter, right answers, and left takes the answer.
    pub fn negotiate(&mut self, alloc: Global) -> Result<(), AllocError> {
        self.offer(alloc, Side::Left)?;
        self.accept_offer(Side::Right, 0)?;
        self.accept_answer(Side::Left, 0, 1)
    }

    /// A side offers a channel with a label of one letter.
    pub fn offer(&mut self, alloc: Global, at: Side) -> Result<(), AllocError> {
        let mut config = ChannelConfig::new(alloc);
        config.label = Text::from_str(alloc, "a")?;
        let mut ops = Seq::empty(alloc);
        ops.push(Op::AddChannel { config })?;
        self.push(Step::Negotiate {
            at,
            ops,
            apply: true,
        })
    }

    /// A side accepts an offer of the other one.
    pub fn accept_offer(&mut self, at: Side, offer: u32) -> Result<(), AllocError> {
        self.push(Step::AcceptOffer { at, offer })
    }

    /// A side accepts the answer to an offer of its own.
    pub fn accept_answer(&mut self, at: Side, token: u32, answer: u32) -> Result<(), AllocError> {
        self.push(Step::AcceptAnswer { at, token, answer })
    }

    /// A side rolls its offer back.
    pub fn roll_back(&mut self, at: Side, token: u32) -> Result<(), AllocError> {
        self.push(Step::Rollback { at, token })
    }

    /// A side is given a moment, and polled up to a timeout.
    pub fn pass(&mut self, at: Side, now: Moment) -> Result<(), AllocError> {
        self.push(Step::Time { at, now })?;
        self.push(Step::Drain { at })
    }

    /// A side is given a datagram of the other one.
    pub fn deliver(&mut self, at: Side, packet: u64, now: Moment) -> Result<(), AllocError> {
        self.push(Step::Datagram { at, packet, now })
    }

    /// A side writes a text to its first channel.
    pub fn write(&mut self, alloc: Global, at: Side, text: &[u8]) -> Result<(), AllocError> {
        let bytes = Bytes::new(text.to_vec(alloc)?);
        self.push(Step::Write {
            at,
            channel: ChannelId::new(0),
            binary: false,
            bytes,
        })
    }

    /// A side closes its first channel.
    pub fn close_channel(&mut self, at: Side) -> Result<(), AllocError> {
        self.push(Step::CloseChannel {
            at,
            channel: ChannelId::new(0),
        })
    }

    /// A side begins to close.
    pub fn close(&mut self, at: Side) -> Result<(), AllocError> {
        self.push(Step::Close { at })
    }
}
