//! Steps that a room takes.
ghost use Rattle.std.specs.Prelude.{◌≤◌, ◌<◌, ◌^◌, IfSome};
ghost use Rattle.rtc_run_history.specs.Sizes.{step_size};
ghost use Rattle.rtc_room_laws.specs.RoomSizes.{room_size, room_step_size};

use rtc_room_laws::RoomStep;
use rtc_run_history::{Op, Side, Step};
use rtc_wire::{Bytes, ChannelConfig, ChannelId, Moment, Seq, Text};
use std::alloc::{AllocError, Global};
use std::marker::Model;

// No room takes more.
const MOST: usize = 1_000_000;

/// Steps of a room, from the first on. All happens at moment 0.
#[derive(Drop)]
pub struct RoomCourse {
    steps: Vec<RoomStep>,
}

impl Model for RoomCourse {
    ghost use Rattle.std.specs.Prelude.{List, ◌≤◌, ◌*◌, length};
    ghost use Rattle.rtc_room_laws.specs.declared.room_step.RoomStep.{RoomStep};
    ghost use Rattle.rtc_room_laws.specs.RoomSizes.{room_size};

    ghost Value = { List RoomStep };

    ghost view = { λ course. course.steps.items };

    ghost invariant = { λ course. room_size course.steps.items ≤ 1024 * length course.steps.items };
}

impl RoomCourse {
    /// No step yet.
    pub fn new(alloc: Global) -> RoomCourse {
        RoomCourse {
            steps: Vec::new(alloc),
        }
    }

    /// All steps, if there are not too many.
    #[tactic(auto, using(crate::proofs::RoomCourseSizes::course_is_small))]
    pub fn all(&self) -> Option<&[RoomStep]>
        ensures { IfSome result (λ steps. room_size steps.now < 2 ^ 32) }
    {
        if self.steps.len() > MOST {
            return None;
        }
        Some(self.steps.as_slice())
    }

    // Puts a step behind the others.
    #[tactic(auto, using(crate::proofs::RoomCourseSizes::pushed_is_small))]
    fn push(&mut self, step: RoomStep) -> Result<(), AllocError>
        requires { room_step_size step ≤ 1024 }
    {
        self.steps.push(step)?;
        Ok(())
    }

    fn perform(&mut self, member: u32, step: Step) -> Result<(), AllocError>
        requires { step_size step ≤ 1024 }
    {
        self.push(RoomStep::Perform { member, step })
    }

    /// A new member joins a room.
    pub fn join(&mut self, room: u32) -> Result<(), AllocError> {
        self.push(RoomStep::Join { room })
    }

    // A member offers a channel with a label of one letter.
    fn offer(&mut self, alloc: Global, member: u32) -> Result<(), AllocError> {
        let mut config = ChannelConfig::new(alloc);
        config.label = Text::from_str(alloc, "a")?;
        let mut ops = Seq::empty(alloc);
        ops.push(Op::AddChannel { config })?;
        self.perform(
            member,
            Step::Negotiate {
                at: Side::Right,
                ops,
                apply: true,
            },
        )
    }

    /// A member offers a channel, and accepts the answer of the hub.
    pub fn negotiate(&mut self, alloc: Global, member: u32) -> Result<(), AllocError> {
        self.offer(alloc, member)?;
        self.perform(
            member,
            Step::AcceptOffer {
                at: Side::Left,
                offer: 0,
            },
        )?;
        self.perform(
            member,
            Step::AcceptAnswer {
                at: Side::Right,
                token: 0,
                answer: 1,
            },
        )
    }

    // A peer of a member's pair is given the moment and polled.
    fn pass(&mut self, member: u32, at: Side) -> Result<(), AllocError> {
        let now = Moment::FAR_PAST;
        self.perform(member, Step::Time { at, now })?;
        self.drain(member, at)
    }

    /// Both peers of a member's pair are given the moment and polled, that of the hub first.
    pub fn turn(&mut self, member: u32) -> Result<(), AllocError> {
        self.pass(member, Side::Left)?;
        self.pass(member, Side::Right)
    }

    /// A peer of a member's pair is polled.
    pub fn drain(&mut self, member: u32, at: Side) -> Result<(), AllocError> {
        self.perform(member, Step::Drain { at })
    }

    /// A member writes a text to its channel.
    pub fn write(&mut self, alloc: Global, member: u32, text: &[u8]) -> Result<(), AllocError> {
        let bytes = Bytes::new(text.to_vec(alloc)?);
        self.perform(
            member,
            Step::Write {
                at: Side::Right,
                channel: ChannelId::new(0),
                binary: false,
                bytes,
            },
        )
    }

    /// A member is given a datagram of the hub.
    pub fn deliver(&mut self, member: u32, packet: u64) -> Result<(), AllocError> {
        let now = Moment::FAR_PAST;
        self.perform(
            member,
            Step::Datagram {
                at: Side::Right,
                packet,
                now,
            },
        )
    }

    /// The hub is given a datagram of a member.
    pub fn arrive(&mut self, member: u32, packet: u64) -> Result<(), AllocError> {
        let now = Moment::FAR_PAST;
        self.push(RoomStep::Arrive {
            member,
            packet,
            now,
        })
    }

    /// What waits for a member is written to its line.
    pub fn forward(&mut self, member: u32) -> Result<(), AllocError> {
        self.push(RoomStep::Forward { member })
    }
}
