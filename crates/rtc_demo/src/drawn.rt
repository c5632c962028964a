//! What a seed determines of a round.
ghost use Rattle.std.specs.Prelude.{◌≡◌};
ghost use Rattle.rtc_demo.specs.DemoSteps as spec;

use rtc_run_history::{Op, Side};
use rtc_sdp_values::{Direction, MediaKind};

/// The number that determines a round.
#[tactic(auto, unfolding(crate::specs::DemoSteps::scrambled))]
pub fn scrambled(seed: u32, round: u32) -> u32
    ensures { result ≡ spec.scrambled seed round }
{
    seed.wrapping_add(round).wrapping_mul(2_654_435_761)
}

/// The side that offers.
#[tactic(auto, unfolding(crate::specs::DemoSteps::offerer))]
pub fn offerer(z: u32) -> Side
    ensures { result ≡ spec.offerer z }
{
    if z % 2 == 0 { Side::Left } else { Side::Right }
}

/// The direction of a number from 0 to 3.
pub fn direction_numbered(number: u32) -> Direction
    ensures { result ≡ spec.direction_numbered number }
{
    if number == 0 {
        Direction::SendRecv
    } else if number == 1 {
        Direction::SendOnly
    } else if number == 2 {
        Direction::RecvOnly
    } else {
        Direction::Inactive
    }
}

/// The line that a round adds.
#[tactic(auto, unfolding(crate::specs::DemoSteps::line_added))]
pub fn line_added(round: u32, z: u32) -> Op
    ensures { result ≡ spec.line_added round z }
{
    if round == 0 {
        return Op::AddMedia {
            kind: MediaKind::Audio,
            dir: Direction::SendRecv,
        };
    }
    let dir = direction_numbered(z / 4 % 4);
    if z / 2 % 2 == 0 {
        Op::AddMedia {
            kind: MediaKind::Audio,
            dir,
        }
    } else {
        Op::AddMedia {
            kind: MediaKind::Video,
            dir,
        }
    }
}

/// The place at which a round may change a line.
#[tactic(auto, unfolding(crate::specs::DemoSteps::round_place))]
pub fn round_place(z: u32) -> u32
    ensures { result ≡ spec.round_place z }
{
    1 + z / 128 % 100
}
