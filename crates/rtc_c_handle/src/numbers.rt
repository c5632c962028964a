//! What numbers of C stand for.
ghost use Rattle.std.specs.Prelude.{◌≡◌};
ghost use Rattle.rtc_c_handle.specs.Numbers.{direction_number, direction_of_number, kind_number, kind_of_number};
ghost use Rattle.rtc_c_handle.specs.Numbers.{reliability_of_number, state_number};
ghost use Rattle.rtc_plain_ice.specs.Places.{protocol_number};

use rtc::{Direction, IceConnectionState, MediaKind, Protocol, Reliability};

/// Returns the kind of media of a number.
pub(crate) fn kind_of(number: u32) -> Option<MediaKind>
    ensures { result ≡ kind_of_number number }
{
    match number {
        0 => Some(MediaKind::Audio),
        1 => Some(MediaKind::Video),
        _ => None,
    }
}

/// Returns the number of a kind of media.
pub(crate) fn number_of_kind(kind: MediaKind) -> u32
    ensures { result ≡ kind_number kind }
{
    match kind {
        MediaKind::Audio => 0,
        MediaKind::Video => 1,
    }
}

/// Returns the direction of a number.
pub(crate) fn direction_of(number: u32) -> Option<Direction>
    ensures { result ≡ direction_of_number number }
{
    match number {
        0 => Some(Direction::SendRecv),
        1 => Some(Direction::SendOnly),
        2 => Some(Direction::RecvOnly),
        3 => Some(Direction::Inactive),
        _ => None,
    }
}

/// Returns the number of a direction.
pub(crate) fn number_of_direction(dir: Direction) -> u32
    ensures { result ≡ direction_number dir }
{
    match dir {
        Direction::SendRecv => 0,
        Direction::SendOnly => 1,
        Direction::RecvOnly => 2,
        Direction::Inactive => 3,
    }
}

/// Returns the reliability of a number, with its limit.
pub(crate) fn reliability_of(number: u32, limit: u16) -> Option<Reliability>
    ensures { result ≡ reliability_of_number number limit }
{
    match number {
        0 => Some(Reliability::Reliable),
        1 => Some(Reliability::MaxPacketLifetime { lifetime: limit }),
        2 => Some(Reliability::MaxRetransmits { retransmits: limit }),
        _ => None,
    }
}

/// Returns the number of a protocol.
pub(crate) fn number_of_protocol(proto: Protocol) -> u32
    ensures { result ≡ protocol_number proto }
{
    match proto {
        Protocol::Udp => 0,
        Protocol::Tcp => 1,
        Protocol::SslTcp => 2,
        Protocol::Tls => 3,
    }
}

/// Returns the number of a state of ICE.
pub(crate) fn number_of_state(state: IceConnectionState) -> u32
    ensures { result ≡ state_number state }
{
    match state {
        IceConnectionState::New => 0,
        IceConnectionState::Checking => 1,
        IceConnectionState::Connected => 2,
        IceConnectionState::Completed => 3,
        IceConnectionState::Disconnected => 4,
    }
}
