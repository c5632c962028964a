//! States of the connection that ICE makes.
ghost use Rattle.std.specs.Prelude.{◌≡◌};
ghost use Rattle.rtc_parts.specs.IceConnectionState.{state_is_connected};

/// The progress of ICE (W3C WebRTC, section 5.6.4).
#[derive(Clone, Copy, Debug, PartialEq, Eq)]
pub enum IceConnectionState {
    /// No check was made.
    New,
    /// Checks are made, and no pair of candidates works yet.
    Checking,
    /// A pair works, and others may still be checked.
    Connected,
    /// A pair works, and no other is checked.
    Completed,
    /// No pair works any more.
    Disconnected,
}

impl IceConnectionState {
    /// Whether a pair of candidates works.
    pub fn is_connected(self) -> bool
        ensures { result ≡ state_is_connected self }
    {
        match self {
            IceConnectionState::Connected | IceConnectionState::Completed => true,
            IceConnectionState::New
            | IceConnectionState::Checking
            | IceConnectionState::Disconnected => false,
        }
    }
}
