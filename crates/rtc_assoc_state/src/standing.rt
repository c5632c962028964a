//! The state of an association.
ghost use Rattle.std.specs.Prelude.{◌≡◌};
ghost use Rattle.rtc_assoc_state.specs.Contents.{waits};

use crate::role::Role;

/// The state of an association between its start and its end.
#[derive(Clone, Copy, Debug, PartialEq, Eq)]
pub struct Standing {
    pub role: Role,
    /// The other end accepted.
    pub connected: bool,
    /// This end shut down.
    pub shut: bool,
    /// The other end shut down.
    pub lost: bool,
}

impl Standing {
    /// Whether a client waits for its answer.
    pub fn waits(&self) -> bool
        ensures { result ≡ waits self.now }
    {
        match self.role {
            Role::Client => !self.connected,
            Role::Unstarted | Role::Server | Role::Snap => false,
        }
    }
}
