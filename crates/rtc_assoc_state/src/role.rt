//! How an association was started.
ghost use Rattle.std.specs.Prelude.{◌≡◌};
ghost use Rattle.rtc_assoc_state.specs.Contents.{has_role};

/// How an association was started.
#[derive(Clone, Copy, Debug, PartialEq, Eq)]
pub enum Role {
    Unstarted,
    Client,
    Server,
    /// By the initial chunks that the session descriptions carried.
    Snap,
}

impl Role {
    pub fn is_started(self) -> bool
        ensures { result ≡ has_role self }
    {
        match self {
            Role::Unstarted => false,
            Role::Client | Role::Server | Role::Snap => true,
        }
    }
}
