//! What a script says.
ghost use Rattle.std.specs.Prelude.{◌≡◌};
ghost use Rattle.rtc_script.specs.Settings.{side_settings};

use crate::{Setting, SideSettings};
use rtc_run_history::{Side, Step};
use rtc_wire::{DEFAULT_MAX_BUFFERED_AMOUNT, LOCAL_MAX_MESSAGE_SIZE, Seq};

/// A script that was read.
#[derive(Debug, PartialEq, Eq, Drop)]
pub struct Script {
    pub settings: Seq<(Side, Setting)>,
    pub steps: Seq<Step>,
}

impl Script {
    /// What its settings set a side to.
    pub fn side_settings(&self, at: Side) -> SideSettings
        ensures { result ≡ side_settings at self.now.settings }
    {
        let settings = self.settings.as_slice();
        let mut side = SideSettings {
            lite: false,
            snap: false,
            max_buffered: DEFAULT_MAX_BUFFERED_AMOUNT,
            max_message_size: LOCAL_MAX_MESSAGE_SIZE,
            stats_interval: None,
            polite: None,
        };
        for setting in settings {
            side.take_at(at, setting);
        }
        side
    }
}
