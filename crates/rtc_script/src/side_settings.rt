//! What settings set a side to.
ghost use Rattle.std.specs.Prelude.{◌≡◌, ◌||◌};
ghost use Rattle.rtc_script.specs.Settings.{is_lite_setting, makes_lite, is_snap_setting, allows_snap, buffer_by, max_message_by};
ghost use Rattle.rtc_script.specs.Settings.{interval_by, interval_after, number_after, polite_by, polite_after};

use crate::Setting;
use rtc_run_history::Side;
use rtc_wire::Span;

/// What the settings of a script set a side to.
#[derive(Clone, Copy, Debug, PartialEq, Eq)]
pub struct SideSettings {
    /// Whether its ICE agent only answers checks (RFC 8445, section 2.5).
    pub lite: bool,
    /// Whether its association may be started by session descriptions (draft-hancke-tsvwg-snap).
    pub snap: bool,
    /// How many bytes of its data channels may be buffered.
    pub max_buffered: usize,
    /// The longest message that it takes, in bytes (RFC 8841, section 6.1).
    pub max_message_size: u32,
    /// The time between two rounds of statistics, if they are reported.
    pub stats_interval: Option<Span>,
    /// Its role on glare, if one is set: whether it is the polite one (RFC 3264, section 4).
    pub polite: Option<bool>,
}

impl SideSettings {
    fn take(&mut self, setting: Setting)
        ensures { self.new ≡ record {
          lite = is_lite_setting setting || self.old.lite;
          snap = is_snap_setting setting || self.old.snap;
          max_buffered = buffer_by setting self.old.max_buffered;
          max_message_size = max_message_by setting self.old.max_message_size;
          stats_interval = interval_by setting self.old.stats_interval;
          polite = polite_by setting self.old.polite;
        } }
    {
        match setting {
            Setting::Lite => self.lite = true,
            Setting::Snap => self.snap = true,
            Setting::Buffer(size) => self.max_buffered = size as usize,
            Setting::MaxMessage(size) => self.max_message_size = size,
            Setting::Stats(millis) => self.stats_interval = Some(Span::from_millis(millis)),
            Setting::Polite(polite) => self.polite = Some(polite),
        }
    }

    // A setting counts if it is one of this side.
    pub(crate) fn take_at(&mut self, at: Side, setting: &(Side, Setting))
        ensures { self.new ≡ record {
          lite = makes_lite at setting.now || self.old.lite;
          snap = allows_snap at setting.now || self.old.snap;
          max_buffered = number_after buffer_by at setting.now self.old.max_buffered;
          max_message_size = number_after max_message_by at setting.now self.old.max_message_size;
          stats_interval = interval_after at setting.now self.old.stats_interval;
          polite = polite_after at setting.now self.old.polite;
        } }
    {
        match (setting.0, at) {
            (Side::Left, Side::Left) | (Side::Right, Side::Right) => self.take(setting.1),
            (Side::Left, Side::Right) | (Side::Right, Side::Left) => {}
        }
    }
}
