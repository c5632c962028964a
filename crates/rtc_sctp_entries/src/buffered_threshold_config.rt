//! The threshold of a stream's buffered amount.
ghost use Rattle.std.specs.Prelude.{◌≡◌};
ghost use Rattle.rtc_sctp_entries.specs.Entries.{threshold_set};

/// Below how many unacknowledged bytes a stream reports `BufferedAmountLow`, and whether the association has that threshold.
#[derive(Clone, Copy, Debug, PartialEq, Eq)]
pub enum BufferedThresholdConfig {
    Unconfigured,
    /// The association is to be given this number of bytes.
    Desired(usize),
    /// The association was given this number of bytes.
    Configured(usize),
}

impl BufferedThresholdConfig {
    /// Asks for a threshold of `v` bytes, unless it is asked for already.
    pub fn set(&mut self, v: usize)
        ensures { self.new ≡ threshold_set v self.old }
    {
        match *self {
            BufferedThresholdConfig::Unconfigured => {}
            BufferedThresholdConfig::Desired(own) => {
                if own == v {
                    return;
                }
            }
            BufferedThresholdConfig::Configured(own) => {
                if own == v {
                    return;
                }
            }
        }
        *self = BufferedThresholdConfig::Desired(v);
    }
}
