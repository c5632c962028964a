//! What a run shows.
use crate::part::Part;
use rtc_faulty::CallKind;
use rtc_plain::PlainMediaEvent;
use rtc_run_faulty::PartWatches;
use rtc_run_history::Reply;

/// How many calls failed.
#[derive(Clone, Copy)]
pub struct Faults {
    pub dtls: u64,
    /// Those of `handle_timeout` among them.
    pub dtls_timers: u64,
    pub association: u64,
    pub media: u64,
}

impl Faults {
    /// By the counts of calls.
    pub fn seen(watches: &PartWatches) -> Faults {
        Faults {
            dtls: watches.dtls.total_faults(),
            dtls_timers: watches.dtls.faults(CallKind::Timeout),
            association: watches.association.total_faults(),
            media: watches.media.total_faults(),
        }
    }

    /// Those of a part.
    pub fn of(&self, part: Part) -> u64 {
        match part {
            Part::Dtls => self.dtls,
            Part::Association => self.association,
            Part::Media => self.media,
        }
    }

    /// Whether no part failed but one, if that.
    pub fn are_of(&self, part: Part) -> bool {
        match part {
            Part::Dtls => (self.association == 0) & (self.media == 0),
            Part::Association => (self.dtls == 0) & (self.media == 0),
            Part::Media => (self.dtls == 0) & (self.association == 0),
        }
    }

    /// Whether no part failed.
    pub fn are_none(&self) -> bool {
        (self.dtls == 0) & (self.association == 0) & (self.media == 0)
    }
}

/// What a run over parts that fail shows.
#[derive(Drop)]
pub struct Ran {
    pub replies: Vec<Reply<PlainMediaEvent>>,
    /// Whether the left peer is not closed at the end.
    pub is_alive: bool,
    /// Whether the left peer keeps no timeout at the end.
    pub is_awake: bool,
    /// Of the left peer.
    pub faults: Faults,
    /// Of the right peer, whose parts list no call.
    pub others: Faults,
}
