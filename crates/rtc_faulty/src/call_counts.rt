//! Counts of calls.
use crate::CallKind;
use std::cell::Cell;

/// How often calls of each kind were made, up to `u64::MAX`. A test keeps a handle to the counts of a part that a peer
/// owns.
#[derive(Debug, Drop)]
pub struct CallCounts {
    readings: Cell<u64>,
    packets: Cell<u64>,
    timeouts: Cell<u64>,
    polls: Cell<u64>,
    messages: Cell<u64>,
    changes: Cell<u64>,
}

impl CallCounts {
    /// No call was made.
    pub fn new() -> CallCounts {
        CallCounts {
            readings: Cell::new(0),
            packets: Cell::new(0),
            timeouts: Cell::new(0),
            polls: Cell::new(0),
            messages: Cell::new(0),
            changes: Cell::new(0),
        }
    }

    /// How many calls of a kind were made.
    pub fn of(&self, kind: CallKind) -> u64 {
        self.cell(kind).get()
    }

    /// How many calls were made.
    pub fn total(&self) -> u64 {
        self.readings
            .get()
            .saturating_add(self.packets.get())
            .saturating_add(self.timeouts.get())
            .saturating_add(self.polls.get())
            .saturating_add(self.messages.get())
            .saturating_add(self.changes.get())
    }

    /// One more call of a kind.
    pub(crate) fn add(&self, kind: CallKind) {
        let cell = self.cell(kind);
        cell.set(cell.get().saturating_add(1));
    }

    fn cell(&self, kind: CallKind) -> &Cell<u64> {
        match kind {
            CallKind::Reading => &self.readings,
            CallKind::Packet => &self.packets,
            CallKind::Timeout => &self.timeouts,
            CallKind::Poll => &self.polls,
            CallKind::Message => &self.messages,
            CallKind::Change => &self.changes,
        }
    }
}
