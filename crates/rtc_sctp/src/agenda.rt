//! What a poll of streams has to look at.
ghost use Rattle.std.specs.Prelude.{◌≡◌, ◌≢◌, ℕ, true, false, not, ◌||◌};
ghost use Rattle.rtc_sctp_values.specs.StreamIds.{has_id};
ghost use Rattle.rtc_sctp_entries.specs.StreamLaws.{is_nothing_met};
ghost use Rattle.rtc_sctp_entries.specs.Entries.{is_closed_state as IsClosedState};
ghost use Rattle.rtc_sctp.specs.Rest.{is_done as IsDone};

use crate::StreamEntryState;
use rtc_sctp_entries::Met;
use rtc_sctp_entries::entries::is_closed_state;
use rtc_sctp_values::StreamSet;

/// The streams that the next poll looks at.
#[derive(Debug, Drop)]
pub struct Agenda {
    /// The streams that may have something to do.
    pub streams: StreamSet,
    /// The streams of which something may not be acknowledged.
    pub buffered: StreamSet,
    // From which id on the next of these is looked at.
    place: usize,
    /// Whether there may be closed entries.
    pub closed: bool,
}

fn is_nothing(met: &Met) -> bool
    ensures { result ≡ is_nothing_met met.now }
{
    match met {
        Met::Nothing => true,
        Met::Again => false,
        Met::Output(_) => false,
        Met::OutOfMemory => false,
    }
}

// Whether a stream has nothing more to do behind a visit that met this.
fn is_done(state: StreamEntryState, met: &Met) -> bool
    ensures { result ≡ IsDone state met.now }
{
    match state {
        StreamEntryState::AwaitOpen => false,
        StreamEntryState::AwaitConfig => is_nothing(met),
        StreamEntryState::AwaitDcepAck => is_nothing(met),
        StreamEntryState::Open => is_nothing(met),
        StreamEntryState::Closed => true,
    }
}

impl Agenda {
    /// Nothing to look at.
    pub fn new() -> Agenda
        ensures streams { (id : ℕ) → has_id id result.streams ≡ false }
        ensures closed { result.closed ≡ false }
    {
        Agenda {
            streams: StreamSet::new(),
            buffered: StreamSet::new(),
            place: 0,
            closed: false,
        }
    }

    /// A stream may have something to do, and something of it may not be acknowledged.
    pub fn note(&mut self, id: u16)
        ensures here { has_id id self.new.streams ≡ true }
        ensures others { (other : ℕ) → other ≢ id → has_id other self.new.streams ≡ has_id other self.old.streams }
        ensures buffered { has_id id self.new.buffered ≡ true }
        ensures apart { (other : ℕ) → other ≢ id → has_id other self.new.buffered ≡ has_id other self.old.buffered }
        ensures closed { self.new.closed ≡ self.old.closed }
    {
        self.streams.put(id, true);
        self.buffered.put(id, true);
    }

    /// A stream has no entry.
    pub fn forget(&mut self, id: u16)
        ensures here { has_id id self.new.streams ≡ false }
        ensures others { (other : ℕ) → other ≢ id → has_id other self.new.streams ≡ has_id other self.old.streams }
        ensures apart { (other : ℕ) → other ≢ id → has_id other self.new.buffered ≡ has_id other self.old.buffered }
        ensures closed { self.new.closed ≡ self.old.closed }
    {
        self.streams.put(id, false);
        self.buffered.put(id, false);
    }

    /// Keeps whether something of a stream may not be acknowledged.
    pub fn count(&mut self, id: u16, some: bool)
        ensures here { has_id id self.new.buffered ≡ some }
        ensures apart { (other : ℕ) → other ≢ id → has_id other self.new.buffered ≡ has_id other self.old.buffered }
        ensures streams { self.new.streams ≡ self.old.streams }
        ensures closed { self.new.closed ≡ self.old.closed }
    {
        self.buffered.put(id, some);
    }

    /// The next stream, in turn, of which something may not be acknowledged.
    pub fn next_buffered(&mut self) -> Option<u16>
        ensures streams { self.new.streams ≡ self.old.streams }
        ensures buffered { self.new.buffered ≡ self.old.buffered }
        ensures closed { self.new.closed ≡ self.old.closed }
    {
        let next = self.buffered.next(self.place);
        match next {
            None => self.place = 0,
            Some(id) => self.place = id as usize + 1,
        }
        next
    }

    /// A stream was visited, which left its entry in this state. `some` is whether something of it may not be acknowledged.
    pub fn settle(&mut self, id: u16, state: StreamEntryState, met: &Met, some: bool)
        requires { has_id id self.old.streams ≡ true }
        ensures here { has_id id self.new.streams ≡ not (IsDone state met.now) }
        ensures others { (other : ℕ) → other ≢ id → has_id other self.new.streams ≡ has_id other self.old.streams }
        ensures buffered { has_id id self.new.buffered ≡ some }
        ensures apart { (other : ℕ) → other ≢ id → has_id other self.new.buffered ≡ has_id other self.old.buffered }
        ensures closed { self.new.closed ≡ (self.old.closed || IsClosedState state) }
    {
        if is_done(state, met) {
            self.streams.put(id, false);
        }
        self.buffered.put(id, some);
        self.closed = self.closed || is_closed_state(state);
    }
}
