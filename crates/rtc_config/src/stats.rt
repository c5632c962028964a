//! The statistics of a peer.
ghost use Rattle.std.specs.Prelude.{◌≡◌, ◌∷◌, [], ◌++◌, map, drop, slice_get, Some, None, IfOk, OnOk, OnErr};
ghost use Rattle.std.specs.BTreeMap.{values};
ghost use Rattle.rtc_parts.specs.declared.stats_event.StatsEvent.TheVariants.{MediaIngress, MediaEgress, Peer};
ghost use Rattle.rtc_config.specs.Stats as spec;

use rtc_parts::{MediaEgressStats, MediaIngressStats, PeerStats, StatsEvent, StatsSnapshot};
use rtc_sdp_values::{Mid, Rid};
use rtc_wire::{Moment, Span};
use std::alloc::{AllocError, Global};
use std::collections::{BTreeMap, VecDeque};
use std::marker::Model;
use std::slice;

/// The rounds of statistics that a peer reports, one an interval. The first interval begins at the first moment that it learns.
#[derive(Debug, Drop)]
pub struct Stats {
    interval: Span,
    last: Option<Moment>,
    events: VecDeque<StatsEvent>,
}

impl Model for Stats {
    ghost use Rattle.rtc_config.specs.Stats.{Reporting};

    ghost Value = { Reporting };

    ghost view = { λ stats. record {
      interval = stats.interval;
      last = stats.last;
      events = stats.events.items;
    } };
}

// Puts a report at the end.
fn tell(reports: &mut Vec<StatsEvent>, report: &StatsEvent) -> Result<(), AllocError>
    ensures { OnOk result (reports.new.items ≡ reports.old.items ++ report.now ∷ []) }
{
    reports.extend_from_slice(slice::from_ref(report))
}

// Puts the report on the peer at the end.
fn tell_peer(reports: &mut Vec<StatsEvent>, snapshot: &StatsSnapshot) -> Result<(), AllocError>
    ensures { OnOk result (reports.new.items ≡ reports.old.items ++ Peer (spec.peer_report snapshot.now) ∷ []) }
{
    let report = PeerStats {
        peer_bytes_rx: snapshot.peer_rx,
        peer_bytes_tx: snapshot.peer_tx,
        bytes_rx: snapshot.rx,
        bytes_tx: snapshot.tx,
        timestamp: snapshot.timestamp,
        rtt: snapshot.rtt,
        selected_candidate_pair: snapshot.selected_candidate_pair,
    };
    tell(reports, &StatsEvent::Peer(report))
}

// Puts the reports on what is received at the end.
fn tell_ingress(
    reports: &mut Vec<StatsEvent>,
    ingress: &BTreeMap<(Mid, Option<Rid>), MediaIngressStats>,
) -> Result<(), AllocError>
    ensures { OnOk result (reports.new.items ≡ reports.old.items ++ map MediaIngress (values ingress.now)) }
{
    for report in ingress.values() {
        tell(reports, &StatsEvent::MediaIngress(*report))?;
    }
    Ok(())
}

// Puts the reports on what is sent at the end.
fn tell_egress(
    reports: &mut Vec<StatsEvent>,
    egress: &BTreeMap<(Mid, Option<Rid>), MediaEgressStats>,
) -> Result<(), AllocError>
    ensures { OnOk result (reports.new.items ≡ reports.old.items ++ map MediaEgress (values egress.now)) }
{
    for report in egress.values() {
        tell(reports, &StatsEvent::MediaEgress(*report))?;
    }
    Ok(())
}

// The reports of a snapshot.
fn reports_of(alloc: Global, snapshot: &StatsSnapshot) -> Result<Vec<StatsEvent>, AllocError>
    ensures { IfOk result (λ reports. reports.items ≡ spec.reports_of snapshot.now) }
{
    let mut reports = Vec::new(alloc);
    tell_peer(&mut reports, snapshot)?;
    tell_ingress(&mut reports, &snapshot.ingress)?;
    tell_egress(&mut reports, &snapshot.egress)?;
    Ok(reports)
}

// Whether the next round is due: an interval after the last one, at most at the last of all moments.
fn is_past(interval: Span, last: Moment, now: Moment) -> bool
    ensures { result ≡ spec.is_round_due interval (Some last) now }
{
    last.plus(interval) <= now
}

impl Stats {
    /// No report yet, and no moment known. No memory is taken.
    pub fn new(alloc: Global, interval: Span) -> Stats
        ensures { result ≡ record { interval = interval; last = None; events = [] } }
    {
        Stats {
            interval,
            last: None,
            events: VecDeque::new(alloc),
        }
    }

    /// Whether a round is due. The first call only learns the moment.
    pub fn wants_timeout(&mut self, now: Moment) -> bool
        ensures answer { result ≡ spec.is_round_due self.old.interval self.old.last now }
        ensures state { self.new ≡ record self.old { last = Some (spec.since self.old.last now) } }
    {
        match self.last {
            None => {
                self.last = Some(now);
                false
            }
            Some(last) => is_past(self.interval, last, now),
        }
    }

    /// Queues the reports of a snapshot, whose moment is the last one from then on. If memory runs out, nothing changes.
    pub fn do_handle_timeout(&mut self, s: &mut StatsSnapshot) -> Result<(), AllocError>
        ensures ok { OnOk result (self.new ≡ spec.reported self.old s.old) }
        ensures err { OnErr result (self.new ≡ self.old) }
        ensures snapshot { s.new ≡ s.old }
    {
        let reports = reports_of(*self.events.allocator(), s)?;
        self.events.append(&mut VecDeque::from(reports))?;
        self.last = Some(s.timestamp);
        Ok(())
    }

    /// The moment at which the next round is due, once a moment is known.
    pub fn poll_timeout(&self) -> Option<Moment>
        ensures { result ≡ spec.next_round self.now }
    {
        match self.last {
            None => None,
            Some(last) => Some(last.plus(self.interval)),
        }
    }

    /// The next report.
    pub fn poll_output(&mut self) -> Option<StatsEvent>
        ensures event { result ≡ slice_get self.old.events 0 }
        ensures rest { self.new ≡ record self.old { events = drop 1 self.old.events } }
    {
        self.events.pop_front()
    }
}
