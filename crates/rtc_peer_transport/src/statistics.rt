//! The statistics of a peer: their rounds, and what a poll reports of them.
ghost use Rattle.std.specs.Prelude.{◌≡◌};
ghost use Rattle.rtc_peer_core.specs.Meanings.{meanings};
ghost use Rattle.rtc_peer_transport.specs.Statistics.{IsGathered, Reports, ReportsRound, TellsStatistics, TimesStatistics};
ghost use Rattle.rtc_peer_transport.specs.Statistics.{event_of_report as EventOfReport};

use crate::{Event, Met, PolledPeer, close_out_of_memory};
use rtc_config::Stats;
use rtc_parts::{
    Association, CandidatePairStats, CandidateStats, DtlsInstance, IceAgent, Ids, MediaSession,
    StatsEvent, StatsSnapshot,
};
use rtc_peer_core::RtcError;
use rtc_wire::Moment;
use std::alloc::AllocError;

fn event_of_report<E>(report: StatsEvent) -> Event<E>
    ensures { result ≡ EventOfReport report }
{
    match report {
        StatsEvent::Peer(stats) => Event::PeerStats(stats),
        StatsEvent::MediaIngress(stats) => Event::MediaIngressStats(stats),
        StatsEvent::MediaEgress(stats) => Event::MediaEgressStats(stats),
    }
}

fn report_round<M: MediaSession>(
    stats: &mut Stats,
    media: &mut M,
    now: Moment,
    snapshot: &mut StatsSnapshot,
) -> Result<(), AllocError>
    ensures { ReportsRound M.media now snapshot.old stats.old media.old result stats.new media.new }
{
    match media.visit_stats(now, snapshot) {
        Ok(()) => {}
        Err(error) => return Err(error),
    }
    match stats.do_handle_timeout(snapshot) {
        Ok(()) => Ok(()),
        Err(error) => Err(error),
    }
}

fn report<M: MediaSession>(
    stats: &mut Stats,
    media: &mut M,
    now: Moment,
    snapshot: &mut StatsSnapshot,
) -> Result<(), AllocError>
    ensures { Reports M.media now snapshot.old stats.old media.old result stats.new media.new }
{
    if stats.wants_timeout(now) {
        return report_round(stats, media, now, snapshot);
    }
    Ok(())
}

impl<I: IceAgent, D: DtlsInstance, S: Association, M: MediaSession, N: Ids> PolledPeer<
    I,
    D,
    S,
    M,
    N,
> {
    /// Reports the next report.
    #[tactic(auto, unfolding(crate::specs::Statistics::TellsStatistics))]
    pub fn tell_statistics(&mut self) -> Met<M::E>
        ensures { TellsStatistics self.old result self.new }
    {
        match &mut self.transport.stats {
            None => Met::Nothing,
            Some(stats) => match stats.poll_output() {
                None => Met::Nothing,
                Some(report) => Met::Event(event_of_report(report)),
            },
        }
    }

    fn gather(&self, now: Moment) -> StatsSnapshot
        ensures { IsGathered (meanings I.ice D.dtls S.association M.media N.ids) now self.now result }
    {
        let mut snapshot = StatsSnapshot::new(self.core.alloc, now);
        snapshot.peer_tx = self.transport.sent;
        snapshot.peer_rx = self.transport.received;
        match self.transport.send_addr {
            None => snapshot,
            Some(sends) => {
                snapshot.selected_candidate_pair = Some(CandidatePairStats {
                    protocol: sends.proto,
                    local: CandidateStats { addr: sends.source },
                    remote: CandidateStats {
                        addr: sends.destination,
                    },
                    current_round_trip_time: self.core.ice.pair_rtt(),
                    total_round_trip_time: self.core.ice.pair_total_rtt(),
                    responses_received: self.core.ice.pair_responses(),
                });
                snapshot
            }
        }
    }

    /// Gives the statistics a moment: if a round is due, it is gathered, and its reports are queued.
    #[tactic(auto, unfolding(crate::specs::Statistics::TimesStatistics))]
    pub fn time_statistics(&mut self, now: Moment) -> Result<(), RtcError>
        ensures { TimesStatistics (meanings I.ice D.dtls S.association M.media N.ids) now self.old result self.new }
    {
        let mut gathered = self.gather(now);
        match &mut self.transport.stats {
            None => Ok(()),
            Some(stats) => match report(stats, &mut self.core.media, now, &mut gathered) {
                Ok(()) => Ok(()),
                Err(_) => Err(close_out_of_memory(&mut self.core.phase)),
            },
        }
    }
}
