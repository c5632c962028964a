//! When a peer wants a timeout.
ghost use Rattle.std.specs.Prelude.{◌≡◌};
ghost use Rattle.rtc_peer_core.specs.Meanings.{meanings};
ghost use Rattle.rtc_peer_transport.specs.Deadlines.{sooner as sooner_of, wanted_for, least_deadline};
ghost use Rattle.rtc_peer_transport.specs.Statistics.{stats_wake};

use crate::PolledPeer;
use rtc_config::Stats;
use rtc_parts::{Association, DtlsInstance, IceAgent, Ids, MediaSession, Reason};
use rtc_wire::Moment;

fn sooner(first: (Moment, Reason), other: Option<(Moment, Reason)>) -> (Moment, Reason)
    ensures { result ≡ sooner_of first other }
{
    match other {
        None => first,
        Some(other) => {
            if other.0.nanos() < first.0.nanos() {
                other
            } else {
                first
            }
        }
    }
}

fn wanted(reason: Reason, moment: Option<Moment>) -> Option<(Moment, Reason)>
    ensures { result ≡ wanted_for reason moment }
{
    match moment {
        None => None,
        Some(moment) => Some((moment, reason)),
    }
}

fn stats_deadline(stats: &Option<Stats>) -> Option<Moment>
    ensures { result ≡ stats_wake stats.now }
{
    match stats {
        None => None,
        Some(stats) => stats.poll_timeout(),
    }
}

impl<I: IceAgent, D: DtlsInstance, S: Association, M: MediaSession, N: Ids> PolledPeer<
    I,
    D,
    S,
    M,
    N,
> {
    /// The least deadline, with its reason.
    pub fn least_deadline(&self) -> (Moment, Reason)
        ensures { result ≡ least_deadline (meanings I.ice D.dtls S.association M.media N.ids) self.now }
    {
        let dtls = (self.transport.dtls_wake, Reason::DTLS);
        let ice = wanted(Reason::Ice, self.core.ice.poll_timeout());
        let transport = sooner(sooner(dtls, ice), self.core.media.poll_timeout());
        let streams = wanted(Reason::Sctp, self.core.sctp.poll_timeout());
        let channels = wanted(
            Reason::Channel,
            self.core.channels.poll_timeout(&self.core.sctp),
        );
        let statistics = wanted(Reason::Stats, stats_deadline(&self.transport.stats));
        sooner(sooner(sooner(transport, streams), channels), statistics)
    }
}
