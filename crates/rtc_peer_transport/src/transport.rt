//! The connection to the other side.
ghost use Rattle.std.specs.Prelude.{◌≡◌, IfOk};
ghost use Rattle.rtc_peer_transport.specs.Connection.{first_stats as FirstStats, no_transport};

use crate::{Handshake, RecentAddrs, SendAddr};
use rtc_config::Stats;
use rtc_parts::Reason;
use rtc_wire::{Moment, Span};
use std::alloc::{AllocError, Global};

/// What a peer keeps of its connection to the other side, beside its parts.
pub struct Transport {
    /// The address that DTLS and media datagrams are sent to, once ICE nominated a pair.
    pub send_addr: Option<SendAddr>,
    pub discovered: RecentAddrs,
    pub handshake: Handshake,
    /// The moment that the DTLS part asked for when it was polled last; `FAR_FUTURE` before.
    pub dtls_wake: Moment,
    /// Whether the certificate of the other side has to match the fingerprint that it announced.
    pub verifies: bool,
    /// Whether callers send and receive packets in place of samples, so that no writer is lent.
    pub rtp_mode: bool,
    /// The reason of the last timeout that was returned.
    pub last_reason: Reason,
    /// The bytes of the received DTLS, RTP and RTCP datagrams, at most `u64::MAX`.
    pub received: u64,
    /// The bytes of all datagrams that went out, at most `u64::MAX`.
    pub sent: u64,
    /// The statistics, if an interval is set.
    pub stats: Option<Stats>,
}

// Written out, so that the proof of what owns a connection sees one call and not the drop of each field.
impl Drop for Transport {
    fn drop(self) {
        let Transport {
            send_addr: _send_addr,
            discovered: _discovered,
            handshake: _handshake,
            dtls_wake: _dtls_wake,
            verifies: _verifies,
            rtp_mode: _rtp_mode,
            last_reason: _last_reason,
            received: _received,
            sent: _sent,
            stats: _stats,
        } = self;
    }
}

fn first_stats(alloc: Global, interval: Option<Span>) -> Option<Stats>
    ensures { result ≡ FirstStats interval }
{
    match interval {
        None => None,
        Some(interval) => Some(Stats::new(alloc, interval)),
    }
}

impl Transport {
    /// Nothing is known of the other side. Statistics are reported if an interval is given.
    pub fn new(
        alloc: Global,
        verifies: bool,
        rtp_mode: bool,
        interval: Option<Span>,
    ) -> Result<Transport, AllocError>
        ensures { IfOk result (λ made. made ≡ no_transport verifies rtp_mode interval) }
    {
        let discovered = RecentAddrs::new(alloc)?;
        Ok(Transport {
            send_addr: None,
            discovered,
            handshake: Handshake::Pending,
            dtls_wake: Moment::FAR_FUTURE,
            verifies,
            rtp_mode,
            last_reason: Reason::NotHappening,
            received: 0,
            sent: 0,
            stats: first_stats(alloc, interval),
        })
    }
}
