//! The state of a peer.
use crate::{Formats, Phase, Staged, Undo};
use rtc_change::Lines;
use rtc_channels::ChannelHandler;
use rtc_parts::{Association, Dtls};
use rtc_sctp::RtcSctp;
use rtc_sdp_values::Fingerprint;
use rtc_wire::Moment;
use std::alloc::Global;

/// The state of a peer. Its fields are public for the crates that work on it; callers hold an `Rtc`.
pub struct Peer<I, D, S: Association, M, N> {
    pub alloc: Global,
    /// The codecs and header extensions that it was built with.
    pub formats: Formats,
    pub lines: Lines,
    /// What is staged and not yet applied.
    pub staged: Staged,
    /// The rows that these changes set or stopped, as they were before.
    pub undo: Undo,
    pub channels: ChannelHandler,
    /// How many offers were made or given, also those refused; it wraps.
    pub counter: u64,
    /// Whether the counter was last raised by an offer of this side whose token was not given yet.
    pub outstanding: bool,
    /// The role on glare, if one is set: whether it is the polite one.
    pub polite: Option<bool>,
    /// The number of the session, of the `o=` line.
    pub session_id: u64,
    pub phase: Phase,
    /// The fingerprint that the other side announced first.
    pub fingerprint: Option<Fingerprint>,
    /// The greatest moment that was given.
    pub greatest: Moment,
    pub ice: I,
    pub dtls: Dtls<D>,
    /// The streams of the data channels, over the association.
    pub sctp: RtcSctp<S>,
    pub media: M,
    pub ids: N,
}

// Written out, so that the proof of what owns a peer sees one call and not the drop of each field.
impl<I: Drop, D: Drop, S: Association + Drop, M: Drop, N: Drop> Drop for Peer<I, D, S, M, N> {
    fn drop(self) {
        let Peer {
            alloc: _alloc,
            formats: _formats,
            lines: _lines,
            staged: _staged,
            undo: _undo,
            channels: _channels,
            counter: _counter,
            outstanding: _outstanding,
            polite: _polite,
            session_id: _session_id,
            phase: _phase,
            fingerprint: _fingerprint,
            greatest: _greatest,
            ice: _ice,
            dtls: _dtls,
            sctp: _sctp,
            media: _media,
            ids: _ids,
        } = self;
    }
}
