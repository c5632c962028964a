//! The peer that callers hold.
ghost use Rattle.std.specs.Prelude.{◌≡◌, ⊤, [], IfOk, IfSome, slice_get};
ghost use Rattle.std.specs.Borrow.{follows_so, sem};
ghost use Rattle.std.specs.Option.{option_copied};
ghost use Rattle.std.specs.Result.{result_map_both};
ghost use mathlib.Core.Option.{none};
ghost use Rattle.rtc_peer_core.specs.declared.phase.Phase.TheVariants.{Closed};
ghost use Rattle.rtc_peer_core.specs.ChannelRows.{channel_rows};
ghost use Rattle.rtc_peer_core.specs.Built.{AreFresh, Builds};
ghost use Rattle.rtc_peer_core.specs.Formats.{config_formats, AreFormedFormats};
ghost use Rattle.rtc_peer_core.specs.Formed.{AreSdpCreds, IsFormed};
ghost use Rattle.rtc_peer_core.specs.Meanings.{meanings};
ghost use Rattle.rtc_peer_core.specs.Stance.{stance_of};
ghost use Rattle.rtc_peer_transport.specs.Connection.{no_transport};
ghost use Rattle.rtc_ready.specs.Signals.{both};
ghost use Rattle.rtc_peer.specs.contracts.rtc.Rtc.{the_row};
ghost use Rattle.rtc_peer.specs.CachedPeer.{polled_of};
ghost use Rattle.rtc_peer.specs.Readings.{media_row_of, is_alive_phase, AddsLocal, AddsRemote};

use crate::SdpApi;
use crate::waking::wake_all;
use rtc_change::Lines;
use rtc_channels::ChannelRow;
use rtc_config::RtcConfig;
use rtc_lines::{Candidate, LineRow, Mid};
use rtc_parts::{Association, DtlsInstance, IceAgent, Ids, MediaSession};
use rtc_peer_core::Phase;
use rtc_peer_staging::{build_peer, list_channels, show_channel};
use rtc_peer_transport::{PolledPeer, Transport};
use rtc_ready::Readiness;
use rtc_wire::Moment;
use std::alloc::{AllocError, Global};
use std::marker::Model;

// The row of the media line of a mid.
fn media_row(lines: &Lines, mid: Mid) -> Option<&LineRow>
    ensures { option_copied result ≡ media_row_of lines.now mid }
{
    match lines.find(mid) {
        Some(row) => match row {
            LineRow::Media { .. } => Some(row),
            LineRow::App { .. } => None,
        },
        None => None,
    }
}

/// A WebRTC peer over its five parts: an ICE agent, a DTLS part, an SCTP association, a media part and a source of numbers.
///
/// It reads no clock and no socket: moments, offers and answers are arguments of its calls.
pub struct Rtc<I: IceAgent, D: DtlsInstance, S: Association, M: MediaSession, N: Ids> {
    pub(crate) polled: PolledPeer<I, D, S, M, N>,
    /// Whether a walk over the parts may meet something, and whether the timers may have moved.
    pub(crate) readiness: Readiness,
    /// The moment of the last timeout, while the timers have not moved.
    pub(crate) kept: Moment,
}

// Written out, so that the proof of what owns a peer sees one call and not the drop of each part.
impl<
    I: IceAgent + Drop,
    D: DtlsInstance + Drop,
    S: Association + Drop,
    M: MediaSession + Drop,
    N: Ids + Drop,
> Drop for Rtc<I, D, S, M, N> {
    fn drop(self) {
        let Rtc {
            polled: _polled,
            readiness: _readiness,
            kept: _kept,
        } = self;
    }
}

impl<I: IceAgent, D: DtlsInstance, S: Association, M: MediaSession, N: Ids> Model
    for Rtc<I, D, S, M, N> {
    ghost use Rattle.rtc_peer_core.specs.Meanings.{meanings};
    ghost use Rattle.rtc_peer.specs.CachedPeer.{CachedPeer};
    ghost use Rattle.rtc_peer.specs.PeerSignals.{AreSignals};

    ghost Value = { CachedPeer I D S M N };

    ghost view = { λ rtc. record {
      core = rtc.polled.core;
      transport = rtc.polled.transport;
      signals = rtc.readiness;
      kept = rtc.kept;
    } };

    // What is known while a signal is off.
    ghost invariant = { λ rtc. AreSignals (meanings I.ice D.dtls S.association M.media N.ids) rtc.polled rtc.readiness rtc.kept };
}

impl<
    I: IceAgent + Drop,
    D: DtlsInstance + Drop,
    S: Association + Drop,
    M: MediaSession + Drop,
    N: Ids + Drop,
> Rtc<I, D, S, M, N> {
    /// The peer of a config over five fresh parts. It draws its session number, and credentials and certificate if none
    /// are set. The other side's certificate has to match the fingerprint that it announces, unless the config says
    /// otherwise.
    pub fn build(
        alloc: Global,
        config: RtcConfig,
        start: Moment,
        ice: I,
        dtls: D,
        association: S,
        media: M,
        ids: N,
    ) -> Result<Rtc<I, D, S, M, N>, AllocError>
        requires fresh { AreFresh (meanings I.ice D.dtls S.association M.media N.ids) ice dtls association media }
        ensures built { IfOk result (λ rtc. Builds (meanings I.ice D.dtls S.association M.media N.ids)
            alloc config start ice dtls association media ids rtc.core) }
        ensures unconnected { IfOk result (λ rtc. rtc.transport
            ≡ no_transport config.dtls.fingerprint_verification config.media.rtp_mode config.stats_interval) }
        ensures awake { IfOk result (λ rtc. rtc.signals ≡ both) }
        ensures formed { IfOk result (λ rtc. IfSome config.ice.credentials AreSdpCreds → AreFormedFormats (config_formats config)
            → IsFormed (stance_of (meanings I.ice D.dtls S.association M.media N.ids) rtc.core)) }
    {
        let verifies = config.fingerprint_verification();
        let rtp_mode = config.rtp_mode();
        let transport = Transport::new(alloc, verifies, rtp_mode, config.stats_interval())?;
        let core = build_peer(alloc, config, start, ice, dtls, association, media, ids)?;
        let _session = core.session_id;
        let _most = core.sctp.local_max_message_size();
        Ok(Rtc {
            polled: PolledPeer { core, transport },
            readiness: Readiness::armed(),
            kept: Moment::FAR_FUTURE,
        })
    }
}

impl<I: IceAgent, D: DtlsInstance, S: Association, M: MediaSession, N: Ids> Rtc<I, D, S, M, N> {
    /// A handle on the negotiation. What was staged before and not applied is dropped.
    pub fn sdp_api(&mut self) -> SdpApi<'_, I, D, S, M, N>
        ensures same_reference { result.rtc.ghost_name ≡ self.entry.ghost_name }
        ensures peer { result.rtc.now.core ≡ record self.old.core { staged = []; undo = [] } }
        ensures connection { result.rtc.now.transport ≡ self.old.transport }
    {
        wake_all(&mut self.readiness);
        self.polled.core.staged.clear();
        self.polled.core.undo.clear();
        SdpApi { rtc: self }
    }

    /// The rows, by place; they are a table.
    pub fn lines(&self) -> &Lines
        ensures { result.now ≡ self.now.core.lines }
    {
        &self.polled.core.lines
    }

    /// The rows of the data channels, in order of their numbers.
    pub fn channels(&self) -> Result<Vec<ChannelRow>, AllocError>
        ensures { IfOk result (λ rows. rows.items ≡ channel_rows S.association self.now.core.sctp self.now.core.channels) }
    {
        list_channels(&self.polled.core)
    }

    /// The row of the data channel at a place of `channels`, from 0.
    pub fn channel_row(&self, k: usize) -> Option<ChannelRow>
        ensures { result ≡ slice_get (channel_rows S.association self.now.core.sctp self.now.core.channels) k }
    {
        show_channel(&self.polled.core, k)
    }

    /// The row of the media line of a mid.
    pub fn media(&self, mid: Mid) -> Option<&LineRow>
        ensures { option_copied result ≡ media_row_of self.now.core.lines mid }
    {
        media_row(&self.polled.core.lines, mid)
    }

    /// Whether the peer is not closed.
    pub fn is_alive(&self) -> bool
        ensures { result ≡ is_alive_phase self.now.core.phase }
    {
        match self.polled.core.phase {
            Phase::Alive | Phase::Closing => true,
            Phase::Closed => false,
        }
    }

    /// Closes the peer at once, without a word to the other side.
    pub fn disconnect(&mut self)
        ensures closed { self.new.core ≡ record self.old.core { phase = Closed } }
        ensures connection { self.new.transport ≡ self.old.transport }
    {
        wake_all(&mut self.readiness);
        self.polled.core.phase = Phase::Closed;
    }

    /// Gives the ICE agent an address of this side, which offers and answers carry from then on. It returns the candidate if
    /// it was taken: an agent may have it already.
    pub fn add_local_candidate(
        &mut self,
        candidate: Candidate,
    ) -> Result<Option<&Candidate>, AllocError>
        ensures* added { sem 𝓛 (follows_so
            (the_row I.row D.row S.row M.row N.row M.E.row M.Rx.row M.Tx.row M.Writer.row
            (record { ice = I.ice }) (record { stun = I.stun }) D.DtlsInstance S.Association M.MediaSession M.E.MediaEvent N.Ids)
            (the_row I.row D.row S.row M.row N.row M.E.row M.Rx.row M.Tx.row M.Writer.row
            (record { ice = I.ice }) (record { stun = I.stun }) D.DtlsInstance S.Association M.MediaSession M.E.MediaEvent N.Ids)
            self.entry.ghost_name none (λ _ _. ⊤)
            (λ peer. AddsLocal I.ice (polled_of self.old) candidate
            (result_map_both (λ found. option_copied found) (λ e. e) result) (polled_of peer))) }
    {
        wake_all(&mut self.readiness);
        if self.polled.core.ice.add_local_candidate(candidate)? {
            Ok(self.polled.core.ice.local_candidates().last())
        } else {
            Ok(None)
        }
    }

    /// Gives the ICE agent an address of the other side that was signalled apart from an offer or an answer (RFC 8838).
    pub fn add_remote_candidate(&mut self, candidate: Candidate) -> Result<(), AllocError>
        ensures added { AddsRemote I.ice self.old.core.ice candidate result self.new.core.ice }
        ensures others { self.new.core ≡ record self.old.core { ice = self.new.core.ice } }
        ensures connection { self.new.transport ≡ self.old.transport }
    {
        wake_all(&mut self.readiness);
        let _taken = self.polled.core.ice.add_remote_candidate(candidate)?;
        Ok(())
    }
}
