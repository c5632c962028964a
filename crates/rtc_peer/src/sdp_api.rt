//! Offers and answers of a peer.
ghost use Rattle.std.specs.Prelude.{◌≡◌, ◌≢◌, IsTrue, ◌↔◌, []};
ghost use Rattle.rtc_peer_core.specs.Acceptances.{AcceptsOffer, AcceptsAnswer};
ghost use Rattle.rtc_peer_core.specs.Calls.{AddsMedia, AddsChannel, StagesRestart, SetsDirection, StopsMedia, Applies};
ghost use Rattle.rtc_peer_core.specs.Meanings.{meanings};
ghost use Rattle.rtc_peer_core.specs.RollingBack.{RollsBack};
ghost use Rattle.rtc_peer.specs.Described.{sdp_of_answer, sdp_of_offer};
ghost use Rattle.rtc_peer.specs.Labelled.{labelled_config};
ghost use Rattle.rtc_peer.specs.WantedLine.{wanted_line};

use crate::Rtc;
use crate::waking::wake_all;
use rtc_change::{Lines, SdpPendingOffer};
use rtc_lines::{Direction, IceCreds, MediaKind, Mid, SdpAnswer, SdpOffer, Simulcast};
use rtc_parts::{Association, DtlsInstance, IceAgent, Ids, MediaSession};
use rtc_peer_core::RtcError;
use rtc_peer_negotiation::{accept_answer, accept_offer, apply_staged, roll_back};
use rtc_peer_staging::{set_direction, stage_channel, stage_media, stage_restart, stop_media};
use rtc_wire::{ChannelConfig, ChannelId, Text};
use std::alloc::AllocError;

/// A handle on the negotiation of a peer.
///
/// Changes are staged on it, and offered together by `apply`. A handle that is dropped offers nothing; what it set or stopped is kept.
#[derive(Drop)]
pub struct SdpApi<'a, I: IceAgent, D: DtlsInstance, S: Association, M: MediaSession, N: Ids> {
    pub(crate) rtc: &'a mut Rtc<I, D, S, M, N>,
}

impl<'a, I: IceAgent, D: DtlsInstance, S: Association, M: MediaSession, N: Ids> SdpApi<
    'a,
    I,
    D,
    S,
    M,
    N,
> {
    /// Accepts an offer of the other side, and returns the answer (RFC 8829, section 5.3).
    ///
    /// A pending offer of this side is invalidated, also if the other offer is refused. On such a glare (RFC 3264,
    /// section 4), an impolite peer refuses the other offer instead, before anything else; this changes nothing and
    /// invalidates nothing.
    pub fn accept_offer(self, offer: SdpOffer) -> Result<SdpAnswer, RtcError>
        ensures accepts { AcceptsOffer (meanings I.ice D.dtls S.association M.media N.ids)
            self.entry.rtc.now.core offer.0 (sdp_of_answer result) self.exit.0.now.core }
        ensures connection { self.exit.0.now.transport ≡ self.entry.rtc.now.transport }
    {
        let rtc = &mut *self.rtc;
        wake_all(&mut rtc.readiness);
        let answer = accept_offer(&mut rtc.polled.core, offer.0)?;
        Ok(SdpAnswer(answer))
    }

    /// Accepts the answer to an offer of this side (RFC 8829, section 5.11). The token is consumed, also if the answer is refused.
    pub fn accept_answer(self, pending: SdpPendingOffer, answer: SdpAnswer) -> Result<(), RtcError>
        ensures accepts { AcceptsAnswer (meanings I.ice D.dtls S.association M.media N.ids)
            self.entry.rtc.now.core pending answer.0 result self.exit.0.now.core }
        ensures connection { self.exit.0.now.transport ≡ self.entry.rtc.now.transport }
    {
        let rtc = &mut *self.rtc;
        wake_all(&mut rtc.readiness);
        accept_answer(&mut rtc.polled.core, pending, answer.0)
    }

    /// Rolls an offer of this side back (RFC 8829, section 5.7). The token is consumed, also if it is refused. Nothing is allocated.
    ///
    /// The lines that were set or stopped for the offer are as they were before, and the channels that were added with
    /// it are gone. What else the offer brought about is kept: which side is controlling, and this side's SNAP INIT
    /// chunk, if one was drawn.
    pub fn rollback(self, pending: SdpPendingOffer) -> Result<(), RtcError>
        ensures rolls_back { RollsBack self.entry.rtc.now.core pending result self.exit.0.now.core }
        ensures connection { self.exit.0.now.transport ≡ self.entry.rtc.now.transport }
    {
        let rtc = &mut *self.rtc;
        wake_all(&mut rtc.readiness);
        roll_back(&mut rtc.polled.core, pending)
    }

    /// Whether something is staged.
    pub fn has_changes(&self) -> bool
        ensures { IsTrue result ↔ (self.now.rtc.now.core.staged ≢ []) }
    {
        let rtc = &*self.rtc;
        !rtc.polled.core.staged.is_empty()
    }

    /// The peer's rows as they are now.
    pub fn lines(&self) -> &Lines
        ensures { result.now ≡ self.now.rtc.now.core.lines }
    {
        self.rtc.lines()
    }

    /// Stages a media line, and returns its mid, which no row and no staged line has.
    ///
    /// Names of streams and tracks keep their token characters, at most 64; a name of which nothing is kept, or that is
    /// not given, is drawn.
    pub fn add_media(
        &mut self,
        kind: MediaKind,
        dir: Direction,
        stream_id: Option<String>,
        track_id: Option<String>,
        simulcast: Option<Simulcast>,
    ) -> Result<Mid, AllocError>
        ensures same_reference { self.new.rtc.ghost_name ≡ self.old.rtc.ghost_name }
        ensures adds { AddsMedia (meanings I.ice D.dtls S.association M.media N.ids) self.old.rtc.now.core
            (wanted_line kind dir stream_id track_id simulcast) result self.new.rtc.now.core }
        ensures connection { self.new.rtc.now.transport ≡ self.old.rtc.now.transport }
    {
        let rtc = &mut *self.rtc;
        wake_all(&mut rtc.readiness);
        stage_media(
            &mut rtc.polled.core,
            kind,
            dir,
            stream_id,
            track_id,
            simulcast,
        )
    }

    /// Stages an ordered, reliable, in-band data channel with a label, and returns its number.
    pub fn add_channel(&mut self, label: String) -> Result<ChannelId, RtcError>
        ensures same_reference { self.new.rtc.ghost_name ≡ self.old.rtc.ghost_name }
        ensures adds { AddsChannel (meanings I.ice D.dtls S.association M.media N.ids)
            self.old.rtc.now.core (labelled_config label) result self.new.rtc.now.core }
        ensures connection { self.new.rtc.now.transport ≡ self.old.rtc.now.transport }
    {
        let rtc = &mut *self.rtc;
        wake_all(&mut rtc.readiness);
        let mut config = ChannelConfig::new(rtc.polled.core.alloc);
        config.label = Text::new(label);
        stage_channel(&mut rtc.polled.core, config)
    }

    /// Stages a data channel, and returns its number, which no channel of the peer had before (RFC 8831, section 6.4).
    ///
    /// The m-line of data channels is staged with it if neither a row nor a staged line is one. A staged channel that
    /// is not offered is kept in the table, waits, and keeps its claim on a stream; one whose offer is rolled back is
    /// removed.
    pub fn add_channel_with_config(&mut self, config: ChannelConfig) -> Result<ChannelId, RtcError>
        ensures same_reference { self.new.rtc.ghost_name ≡ self.old.rtc.ghost_name }
        ensures adds { AddsChannel (meanings I.ice D.dtls S.association M.media N.ids)
            self.old.rtc.now.core config result self.new.rtc.now.core }
        ensures connection { self.new.rtc.now.transport ≡ self.old.rtc.now.transport }
    {
        let rtc = &mut *self.rtc;
        wake_all(&mut rtc.readiness);
        stage_channel(&mut rtc.polled.core, config)
    }

    /// Sets the direction of a live media line, and stages it (RFC 8829, section 4.2.3).
    ///
    /// It acts at once, before anything is applied, and returns whether the line changed, which str0m does not report.
    /// Nothing happens if the line is stopped, already has that direction, carries data channels or does not exist.
    pub fn set_direction(&mut self, mid: Mid, dir: Direction) -> Result<bool, AllocError>
        ensures same_reference { self.new.rtc.ghost_name ≡ self.old.rtc.ghost_name }
        ensures sets { SetsDirection self.old.rtc.now.core mid dir result self.new.rtc.now.core }
        ensures connection { self.new.rtc.now.transport ≡ self.old.rtc.now.transport }
    {
        let rtc = &mut *self.rtc;
        wake_all(&mut rtc.readiness);
        set_direction(&mut rtc.polled.core, mid, dir)
    }

    /// Stops a live media line for good, and stages it (RFC 8829, section 4.2.1).
    ///
    /// It acts at once, before anything is applied: the row keeps its place, inactive. It returns whether the line
    /// changed, which str0m does not report. Nothing happens if the line is stopped already, carries data channels or
    /// does not exist.
    pub fn stop_media(&mut self, mid: Mid) -> Result<bool, AllocError>
        ensures same_reference { self.new.rtc.ghost_name ≡ self.old.rtc.ghost_name }
        ensures stops { StopsMedia self.old.rtc.now.core mid result self.new.rtc.now.core }
        ensures connection { self.new.rtc.now.transport ≡ self.old.rtc.now.transport }
    {
        let rtc = &mut *self.rtc;
        wake_all(&mut rtc.readiness);
        stop_media(&mut rtc.polled.core, mid)
    }

    /// Stages an ICE restart with drawn credentials, which it returns, in place of a staged one (RFC 8839, section
    /// 4.4.1.1.1). The agent restarts once the answer is accepted.
    pub fn ice_restart(&mut self, keep_local_candidates: bool) -> Result<IceCreds, AllocError>
        ensures same_reference { self.new.rtc.ghost_name ≡ self.old.rtc.ghost_name }
        ensures stages { StagesRestart (meanings I.ice D.dtls S.association M.media N.ids)
            self.old.rtc.now.core keep_local_candidates result self.new.rtc.now.core }
        ensures connection { self.new.rtc.now.transport ≡ self.old.rtc.now.transport }
    {
        let rtc = &mut *self.rtc;
        wake_all(&mut rtc.readiness);
        stage_restart(&mut rtc.polled.core, keep_local_candidates)
    }

    /// Makes the offer of what is staged, with the token that `accept_answer` takes with its answer.
    ///
    /// None if nothing but channels is staged, which no offer carries: these are confirmed, and a pending offer is
    /// invalidated. None, and nothing happens, if nothing is staged.
    pub fn apply(self) -> Result<Option<(SdpOffer, SdpPendingOffer)>, AllocError>
        ensures applies { Applies (meanings I.ice D.dtls S.association M.media N.ids)
            self.entry.rtc.now.core (sdp_of_offer result) self.exit.0.now.core }
        ensures connection { self.exit.0.now.transport ≡ self.entry.rtc.now.transport }
    {
        let rtc = &mut *self.rtc;
        wake_all(&mut rtc.readiness);
        match apply_staged(&mut rtc.polled.core)? {
            Some((offer, token)) => Ok(Some((SdpOffer(offer), token))),
            None => Ok(None),
        }
    }
}
