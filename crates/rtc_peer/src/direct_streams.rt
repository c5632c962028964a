//! Streams that the handle without session descriptions lends.
ghost use Rattle.std.specs.Prelude.{◌≡◌, ◌↔◌, [], IfOk, IfSome, IsNone, IsTrue, is_some};
ghost use mir.Syntax.{named};
ghost use Rattle.std.specs.Borrow.{LendsSo, LendsSoOk, sem};
ghost use Rattle.rtc_parts.specs.NoStream.{StreamAnswers};
ghost use Rattle.rtc_parts.specs.StreamLends.{IfLent, LendsStream};
ghost use Rattle.rtc_peer.specs.contracts.direct_api.DirectApi.{the_row};
ghost use Rattle.rtc_peer_direct.specs.Streams.{gives_no_rx, gives_no_tx};
ghost use Rattle.rtc_peer_direct.specs.Streams.{ExpectsRx, DeclaresTx, LendsRx, LendsTx, LendsNamedRx, LendsNamedTx, ResetsTx};
ghost use Rattle.rtc_peer.specs.CachedPeer.{polled_of};

use crate::DirectApi;
use crate::waking::wake_all;
use rtc_lines::{Mid, Rid, Ssrc};
use rtc_parts::{Association, DtlsInstance, IceAgent, Ids, MediaSession, NoStream, answer_of};
use rtc_peer_direct::{
    lend_stream_rx, lend_stream_rx_by_mid, lend_stream_tx, lend_stream_tx_by_mid, make_stream_rx,
    make_stream_tx, reset_stream_tx,
};
use std::alloc::AllocError;

impl<'a, I: IceAgent, D: DtlsInstance, S: Association, M: MediaSession, N: Ids> DirectApi<
    'a,
    I,
    D,
    S,
    M,
    N,
> {
    /// Makes or replaces the received stream of an SSRC, and lends it. The error says why there is none.
    pub fn make_stream_rx(
        &mut self,
        ssrc: Ssrc,
        rtx: Option<Ssrc>,
        mid: Mid,
        rid: Option<Rid>,
    ) -> Result<&mut M::Rx, NoStream>
        ensures* leaves { sem 𝓛 (LendsSoOk
            (the_row (record { mir = named 1; lft = [] }) I.row D.row S.row M.row N.row M.E.row M.Rx.row M.Tx.row M.Writer.row
            (record { ice = I.ice }) (record { stun = I.stun }) D.DtlsInstance S.Association M.MediaSession M.E.MediaEvent N.Ids)
            M.Rx.row self.entry result
            (λ n x. IfOk result (λ lent. (n.rtc.ghost_name ≡ self.old.rtc.ghost_name)
            × ExpectsRx M.media ssrc rtx mid rid (polled_of self.old.rtc.now) lent.now x (polled_of n.rtc.now)))
            (λ n. (n.rtc.ghost_name ≡ self.old.rtc.ghost_name) × (polled_of n.rtc.now ≡ polled_of self.old.rtc.now))) }
        ensures answer { StreamAnswers (gives_no_rx M.media ssrc rtx mid rid (polled_of self.old.rtc.now)) result }
    {
        let rtc = &mut *self.rtc;
        wake_all(&mut rtc.readiness);
        make_stream_rx(&mut rtc.polled, ssrc, rtx, mid, rid)
    }

    /// Makes or replaces the sent stream of an SSRC, and lends it. The error says why there is none.
    pub fn make_stream_tx(
        &mut self,
        ssrc: Ssrc,
        rtx: Option<Ssrc>,
        mid: Mid,
        rid: Option<Rid>,
    ) -> Result<&mut M::Tx, NoStream>
        ensures* leaves { sem 𝓛 (LendsSoOk
            (the_row (record { mir = named 1; lft = [] }) I.row D.row S.row M.row N.row M.E.row M.Rx.row M.Tx.row M.Writer.row
            (record { ice = I.ice }) (record { stun = I.stun }) D.DtlsInstance S.Association M.MediaSession M.E.MediaEvent N.Ids)
            M.Tx.row self.entry result
            (λ n x. IfOk result (λ lent. (n.rtc.ghost_name ≡ self.old.rtc.ghost_name)
            × DeclaresTx M.media ssrc rtx mid rid (polled_of self.old.rtc.now) lent.now x (polled_of n.rtc.now)))
            (λ n. (n.rtc.ghost_name ≡ self.old.rtc.ghost_name) × (polled_of n.rtc.now ≡ polled_of self.old.rtc.now))) }
        ensures answer { StreamAnswers (gives_no_tx M.media ssrc rtx mid rid (polled_of self.old.rtc.now)) result }
    {
        let rtc = &mut *self.rtc;
        wake_all(&mut rtc.readiness);
        make_stream_tx(&mut rtc.polled, ssrc, rtx, mid, rid)
    }

    /// `make_stream_rx` with None in place of `Declined`.
    pub fn expect_stream_rx(
        &mut self,
        ssrc: Ssrc,
        rtx: Option<Ssrc>,
        mid: Mid,
        rid: Option<Rid>,
    ) -> Result<Option<&mut M::Rx>, AllocError>
        ensures* leaves { sem 𝓛 (LendsStream
            (the_row (record { mir = named 1; lft = [] }) I.row D.row S.row M.row N.row M.E.row M.Rx.row M.Tx.row M.Writer.row
            (record { ice = I.ice }) (record { stun = I.stun }) D.DtlsInstance S.Association M.MediaSession M.E.MediaEvent N.Ids)
            M.Rx.row self.entry result
            (λ n x. IfLent result (λ lent. (n.rtc.ghost_name ≡ self.old.rtc.ghost_name)
            × ExpectsRx M.media ssrc rtx mid rid (polled_of self.old.rtc.now) lent.now x (polled_of n.rtc.now)))
            (λ n. (n.rtc.ghost_name ≡ self.old.rtc.ghost_name) × (polled_of n.rtc.now ≡ polled_of self.old.rtc.now))) }
        ensures answer { IfOk result (λ lent. IsNone lent ↔ IsTrue (gives_no_rx M.media ssrc rtx mid rid (polled_of self.old.rtc.now))) }
    {
        answer_of(self.make_stream_rx(ssrc, rtx, mid, rid))
    }

    /// `make_stream_tx` with None in place of `Declined`.
    pub fn declare_stream_tx(
        &mut self,
        ssrc: Ssrc,
        rtx: Option<Ssrc>,
        mid: Mid,
        rid: Option<Rid>,
    ) -> Result<Option<&mut M::Tx>, AllocError>
        ensures* leaves { sem 𝓛 (LendsStream
            (the_row (record { mir = named 1; lft = [] }) I.row D.row S.row M.row N.row M.E.row M.Rx.row M.Tx.row M.Writer.row
            (record { ice = I.ice }) (record { stun = I.stun }) D.DtlsInstance S.Association M.MediaSession M.E.MediaEvent N.Ids)
            M.Tx.row self.entry result
            (λ n x. IfLent result (λ lent. (n.rtc.ghost_name ≡ self.old.rtc.ghost_name)
            × DeclaresTx M.media ssrc rtx mid rid (polled_of self.old.rtc.now) lent.now x (polled_of n.rtc.now)))
            (λ n. (n.rtc.ghost_name ≡ self.old.rtc.ghost_name) × (polled_of n.rtc.now ≡ polled_of self.old.rtc.now))) }
        ensures answer { IfOk result (λ lent. IsNone lent ↔ IsTrue (gives_no_tx M.media ssrc rtx mid rid (polled_of self.old.rtc.now))) }
    {
        answer_of(self.make_stream_tx(ssrc, rtx, mid, rid))
    }

    /// The received stream of an SSRC.
    pub fn stream_rx(&mut self, ssrc: Ssrc) -> Option<&mut M::Rx>
        ensures* leaves { sem 𝓛 (LendsSo
            (the_row (record { mir = named 1; lft = [] }) I.row D.row S.row M.row N.row M.E.row M.Rx.row M.Tx.row M.Writer.row
            (record { ice = I.ice }) (record { stun = I.stun }) D.DtlsInstance S.Association M.MediaSession M.E.MediaEvent N.Ids)
            M.Rx.row self.entry result
            (λ n x. IfSome result (λ lent. (n.rtc.ghost_name ≡ self.old.rtc.ghost_name)
            × LendsRx M.media ssrc (polled_of self.old.rtc.now) lent.now x (polled_of n.rtc.now)))
            (λ n. (n.rtc.ghost_name ≡ self.old.rtc.ghost_name) × (polled_of n.rtc.now ≡ polled_of self.old.rtc.now))) }
        ensures found { is_some result ≡ M.media.has_rx self.old.rtc.now.core.media ssrc }
    {
        let rtc = &mut *self.rtc;
        wake_all(&mut rtc.readiness);
        lend_stream_rx(&mut rtc.polled, ssrc)
    }

    /// The sent stream of an SSRC.
    pub fn stream_tx(&mut self, ssrc: Ssrc) -> Option<&mut M::Tx>
        ensures* leaves { sem 𝓛 (LendsSo
            (the_row (record { mir = named 1; lft = [] }) I.row D.row S.row M.row N.row M.E.row M.Rx.row M.Tx.row M.Writer.row
            (record { ice = I.ice }) (record { stun = I.stun }) D.DtlsInstance S.Association M.MediaSession M.E.MediaEvent N.Ids)
            M.Tx.row self.entry result
            (λ n x. IfSome result (λ lent. (n.rtc.ghost_name ≡ self.old.rtc.ghost_name)
            × LendsTx M.media ssrc (polled_of self.old.rtc.now) lent.now x (polled_of n.rtc.now)))
            (λ n. (n.rtc.ghost_name ≡ self.old.rtc.ghost_name) × (polled_of n.rtc.now ≡ polled_of self.old.rtc.now))) }
        ensures found { is_some result ≡ M.media.has_tx self.old.rtc.now.core.media ssrc }
    {
        let rtc = &mut *self.rtc;
        wake_all(&mut rtc.readiness);
        lend_stream_tx(&mut rtc.polled, ssrc)
    }

    /// The stream of a line and a layer that is received.
    pub fn stream_rx_by_mid(&mut self, mid: Mid, rid: Option<Rid>) -> Option<&mut M::Rx>
        ensures* leaves { sem 𝓛 (LendsSo
            (the_row (record { mir = named 1; lft = [] }) I.row D.row S.row M.row N.row M.E.row M.Rx.row M.Tx.row M.Writer.row
            (record { ice = I.ice }) (record { stun = I.stun }) D.DtlsInstance S.Association M.MediaSession M.E.MediaEvent N.Ids)
            M.Rx.row self.entry result
            (λ n x. IfSome result (λ lent. (n.rtc.ghost_name ≡ self.old.rtc.ghost_name)
            × LendsNamedRx M.media mid rid (polled_of self.old.rtc.now) lent.now x (polled_of n.rtc.now)))
            (λ n. (n.rtc.ghost_name ≡ self.old.rtc.ghost_name) × (polled_of n.rtc.now ≡ polled_of self.old.rtc.now))) }
        ensures found { is_some result ≡ M.media.has_rx_named self.old.rtc.now.core.media mid rid }
    {
        let rtc = &mut *self.rtc;
        wake_all(&mut rtc.readiness);
        lend_stream_rx_by_mid(&mut rtc.polled, mid, rid)
    }

    /// The stream of a line and a layer that is sent.
    pub fn stream_tx_by_mid(&mut self, mid: Mid, rid: Option<Rid>) -> Option<&mut M::Tx>
        ensures* leaves { sem 𝓛 (LendsSo
            (the_row (record { mir = named 1; lft = [] }) I.row D.row S.row M.row N.row M.E.row M.Rx.row M.Tx.row M.Writer.row
            (record { ice = I.ice }) (record { stun = I.stun }) D.DtlsInstance S.Association M.MediaSession M.E.MediaEvent N.Ids)
            M.Tx.row self.entry result
            (λ n x. IfSome result (λ lent. (n.rtc.ghost_name ≡ self.old.rtc.ghost_name)
            × LendsNamedTx M.media mid rid (polled_of self.old.rtc.now) lent.now x (polled_of n.rtc.now)))
            (λ n. (n.rtc.ghost_name ≡ self.old.rtc.ghost_name) × (polled_of n.rtc.now ≡ polled_of self.old.rtc.now))) }
        ensures found { is_some result ≡ M.media.has_tx_named self.old.rtc.now.core.media mid rid }
    {
        let rtc = &mut *self.rtc;
        wake_all(&mut rtc.readiness);
        lend_stream_tx_by_mid(&mut rtc.polled, mid, rid)
    }

    /// Gives the sent stream of a line and a layer a new SSRC. None if there is no such stream, or if it has this SSRC,
    /// or this RTX SSRC, already.
    pub fn reset_stream_tx(
        &mut self,
        mid: Mid,
        rid: Option<Rid>,
        new_ssrc: Ssrc,
        new_rtx: Option<Ssrc>,
    ) -> Option<&mut M::Tx>
        ensures* leaves { sem 𝓛 (LendsSo
            (the_row (record { mir = named 1; lft = [] }) I.row D.row S.row M.row N.row M.E.row M.Rx.row M.Tx.row M.Writer.row
            (record { ice = I.ice }) (record { stun = I.stun }) D.DtlsInstance S.Association M.MediaSession M.E.MediaEvent N.Ids)
            M.Tx.row self.entry result
            (λ n x. IfSome result (λ lent. (n.rtc.ghost_name ≡ self.old.rtc.ghost_name)
            × ResetsTx M.media mid rid new_ssrc new_rtx (polled_of self.old.rtc.now) lent.now x (polled_of n.rtc.now)))
            (λ n. (n.rtc.ghost_name ≡ self.old.rtc.ghost_name) × (polled_of n.rtc.now ≡ polled_of self.old.rtc.now))) }
        ensures found { is_some result ≡ M.media.resets_tx self.old.rtc.now.core.media mid rid new_ssrc new_rtx }
    {
        let rtc = &mut *self.rtc;
        wake_all(&mut rtc.readiness);
        reset_stream_tx(&mut rtc.polled, mid, rid, new_ssrc, new_rtx)
    }
}
