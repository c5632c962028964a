//! Streams and writers that are made, dropped and lent.
ghost use Rattle.std.specs.Prelude.{◌≡◌, IfOk, IfSome, is_some};
ghost use Rattle.std.specs.Borrow.{LendsSo, LendsSoOk, sem};
ghost use Rattle.rtc_parts.specs.NoStream.{StreamAnswers};
ghost use Rattle.rtc_peer_transport.specs.contracts.polled_peer.PolledPeer.{the_row};
ghost use Rattle.rtc_peer_transport.specs.ChannelCalls.{is_phase_open};
ghost use Rattle.rtc_peer_direct.specs.Streams.{RemovesRx, RemovesTx, gives_no_rx, gives_no_tx, gives_writer};
ghost use Rattle.rtc_peer_direct.specs.Streams.{ExpectsRx, DeclaresTx, LendsRx, LendsTx, LendsNamedRx, LendsNamedTx, ResetsTx, LendsWriter};

use crate::media_rows::has_media;
use rtc_parts::{Association, MediaSession, NoStream};
use rtc_peer_core::Phase;
use rtc_peer_transport::PolledPeer;
use rtc_sdp_values::{Mid, Rid, Ssrc};

fn is_open_phase(phase: Phase) -> bool
    ensures { result ≡ is_phase_open phase }
{
    match phase {
        Phase::Alive => true,
        Phase::Closing | Phase::Closed => false,
    }
}

/// Makes or replaces the received stream of an SSRC, and lends it. The error says why there is none.
pub fn make_stream_rx<I, D, S: Association, M: MediaSession, N>(
    peer: &mut PolledPeer<I, D, S, M, N>,
    ssrc: Ssrc,
    rtx: Option<Ssrc>,
    mid: Mid,
    rid: Option<Rid>,
) -> Result<&mut M::Rx, NoStream>
    ensures* leaves { sem 𝓛 (LendsSoOk (the_row I.row D.row S.row M.row N.row S.Association) M.Rx.row peer.entry result
        (λ n x. IfOk result (λ lent. ExpectsRx M.media ssrc rtx mid rid peer.old lent.now x n)) (λ n. n ≡ peer.old)) }
    ensures answer { StreamAnswers (gives_no_rx M.media ssrc rtx mid rid peer.old) result }
{
    if !has_media(&peer.core.lines, mid) {
        return Err(NoStream::Declined);
    }
    let core = &mut peer.core;
    core.media.make_stream_rx(ssrc, rtx, mid, rid)
}

/// Makes or replaces the sent stream of an SSRC, and lends it. The error says why there is none.
pub fn make_stream_tx<I, D, S: Association, M: MediaSession, N>(
    peer: &mut PolledPeer<I, D, S, M, N>,
    ssrc: Ssrc,
    rtx: Option<Ssrc>,
    mid: Mid,
    rid: Option<Rid>,
) -> Result<&mut M::Tx, NoStream>
    ensures* leaves { sem 𝓛 (LendsSoOk (the_row I.row D.row S.row M.row N.row S.Association) M.Tx.row peer.entry result
        (λ n x. IfOk result (λ lent. DeclaresTx M.media ssrc rtx mid rid peer.old lent.now x n)) (λ n. n ≡ peer.old)) }
    ensures answer { StreamAnswers (gives_no_tx M.media ssrc rtx mid rid peer.old) result }
{
    if !has_media(&peer.core.lines, mid) {
        return Err(NoStream::Declined);
    }
    let core = &mut peer.core;
    core.media.make_stream_tx(ssrc, rtx, mid, rid)
}

/// Drops the received stream of an SSRC. False if there is none.
pub fn remove_stream_rx<I, D, S: Association, M: MediaSession, N>(
    peer: &mut PolledPeer<I, D, S, M, N>,
    ssrc: Ssrc,
) -> bool
    ensures { RemovesRx M.media ssrc peer.old result peer.new }
{
    peer.core.media.remove_stream_rx(ssrc)
}

/// Drops the sent stream of an SSRC. False if there is none.
pub fn remove_stream_tx<I, D, S: Association, M: MediaSession, N>(
    peer: &mut PolledPeer<I, D, S, M, N>,
    ssrc: Ssrc,
) -> bool
    ensures { RemovesTx M.media ssrc peer.old result peer.new }
{
    peer.core.media.remove_stream_tx(ssrc)
}

/// The received stream of an SSRC.
pub fn lend_stream_rx<I, D, S: Association, M: MediaSession, N>(
    peer: &mut PolledPeer<I, D, S, M, N>,
    ssrc: Ssrc,
) -> Option<&mut M::Rx>
    ensures* leaves { sem 𝓛 (LendsSo (the_row I.row D.row S.row M.row N.row S.Association) M.Rx.row peer.entry result
        (λ n x. IfSome result (λ lent. LendsRx M.media ssrc peer.old lent.now x n)) (λ n. n ≡ peer.old)) }
    ensures found { is_some result ≡ M.media.has_rx peer.old.core.media ssrc }
{
    let core = &mut peer.core;
    core.media.stream_rx(ssrc)
}

/// The sent stream of an SSRC.
pub fn lend_stream_tx<I, D, S: Association, M: MediaSession, N>(
    peer: &mut PolledPeer<I, D, S, M, N>,
    ssrc: Ssrc,
) -> Option<&mut M::Tx>
    ensures* leaves { sem 𝓛 (LendsSo (the_row I.row D.row S.row M.row N.row S.Association) M.Tx.row peer.entry result
        (λ n x. IfSome result (λ lent. LendsTx M.media ssrc peer.old lent.now x n)) (λ n. n ≡ peer.old)) }
    ensures found { is_some result ≡ M.media.has_tx peer.old.core.media ssrc }
{
    let core = &mut peer.core;
    core.media.stream_tx(ssrc)
}

/// The stream of a line and a layer that is received.
pub fn lend_stream_rx_by_mid<I, D, S: Association, M: MediaSession, N>(
    peer: &mut PolledPeer<I, D, S, M, N>,
    mid: Mid,
    rid: Option<Rid>,
) -> Option<&mut M::Rx>
    ensures* leaves { sem 𝓛 (LendsSo (the_row I.row D.row S.row M.row N.row S.Association) M.Rx.row peer.entry result
        (λ n x. IfSome result (λ lent. LendsNamedRx M.media mid rid peer.old lent.now x n)) (λ n. n ≡ peer.old)) }
    ensures found { is_some result ≡ M.media.has_rx_named peer.old.core.media mid rid }
{
    let core = &mut peer.core;
    core.media.stream_rx_by_mid(mid, rid)
}

/// The stream of a line and a layer that is sent.
pub fn lend_stream_tx_by_mid<I, D, S: Association, M: MediaSession, N>(
    peer: &mut PolledPeer<I, D, S, M, N>,
    mid: Mid,
    rid: Option<Rid>,
) -> Option<&mut M::Tx>
    ensures* leaves { sem 𝓛 (LendsSo (the_row I.row D.row S.row M.row N.row S.Association) M.Tx.row peer.entry result
        (λ n x. IfSome result (λ lent. LendsNamedTx M.media mid rid peer.old lent.now x n)) (λ n. n ≡ peer.old)) }
    ensures found { is_some result ≡ M.media.has_tx_named peer.old.core.media mid rid }
{
    let core = &mut peer.core;
    core.media.stream_tx_by_mid(mid, rid)
}

/// Gives the sent stream of a line and a layer a new SSRC. None if there is no such stream, or if it has this SSRC, or
/// this RTX SSRC, already.
pub fn reset_stream_tx<I, D, S: Association, M: MediaSession, N>(
    peer: &mut PolledPeer<I, D, S, M, N>,
    mid: Mid,
    rid: Option<Rid>,
    new_ssrc: Ssrc,
    new_rtx: Option<Ssrc>,
) -> Option<&mut M::Tx>
    ensures* leaves { sem 𝓛 (LendsSo (the_row I.row D.row S.row M.row N.row S.Association) M.Tx.row peer.entry result
        (λ n x. IfSome result (λ lent. ResetsTx M.media mid rid new_ssrc new_rtx peer.old lent.now x n)) (λ n. n ≡ peer.old)) }
    ensures found { is_some result ≡ M.media.resets_tx peer.old.core.media mid rid new_ssrc new_rtx }
{
    let core = &mut peer.core;
    core.media.reset_stream_tx(mid, rid, new_ssrc, new_rtx)
}

/// What sends on a line. None in RTP mode, if the peer is closing or closed, and if no media row has the mid.
pub fn lend_writer<I, D, S: Association, M: MediaSession, N>(
    peer: &mut PolledPeer<I, D, S, M, N>,
    mid: Mid,
) -> Option<&mut M::Writer>
    ensures* leaves { sem 𝓛 (LendsSo (the_row I.row D.row S.row M.row N.row S.Association) M.Writer.row peer.entry result
        (λ n x. IfSome result (λ lent. LendsWriter M.media mid peer.old lent.now x n)) (λ n. n ≡ peer.old)) }
    ensures found { is_some result ≡ gives_writer M.media mid peer.old }
{
    let rtp_mode = peer.transport.rtp_mode;
    if rtp_mode {
        return None;
    }
    if !is_open_phase(peer.core.phase) {
        return None;
    }
    if !has_media(&peer.core.lines, mid) {
        return None;
    }
    let core = &mut peer.core;
    core.media.writer(mid)
}
