//! Writers that a peer lends.
ghost use Rattle.std.specs.Prelude.{◌≡◌, IfSome, is_some};
ghost use Rattle.std.specs.Borrow.{LendsSo, sem};
ghost use Rattle.rtc_peer.specs.contracts.rtc.Rtc.{the_row};
ghost use Rattle.rtc_peer_direct.specs.Streams.{gives_writer, LendsWriter};
ghost use Rattle.rtc_peer.specs.CachedPeer.{polled_of};

use crate::Rtc;
use crate::waking::wake_all;
use rtc_lines::Mid;
use rtc_parts::{Association, DtlsInstance, IceAgent, Ids, MediaSession};
use rtc_peer_direct::lend_writer;

impl<I: IceAgent, D: DtlsInstance, S: Association, M: MediaSession, N: Ids> Rtc<I, D, S, M, N> {
    /// What sends on a media line. None in RTP mode, if the peer is closing or closed, if no media row has the mid, and
    /// if the media part has none.
    pub fn writer(&mut self, mid: Mid) -> Option<&mut M::Writer>
        ensures* leaves { sem 𝓛 (LendsSo
            (the_row I.row D.row S.row M.row N.row M.E.row M.Rx.row M.Tx.row M.Writer.row
            (record { ice = I.ice }) (record { stun = I.stun }) D.DtlsInstance S.Association M.MediaSession M.E.MediaEvent N.Ids)
            M.Writer.row self.entry result
            (λ n x. IfSome result (λ lent. LendsWriter M.media mid (polled_of self.old) lent.now x (polled_of n)))
            (λ n. polled_of n ≡ polled_of self.old)) }
        ensures found { is_some result ≡ gives_writer M.media mid (polled_of self.old) }
    {
        wake_all(&mut self.readiness);
        lend_writer(&mut self.polled, mid)
    }
}
