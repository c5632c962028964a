//! How a peer is closed.
ghost use Rattle.std.specs.Prelude.{◌≡◌};
ghost use Rattle.rtc_peer_core.specs.declared.phase.Phase.TheVariants.{Closed};
ghost use Rattle.rtc_peer_core.specs.declared.rtc_error.RtcError.TheVariants.{Alloc};
ghost use Rattle.rtc_peer_core.specs.Meanings.{meanings};
ghost use Rattle.rtc_peer_transport.specs.Closing.{ShutsStreams, ShutsDtls};
ghost use Rattle.rtc_peer_transport.specs.Closing.{ClosesPeer, is_phase_closing, is_closing_complete};

use crate::PolledPeer;
use rtc_parts::{Association, DtlsError, DtlsInstance, IceAgent, Ids, MediaSession};
use rtc_peer_core::{Phase, RtcError};
use rtc_sctp::{ProtoError, SctpError};

/// Whether a peer is in the middle of closing.
pub fn is_closing(phase: Phase) -> bool
    ensures { result ≡ is_phase_closing phase }
{
    match phase {
        Phase::Closing => true,
        Phase::Alive | Phase::Closed => false,
    }
}

/// Closes a peer that ran out of memory, and returns that error.
pub fn close_out_of_memory(phase: &mut Phase) -> RtcError
    ensures closed { phase.new ≡ Closed }
    ensures told { result ≡ Alloc }
{
    *phase = Phase::Closed;
    RtcError::Alloc
}

impl<I: IceAgent, D: DtlsInstance, S: Association, M: MediaSession, N: Ids> PolledPeer<
    I,
    D,
    S,
    M,
    N,
> {
    #[tactic(auto, unfolding(crate::specs::Closing::ShutsStreams))]
    fn shut_streams(&mut self) -> Result<(), RtcError>
        ensures { ShutsStreams (meanings I.ice D.dtls S.association M.media N.ids) self.old result self.new }
    {
        match self.core.sctp.close() {
            Ok(()) => Ok(()),
            Err(error) => {
                self.core.phase = Phase::Closed;
                match error {
                    SctpError::Proto(ProtoError::Fault) => {
                        Err(RtcError::Sctp(SctpError::Proto(ProtoError::Fault)))
                    }
                    SctpError::Alloc => Err(RtcError::Alloc),
                    _ => unreachable!(),
                }
            }
        }
    }

    #[tactic(auto, unfolding(crate::specs::Closing::ShutsDtls))]
    fn shut_dtls(&mut self) -> Result<(), RtcError>
        ensures { ShutsDtls (meanings I.ice D.dtls S.association M.media N.ids) self.old result self.new }
    {
        match self.core.dtls.close() {
            Ok(()) => Ok(()),
            Err(DtlsError::WouldBlock) => unreachable!(),
            Err(DtlsError::Fault) => {
                self.core.phase = Phase::Closed;
                Err(RtcError::Dtls(DtlsError::Fault))
            }
            Err(DtlsError::Alloc) => Err(close_out_of_memory(&mut self.core.phase)),
        }
    }

    /// Begins to close the peer, and polls end it. Media says goodbye (RFC 3550, section 6.6), the association is shut
    /// down (RFC 9260, section 9.2), and the DTLS connection is closed (RFC 5246, section 7.2.1). Nothing happens if
    /// this has begun. An error leaves the peer closed.
    pub fn close(&mut self) -> Result<(), RtcError>
        ensures { ClosesPeer (meanings I.ice D.dtls S.association M.media N.ids) self.old result self.new }
    {
        match self.core.phase {
            Phase::Alive => {}
            Phase::Closing | Phase::Closed => return Ok(()),
        }
        match self.core.media.close_rtp() {
            Ok(()) => {}
            Err(_) => return Err(close_out_of_memory(&mut self.core.phase)),
        }
        match self.shut_streams() {
            Ok(()) => {}
            Err(error) => return Err(error),
        }
        match self.shut_dtls() {
            Ok(()) => {}
            Err(error) => return Err(error),
        }
        self.core.phase = Phase::Closing;
        Ok(())
    }

    /// Whether nothing of a closing is left to do.
    pub fn is_closing_done(&self) -> bool
        ensures { result ≡ is_closing_complete (meanings I.ice D.dtls S.association M.media N.ids) self.now }
    {
        is_closing(self.core.phase) && self.core.dtls.is_closed() && self.core.media.is_rtp_closed()
    }
}
