//! Calls on the DTLS part.
ghost use Rattle.std.specs.Prelude.{◌≡◌};
ghost use Rattle.rtc_peer_direct.specs.DtlsCalls.{with_fingerprint, role_answer, TakesDtlsRole};

use rtc_parts::{Association, DtlsError, DtlsInstance};
use rtc_peer_core::RtcError;
use rtc_peer_transport::PolledPeer;
use rtc_sdp_values::Fingerprint;

/// Sets the fingerprint that the certificate of the other side has to match (RFC 8122, section 5).
pub fn set_remote_fingerprint<I, D, S: Association, M, N>(
    peer: &mut PolledPeer<I, D, S, M, N>,
    fingerprint: Fingerprint,
)
    ensures { peer.new ≡ with_fingerprint fingerprint peer.old }
{
    peer.core.fingerprint = Some(fingerprint);
}

// What the start of the DTLS part returns, as a peer reports it.
fn answer_role(answer: Result<(), DtlsError>) -> Result<(), RtcError>
    ensures { result ≡ role_answer answer }
{
    match answer {
        Ok(()) => Ok(()),
        Err(error) => Err(RtcError::from(error)),
    }
}

/// Takes a DTLS role, if there is none; an active side begins the handshake.
pub fn start_dtls<I, D: DtlsInstance, S: Association, M, N>(
    peer: &mut PolledPeer<I, D, S, M, N>,
    active: bool,
) -> Result<(), RtcError>
    ensures { TakesDtlsRole D.dtls active peer.old result peer.new }
{
    let now = peer.core.greatest;
    answer_role(rtc_peer_negotiation::start_dtls(&mut peer.core.dtls, active, now))
}
