//! Certificates of the other side.
ghost use Rattle.std.specs.Prelude.{◌≡◌, IfOk};
ghost use Rattle.rtc_peer_polling.specs.Certificates.{Hashes, cert_refusal, hash_name, is_checked_hash, cert_mismatch};
ghost use Rattle.rtc_peer_polling.specs.DtlsStages.{ChecksCert};

use rtc_parts::{Association, DtlsInstance, IceAgent, Ids, MediaSession};
use rtc_peer_core::{Phase, RtcError};
use rtc_peer_rows::Why;
use rtc_peer_transport::{Met, PolledPeer, close_out_of_memory};
use rtc_sdp_values::Fingerprint;
use rtc_wire::TryCopy;
use std::alloc::{AllocError, Global};

fn is_checked(name: &str) -> bool
    ensures { result ≡ is_checked_hash name.now }
{
    name == "sha-256" || name == "sha-1"
}

fn hash_for(announced: &Option<Fingerprint>) -> &str
    ensures { result.now ≡ hash_name announced.now }
{
    match announced {
        None => "sha-256",
        Some(announced) => {
            if is_checked(announced.hash_func.as_str()) {
                announced.hash_func.as_str()
            } else {
                "sha-256"
            }
        }
    }
}

fn hash_cert(
    alloc: Global,
    announced: &Option<Fingerprint>,
    cert: &[u8],
) -> Result<Fingerprint, AllocError>
    ensures { IfOk result (λ got. Hashes announced.now cert.now got) }
{
    match Fingerprint::of_certificate(alloc, cert, hash_for(announced))? {
        Some(got) => Ok(got),
        None => unreachable!(),
    }
}

fn compare(announced: &Fingerprint, got: &Fingerprint) -> Result<Option<Why>, AllocError>
    ensures { IfOk result (λ refusal. refusal ≡ cert_mismatch announced.now got.now) }
{
    if !is_checked(announced.hash_func.as_str()) {
        let name = announced.hash_func.copy()?;
        return Ok(Some(Why::UnknownHash(name)));
    }
    if announced.bytes.as_slice() == got.bytes.as_slice() {
        return Ok(None);
    }
    let expected = announced.copy()?;
    let got = got.copy()?;
    Ok(Some(Why::NoMatch { expected, got }))
}

fn judge(
    announced: &Option<Fingerprint>,
    verifies: bool,
    got: &Fingerprint,
) -> Result<Option<Why>, AllocError>
    ensures { IfOk result (λ refusal. refusal ≡ cert_refusal announced.now verifies got.now) }
{
    match announced {
        None => Ok(Some(Why::NoneAnnounced)),
        Some(announced) => {
            if verifies {
                compare(announced, got)
            } else {
                Ok(None)
            }
        }
    }
}

/// Checks the certificate of the other side by what it announced.
#[tactic(auto, unfolding(crate::specs::DtlsStages::ChecksCert))]
pub(crate) fn check_cert<I: IceAgent, D: DtlsInstance, S: Association, M: MediaSession, N: Ids>(
    peer: &mut PolledPeer<I, D, S, M, N>,
    cert: &[u8],
) -> Met<M::E>
    ensures { ChecksCert cert.now peer.old result peer.new }
{
    let Ok(got) = hash_cert(peer.core.alloc, &peer.core.fingerprint, cert) else {
        return Met::Error(close_out_of_memory(&mut peer.core.phase));
    };
    let Ok(refusal) = judge(&peer.core.fingerprint, peer.transport.verifies, &got) else {
        return Met::Error(close_out_of_memory(&mut peer.core.phase));
    };
    peer.core.dtls.set_remote_fingerprint(got);
    match refusal {
        None => Met::Again,
        Some(why) => {
            peer.core.phase = Phase::Closed;
            Met::Error(RtcError::RemoteSdp(why))
        }
    }
}
