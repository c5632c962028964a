//! The ICE agent and the DTLS part as an offer or an answer is followed.
ghost use Rattle.std.specs.Prelude.{◌≡◌, ◌≢◌, OnOk, OnErr, Some, None, Ok, Err, true};
ghost use Rattle.rtc_parts.specs.declared.dtls_error.DtlsError.TheVariants.{WouldBlock};
ghost use Rattle.rtc_peer_core.specs.PartMoves.{RestartsIce, TakesCreds, TakesCandidates, TakesControl};
ghost use Rattle.rtc_peer_core.specs.PartMoves.{FollowsSdp, StopsFollowing, StartsDtls, TakesRole, BeginsHandshake};

use rtc_parts::{Dtls, DtlsError, DtlsInstance, IceAgent};
use rtc_sdp_values::{Candidate, IceCreds};
use rtc_wire::{Moment, Seq};
use std::alloc::AllocError;

/// What the ICE agent is to follow of an offer or an answer.
#[derive(Drop)]
pub struct Following {
    pub restart: Option<(IceCreds, bool)>,
    pub creds: Option<IceCreds>,
    pub candidates: Seq<Candidate>,
    pub control: Option<bool>,
}

fn restart<I: IceAgent>(ice: &mut I, asked: Option<(IceCreds, bool)>) -> Result<(), AllocError>
    ensures { RestartsIce I.ice ice.old asked result ice.new }
{
    match asked {
        None => Ok(()),
        Some((creds, keeps)) => ice.ice_restart(creds, keeps),
    }
}

fn take_creds<I: IceAgent>(ice: &mut I, creds: Option<IceCreds>)
    ensures { TakesCreds I.ice ice.old creds ice.new }
{
    if let Some(creds) = creds {
        ice.set_remote_credentials(creds);
    }
}

fn take_candidates<I: IceAgent>(ice: &mut I, candidates: Vec<Candidate>) -> Result<(), AllocError>
    ensures { TakesCandidates I.ice ice.old candidates.items result ice.new }
{
    for candidate in candidates {
        match ice.add_remote_candidate(candidate) {
            Ok(_taken) => {}
            Err(error) => return Err(error),
        }
    }
    Ok(())
}

/// Sets which side is controlling, if this is asked.
pub fn take_control<I: IceAgent>(ice: &mut I, control: Option<bool>)
    ensures { TakesControl I.ice ice.old control ice.new }
{
    if let Some(on) = control {
        ice.set_controlling(on);
    }
}

/// The agent follows an offer or an answer that is accepted.
pub fn follow<I: IceAgent>(ice: &mut I, following: Following) -> Result<(), AllocError>
    ensures ok { OnOk result (FollowsSdp I.ice ice.old
        following.restart following.creds following.candidates following.control ice.new) }
    ensures err { OnErr result (StopsFollowing I.ice ice.old
        following.restart following.creds following.candidates ice.new) }
{
    match restart(ice, following.restart) {
        Ok(()) => {}
        Err(error) => return Err(error),
    }
    take_creds(ice, following.creds);
    match take_candidates(ice, following.candidates.into_vec()) {
        Ok(()) => {}
        Err(error) => return Err(error),
    }
    take_control(ice, following.control);
    Ok(())
}

// An active side begins the handshake by a packet of no bytes, whose fault is ignored.
fn begin_handshake<D: DtlsInstance>(dtls: &mut Dtls<D>) -> Result<(), DtlsError>
    requires { dtls.old.active ≡ Some true }
    ensures begins { BeginsHandshake D.dtls true dtls.old.instance result dtls.new.instance }
    ensures others { dtls.new ≡ record dtls.old { instance = dtls.new.instance } }
    ensures never_blocked { result ≢ Err WouldBlock }
{
    match dtls.handle_receive(&[]) {
        Ok(()) => Ok(()),
        Err(DtlsError::Fault) => Ok(()),
        Err(DtlsError::WouldBlock) => unreachable!(),
        Err(DtlsError::Alloc) => Err(DtlsError::Alloc),
    }
}

// The first role is taken, with the greatest moment that was given.
fn take_role<D: DtlsInstance>(
    dtls: &mut Dtls<D>,
    active: bool,
    now: Moment,
) -> Result<(), DtlsError>
    requires { dtls.old.active ≡ None }
    ensures role { TakesRole D.dtls dtls.old active now result dtls.new }
    ensures never_blocked { result ≢ Err WouldBlock }
{
    dtls.set_active(active);
    match dtls.handle_timeout(now) {
        Ok(()) => {}
        Err(error) => return Err(error),
    }
    if !active {
        return Ok(());
    }
    match begin_handshake(dtls) {
        Ok(()) => Ok(()),
        Err(error) => Err(error),
    }
}

/// The DTLS part takes a role if it has none.
pub fn start_dtls<D: DtlsInstance>(
    dtls: &mut Dtls<D>,
    active: bool,
    now: Moment,
) -> Result<(), DtlsError>
    ensures starts { StartsDtls D.dtls dtls.old dtls.old.active active now result dtls.new }
    ensures never_blocked { result ≢ Err WouldBlock }
{
    if dtls.is_active().is_some() {
        return Ok(());
    }
    take_role(dtls, active, now)
}
