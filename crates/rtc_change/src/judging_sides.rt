//! Why what a session description says of its side is refused.
ghost use Rattle.std.specs.Prelude.{◌≡◌, ◌&&◌, not, IfOk, Option, Some, None, option_map};
ghost use Rattle.std.specs.Option.{option_copied};
ghost use Rattle.rtc_sdp_values.specs.Sdp.{creds_of, sdp_fingerprint};
ghost use Rattle.rtc_change.specs.Plans.{same_creds, is_restart as IsRestart, unasked_restart as UnaskedRestart, side_verdict};
ghost use Rattle.rtc_change.specs.Plans.{changed_init, init_refusal, no_fingerprint};

use crate::{Refusal, View};
use rtc_peer_rows::Why;
use rtc_sdp_values::{IceCreds, Sdp};
use rtc_wire::{Text, TryCopy};
use rtc_wire_drops::release;
use std::alloc::{AllocError, Global};

fn are_same(a: &IceCreds, b: &IceCreds) -> bool
    ensures { result ≡ same_creds a.now b.now }
{
    if a.ufrag.as_str() != b.ufrag.as_str() {
        return false;
    }
    a.pass.as_str() == b.pass.as_str()
}

/// Whether credentials differ from those that are known.
pub fn is_restart(known: Option<&IceCreds>, got: Option<&IceCreds>) -> bool
    ensures { result ≡ IsRestart (option_copied known.entry) (option_copied got.entry) }
{
    let Some(known) = known else {
        return false;
    };
    let Some(got) = got else {
        return false;
    };
    !are_same(known, got)
}

// A restart that may not be is refused, with both credentials.
fn find_unasked_restart(
    may: bool,
    known: Option<&IceCreds>,
    got: Option<&IceCreds>,
) -> Result<Option<Refusal>, AllocError>
    ensures { IfOk result (λ refusal. refusal ≡ UnaskedRestart may (option_copied known.entry) (option_copied got.entry)) }
{
    let Some(known) = known else {
        return Ok(None);
    };
    let Some(got) = got else {
        return Ok(None);
    };
    if are_same(known, got) || may {
        return Ok(None);
    }
    let kept = known.copy()?;
    let got = got.copy()?;
    Ok(Some(Refusal::RemoteSdp(Why::UnaskedRestart { kept, got })))
}

// The fingerprint that a certificate could not be checked without.
fn find_missing_fingerprint(view: &View<'_>, sdp: &Sdp) -> Option<Refusal>
    ensures { result ≡ no_fingerprint view.now.has_fingerprint (sdp_fingerprint sdp.now) }
{
    if view.has_fingerprint || sdp.fingerprint().is_some() {
        None
    } else {
        Some(Refusal::RemoteSdp(Why::NoFingerprint))
    }
}

/// Why what a session description says of its side is refused: how the side is reached, and how it is known.
#[tactic(auto, unfolding(crate::specs::Plans::side_verdict))]
pub fn judge_side(view: &View<'_>, may: bool, sdp: &Sdp) -> Result<Option<Refusal>, AllocError>
    ensures { IfOk result (λ refusal. refusal ≡ side_verdict view.now may sdp.now) }
{
    if view.lite && sdp.ice_lite {
        return Ok(Some(Refusal::RemoteSdp(Why::BothLite)));
    }
    let Some(creds) = sdp.ice_creds() else {
        return Ok(Some(Refusal::RemoteSdp(Why::NoCredentials)));
    };
    let unasked = find_unasked_restart(may, view.remote_creds, Some(creds))?;
    if unasked.is_some() {
        return Ok(unasked);
    }
    Ok(release(unasked, find_missing_fingerprint(view, sdp)))
}

// Why a SNAP INIT chunk is refused if another one was kept.
fn find_changed_init(
    alloc: Global,
    kept: &str,
    told: Option<&str>,
) -> Result<Option<Refusal>, AllocError>
    ensures { IfOk result (λ refusal. refusal ≡ changed_init kept.now (option_map (λ text. text.now) told.entry)) }
{
    let Some(got) = told else {
        let kept = Text::from_str(alloc, kept)?;
        return Ok(Some(Refusal::RemoteSdp(Why::SctpInitMissing { kept })));
    };
    if kept == got {
        return Ok(None);
    }
    let kept = Text::from_str(alloc, kept)?;
    let got = Text::from_str(alloc, got)?;
    Ok(Some(Refusal::RemoteSdp(Why::SctpInitChanged { kept, got })))
}

/// Why the SNAP INIT chunk of a session description is refused: the association was started with another one.
pub fn judge_init(
    alloc: Global,
    view: &View<'_>,
    told: Option<&str>,
) -> Result<Option<Refusal>, AllocError>
    ensures { IfOk result (λ refusal. refusal
        ≡ init_refusal view.now.sctp_inited view.now.sctp_kept (option_map (λ text. text.now) told.entry)) }
{
    if !view.sctp_inited {
        return Ok(None);
    }
    let Some(kept) = view.sctp_kept else {
        return Ok(None);
    };
    find_changed_init(alloc, kept, told)
}
