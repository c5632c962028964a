//! What an acceptance copies of a session description and of a token.
ghost use Rattle.std.specs.Prelude.{◌≡◌, IfOk, OnOk, None, option_map};
ghost use Rattle.std.specs.Option.{option_or};
ghost use Rattle.rtc_sdp_values.specs.Sdp.{creds_of, sdp_fingerprint};
ghost use Rattle.rtc_change.specs.PendingOffer.{staged_restart};
ghost use Rattle.rtc_peer_negotiation.specs.Growths.{begun_growth, following_of};

use crate::following::Following;
use crate::growth::Growth;
use crate::starting::Starting;
use rtc_change::Changes;
use rtc_sdp_values::{Fingerprint, IceCreds, Sdp};
use rtc_wire::{Seq, TryCopy};
use rtc_wire_drops::{fill_some, set};
use std::alloc::{AllocError, Global};

/// A restart, lent.
pub fn lend_restart(restart: &Option<(IceCreds, bool)>) -> Option<(&IceCreds, bool)>
    ensures { option_map (λ asked. (asked.0.now, asked.1)) result ≡ restart.now }
{
    match restart {
        None => None,
        Some((creds, keeps)) => Some((creds, *keeps)),
    }
}

// Puts the known fingerprint, or else the announced one.
fn put_fingerprint(
    known: &Option<Fingerprint>,
    sdp: &Sdp,
    fingerprint: &mut Option<Fingerprint>,
) -> Result<(), AllocError>
    requires { fingerprint.old ≡ None }
    ensures { OnOk result (fingerprint.new ≡ option_or known.now (sdp_fingerprint sdp.now)) }
{
    if let Some(known) = known {
        return fill_some(fingerprint, known);
    }
    match sdp.fingerprint() {
        Some(told) => fill_some(fingerprint, told),
        None => Ok(()),
    }
}

fn put_creds(sdp: &Sdp, creds: &mut Option<IceCreds>) -> Result<(), AllocError>
    requires { creds.old ≡ None }
    ensures { OnOk result (creds.new ≡ creds_of sdp.now) }
{
    match sdp.ice_creds() {
        Some(told) => fill_some(creds, told),
        None => Ok(()),
    }
}

/// Nothing is made ready yet but the restart that the agent is to follow, its control and how the association is started.
pub fn begin_growth(
    alloc: Global,
    restart: Option<(IceCreds, bool)>,
    control: Option<bool>,
    starting: Starting,
) -> Growth
    ensures { result ≡ begun_growth restart control starting }
{
    Growth {
        answer: None,
        following: Following {
            restart,
            creds: None,
            candidates: Seq::empty(alloc),
            control,
        },
        starting,
        fingerprint: None,
    }
}

/// Puts what an offer or an answer carries of its side.
pub fn put_told(
    known: &Option<Fingerprint>,
    sdp: &Sdp,
    growth: &mut Growth,
) -> Result<(), AllocError>
    requires creds { growth.old.following.creds ≡ None }
    requires fingerprint { growth.old.fingerprint ≡ None }
    ensures { OnOk result (growth.new ≡ record growth.old {
      following = following_of growth.old.following.restart sdp.now growth.old.following.control;
      fingerprint = option_or known.now (sdp_fingerprint sdp.now);
    }) }
{
    put_creds(sdp, &mut growth.following.creds)?;
    let candidates = sdp.candidates()?;
    set(&mut growth.following.candidates, Seq::new(candidates));
    put_fingerprint(known, sdp, &mut growth.fingerprint)
}

/// The restart that is staged with the changes of a token.
pub fn copy_restart(changes: &Changes) -> Result<Option<(IceCreds, bool)>, AllocError>
    ensures { IfOk result (λ restart. restart ≡ staged_restart changes.now.0) }
{
    let Some((creds, keeps)) = changes.restart() else {
        return Ok(None);
    };
    let copied = creds.copy()?;
    Ok(Some((copied, keeps)))
}
