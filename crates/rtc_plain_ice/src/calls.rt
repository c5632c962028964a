//! What is set at an agent, and what it returns of itself.
ghost use Rattle.std.specs.Prelude.{◌≡◌, ◌||◌, OnOk, OnErr, OnSome, IfSome, true, is_some};
ghost use Rattle.rtc_plain_ice.specs.Places.{has_place};
ghost use Rattle.rtc_plain_ice.specs.Contents.{next_ends, ufrags_fit, ice_wake, is_viable, accepts_bytes, first_ends};
ghost use Rattle.rtc_plain_ice.specs.Calls.{restarted, is_due};
ghost use Rattle.rtc_plain_ice.specs.PlainMeaning.{Invalidates, AddsTo};
ghost use Rattle.rtc_plain_ice.specs.Calls as call;

use crate::addr_table::holds_addr;
use crate::agent::PlainIce;
use crate::check::{Check, Ends};
use crate::message::read;
use rtc_parts::IceEvent;
use rtc_sdp_values::{Candidate, IceCreds};
use rtc_wire::{Addr, Moment};
use std::alloc::AllocError;

/// The pair of the first candidates.
fn first_pair(local: &[Candidate], remote: &[Candidate]) -> Option<Ends>
    ensures { result ≡ first_ends local.now remote.now }
{
    match local {
        [] => None,
        [here, ..] => match remote {
            [] => None,
            [there, ..] => Some(Ends {
                proto: here.proto,
                source: here.addr,
                destination: there.addr,
            }),
        },
    }
}

/// Whether a check is due.
pub fn is_check_due(check: &Option<Check>, now: Moment) -> bool
    ensures { result ≡ is_due now check.now }
{
    match check {
        None => true,
        Some(check) => check.due <= now,
    }
}

/// Whether the fragments of both sides are known and fit a message.
fn fits(remote: &Option<IceCreds>, local: &IceCreds) -> bool
    ensures { result ≡ ufrags_fit remote.now local.now.ufrag }
{
    match remote {
        None => false,
        Some(remote) => { remote.ufrag.as_str().len() <= 255 && local.ufrag.as_str().len() <= 255 }
    }
}

impl PlainIce {
    #[tactic(auto, unfolding(crate::specs::Calls::restarted))]
    pub(crate) fn restart(&mut self, creds: IceCreds, keeps: bool) -> Result<(), AllocError>
        ensures ok { OnOk result (self.new ≡ restarted creds keeps self.old) }
        ensures err { OnErr result (self.new ≡ self.old) }
    {
        self.events.push_back(IceEvent::IceRestart)?;
        self.local = creds;
        self.check = None;
        if !keeps {
            self.candidates.clear();
        }
        Ok(())
    }

    #[tactic(auto, unfolding(crate::specs::Calls::withdrawn))]
    pub(crate) fn withdraw(&mut self, c: &Candidate) -> bool
        ensures { Invalidates self.old c.now result self.new }
    {
        if !self.candidates.holds(c) && !self.remote_candidates.holds(c) {
            return false;
        }
        self.candidates.remove(c);
        self.remote_candidates.remove(c);
        true
    }

    /// The pair that the agent can check.
    pub(crate) fn next_pair(&self) -> Option<Ends>
        ensures ends { result ≡ next_ends self.now }
        ensures fits { OnSome result (ufrags_fit self.now.settings.remote self.now.settings.local.ufrag ≡ true) }
    {
        if self.lite || self.nominated || !fits(&self.remote, &self.local) {
            return None;
        }
        first_pair(
            self.candidates.as_slice(),
            self.remote_candidates.as_slice(),
        )
    }

    pub(crate) fn wake(&self) -> Option<Moment>
        ensures { result ≡ ice_wake self.now }
    {
        match &self.check {
            Some(check) => Some(check.due),
            None => match self.next_pair() {
                Some(_) => Some(Moment::FAR_PAST),
                None => None,
            },
        }
    }

    pub(crate) fn sees(&self, a: Addr) -> bool
        ensures { result ≡ is_viable self.now a }
    {
        self.remote_candidates.holds_addr(&a) || holds_addr(&self.discovered, &a)
    }

    pub(crate) fn is_meant(&self, bytes: &[u8]) -> bool
        ensures { result ≡ accepts_bytes self.now bytes.now }
    {
        match read(bytes) {
            None => false,
            Some(message) => message.receiver == self.local.ufrag.as_str().as_bytes(),
        }
    }
}
