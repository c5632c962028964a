//! What offers and answers carry of their peer.
ghost use Rattle.std.specs.Prelude.{◌≡◌, [], IfOk, OnOk, MatchOption, Some, None, option_map};
ghost use Rattle.rtc_parts.specs.IceMeaning.{IceSettings};
ghost use Rattle.rtc_peer_core.specs.MadeSdp.{
  creds_in_use as CredsInUse,
  candidates_in_use as CandidatesInUse,
  role_for as RoleFor,
  role_after as RoleAfter,
  setup_of_role as SetupOfRole,
};

use rtc_parts::{Dtls, DtlsInstance, IceAgent};
use rtc_peer_core::SdpHead;
use rtc_sdp_values::{Candidate, Fingerprint, IceCreds, Setup};
use rtc_wire::{Bytes, Seq, Text, copy_all};
use rtc_wire_drops::{fill, set, whole};
use std::alloc::{AllocError, Global};

// Puts the credentials of a restart that is asked for, or else those that are in use.
fn put_creds<I: IceAgent>(
    ice: &I,
    restart: Option<(&IceCreds, bool)>,
    creds: &mut IceCreds,
) -> Result<(), AllocError>
    ensures { OnOk result (creds.new
        ≡ CredsInUse (option_map (λ asked. (asked.0.now, asked.1)) restart.entry) (I.ice.settings ice.now)) }
{
    match restart {
        None => fill(creds, ice.local_credentials()),
        Some((asked, _)) => fill(creds, asked),
    }
}

// The local candidates, unless a restart does not keep them.
fn candidates_in_use<I: IceAgent>(
    alloc: Global,
    ice: &I,
    restart: Option<(&IceCreds, bool)>,
) -> Result<Seq<Candidate>, AllocError>
    ensures { IfOk result (λ candidates. candidates
        ≡ CandidatesInUse (option_map (λ asked. (asked.0.now, asked.1)) restart.entry) (I.ice.settings ice.now)) }
{
    if let Some((_, false)) = restart {
        return Ok(Seq::empty(alloc));
    }
    let copied = copy_all(alloc, ice.local_candidates())?;
    Ok(Seq::new(copied))
}

/// The role of this side by the setup of the other side.
pub fn role_for(told: Option<Setup>) -> bool
    ensures { result ≡ RoleFor told }
{
    match told {
        None | Some(Setup::ActPass) | Some(Setup::Active) => false,
        Some(Setup::Passive) => true,
    }
}

/// The first role, or else that by the setup of the other side.
pub fn role_after(role: Option<bool>, told: Option<Setup>) -> bool
    ensures { result ≡ RoleAfter role told }
{
    match role {
        None => role_for(told),
        Some(role) => role,
    }
}

/// The setup that announces a role.
pub fn setup_of_role(active: bool) -> Setup
    ensures { result ≡ SetupOfRole active }
{
    if active {
        Setup::Active
    } else {
        Setup::Passive
    }
}

// Puts what the parts of a peer have.
fn put_parts<I: IceAgent, D: DtlsInstance>(
    alloc: Global,
    ice: &I,
    dtls: &Dtls<D>,
    restart: Option<(&IceCreds, bool)>,
    head: &mut SdpHead,
) -> Result<(), AllocError>
    ensures { OnOk result (head.new ≡ record head.old {
      creds = CredsInUse (option_map (λ asked. (asked.0.now, asked.1)) restart.entry) (I.ice.settings ice.now);
      fingerprint = dtls.now.local;
      candidates = CandidatesInUse (option_map (λ asked. (asked.0.now, asked.1)) restart.entry) (I.ice.settings ice.now);
    }) }
{
    put_creds(ice, restart, &mut head.creds)?;
    let candidates = candidates_in_use(alloc, ice, restart)?;
    set(&mut head.candidates, candidates);
    fill(&mut head.fingerprint, dtls.local_fingerprint())
}

fn empty_text(alloc: Global) -> Text
    ensures { result ≡ [] }
{
    Text::new(String::new(alloc))
}

/// What a description carries of its peer, whether it restarts ICE or not.
pub fn make_head<I: IceAgent, D: DtlsInstance>(
    alloc: Global,
    session: u64,
    ice: &I,
    dtls: &Dtls<D>,
    setup: Setup,
    restart: Option<(&IceCreds, bool)>,
    max_message_size: u32,
    sctp_init: Option<Text>,
) -> Result<SdpHead, AllocError>
    ensures { IfOk result (λ head. head ≡ record {
      session = session;
      lite = (I.ice.settings ice.now).lite;
      creds = CredsInUse (option_map (λ asked. (asked.0.now, asked.1)) restart.entry) (I.ice.settings ice.now);
      fingerprint = dtls.now.local;
      setup = setup;
      candidates = CandidatesInUse (option_map (λ asked. (asked.0.now, asked.1)) restart.entry) (I.ice.settings ice.now);
      max_message_size = max_message_size;
      sctp_init = sctp_init;
    }) }
{
    let mut head = SdpHead {
        session,
        lite: ice.ice_lite(),
        creds: IceCreds {
            ufrag: empty_text(alloc),
            pass: empty_text(alloc),
        },
        fingerprint: Fingerprint {
            hash_func: empty_text(alloc),
            bytes: Bytes::new(Vec::new(alloc)),
        },
        setup,
        candidates: Seq::empty(alloc),
        max_message_size,
        sctp_init,
    };
    let put = put_parts(alloc, ice, dtls, restart, &mut head);
    whole(head, put)
}
