//! The streams that were given to channels or are held.
ghost use Rattle.std.specs.Prelude.{◌≡◌, ◌==◌, ◌+◌, ◌-◌, ◌<◌, ◌^◌, ◌&&◌, IsSome, OnOk, OnErr, Some, None, map, filter, if◌then◌else◌};
ghost use Rattle.std.specs.BTreeMap.{get, IsOrdered};
ghost use Rattle.std.specs.Ordering.{nat_cmp};
ghost use Rattle.rtc_channels.specs.Granted.{owner_at, holds_at, unheld_entry, is_owned_entry};

use rtc_wire::ChannelId;
use std::alloc::AllocError;
use std::collections::BTreeMap;

/// The channel that a stream was given to, and how often the stream is held.
#[derive(Clone, Copy, Debug)]
pub struct Grant {
    pub owner: Option<ChannelId>,
    pub holds: u64,
}

/// What is kept of streams. One that no channel has and that is not held needs no entry.
pub type Grants = BTreeMap<u16, Grant>;

/// The channel that a stream was given to.
pub fn owner_of(grants: &Grants, stream: u16) -> Option<ChannelId>
    ensures { result ≡ owner_at grants.now stream }
{
    match grants.get(&stream) {
        Some(grant) => grant.owner,
        None => None,
    }
}

/// How often a stream is held.
pub fn count_holds(grants: &Grants, stream: u16) -> u64
    ensures { result ≡ holds_at grants.now stream }
{
    match grants.get(&stream) {
        Some(grant) => grant.holds,
        None => 0,
    }
}

/// Gives a stream to a channel. Its holds are unchanged.
pub fn give(grants: &mut Grants, stream: u16, id: ChannelId) -> Result<(), AllocError>
    ensures owner { OnOk result ((q : _) → owner_at grants.new q ≡ (if q == stream then Some id else owner_at grants.old q)) }
    ensures holds { OnOk result ((q : _) → holds_at grants.new q ≡ holds_at grants.old q) }
    ensures refused { OnErr result (grants.new.entries ≡ grants.old.entries) }
{
    let holds = count_holds(grants, stream);
    let owner = Some(id);
    grants.insert(stream, Grant { owner, holds })?;
    Ok(())
}

// Replaces an entry, or drops it if nothing has to be kept.
fn replace(grants: &mut Grants, stream: u16, grant: Grant)
    requires { IsSome (get nat_cmp grants.old stream) }
    ensures owner { (q : _) → owner_at grants.new q ≡ (if q == stream then grant.owner else owner_at grants.old q) }
    ensures holds { (q : _) → holds_at grants.new q ≡ (if q == stream then grant.holds else holds_at grants.old q) }
{
    if grant.owner.is_none() && grant.holds == 0 {
        grants.remove(&stream);
        return;
    }
    if let Some(own) = grants.get_mut(&stream) {
        *own = grant;
    }
}

/// Takes a stream from its channel. It is held once more if a reset is pending.
pub fn release(grants: &mut Grants, stream: u16, pending: bool)
    requires owned { IsSome (owner_at grants.old stream) }
    requires few { holds_at grants.old stream < 2 ^ 64 - 1 }
    ensures owner { (q : _) → owner_at grants.new q ≡ (if q == stream then None else owner_at grants.old q) }
    ensures holds { (q : _) → holds_at grants.new q
        ≡ (if pending && (q == stream) then holds_at grants.old q + 1 else holds_at grants.old q) }
{
    let Some(grant) = grants.get(&stream).copied() else {
        return;
    };
    let holds = if pending {
        grant.holds + 1
    } else {
        grant.holds
    };
    let owner = None;
    replace(grants, stream, Grant { owner, holds });
}

/// One hold of a stream fewer, if it has any.
pub fn drop_hold(grants: &mut Grants, stream: u16)
    ensures owner { (q : _) → owner_at grants.new q ≡ owner_at grants.old q }
    ensures holds { (q : _) → holds_at grants.new q ≡ (if q == stream then holds_at grants.old q - 1 else holds_at grants.old q) }
{
    let Some(grant) = grants.get(&stream).copied() else {
        return;
    };
    if grant.holds == 0 {
        return;
    }
    let holds = grant.holds - 1;
    let owner = grant.owner;
    replace(grants, stream, Grant { owner, holds });
}

// No stream is held any more.
fn clear_holds(grants: &mut Grants)
    ensures { grants.new.entries ≡ map unheld_entry grants.old.entries }
{
    grants.retain(|_, grant| {
        grant.holds = 0;
        true
    });
}

// Drops the entries of streams that no channel has.
fn drop_unowned(grants: &mut Grants)
    ensures entries { grants.new.entries ≡ filter is_owned_entry grants.old.entries }
    ensures ordered { IsOrdered nat_cmp grants.old }
{
    grants.retain(|_, grant| grant.owner.is_some());
}

/// Drops every hold.
pub fn drop_holds(grants: &mut Grants)
    ensures owner { (q : _) → owner_at grants.new q ≡ owner_at grants.old q }
    ensures holds { (q : _) → holds_at grants.new q ≡ 0 }
{
    clear_holds(grants);
    drop_unowned(grants);
}
