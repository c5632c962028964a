//! Changes, staged at a peer and offered.
ghost use Rattle.std.specs.Prelude.{◌≡◌};
ghost use Rattle.rtc_c_handle.specs.WantedChanges.{AddsConfigured, AddsUnnamed, EndsLine, MakesOffer, StagesIceRestart};
ghost use Rattle.rtc_c_handle.specs.WantedChanges.{StagesChange, StagesChanges, TurnsLine};

use crate::{Made, WantedChange};
use rtc::{
    ChannelConfig, CountIds, Direction, MediaKind, Mid, PlainAssociation, PlainDtls, PlainIce,
    PlainMedia, PlainRtc, RtcError, SdpApi, TryCopy,
};

fn add_line(
    api: &mut SdpApi<'_, PlainIce, PlainDtls, PlainAssociation, PlainMedia, CountIds>,
    kind: MediaKind,
    dir: Direction,
) -> Result<(), RtcError>
    ensures same_reference { api.new.rtc.ghost_name ≡ api.old.rtc.ghost_name }
    ensures connection { api.new.rtc.now.transport ≡ api.old.rtc.now.transport }
    ensures adds { AddsUnnamed kind dir api.old.rtc.now.core result api.new.rtc.now.core }
{
    match api.add_media(kind, dir, None, None, None) {
        Ok(_mid) => Ok(()),
        Err(_) => Err(RtcError::Alloc),
    }
}

fn add_channel(
    api: &mut SdpApi<'_, PlainIce, PlainDtls, PlainAssociation, PlainMedia, CountIds>,
    config: &ChannelConfig,
) -> Result<(), RtcError>
    ensures same_reference { api.new.rtc.ghost_name ≡ api.old.rtc.ghost_name }
    ensures connection { api.new.rtc.now.transport ≡ api.old.rtc.now.transport }
    ensures adds { AddsConfigured config.now api.old.rtc.now.core result api.new.rtc.now.core }
{
    let Ok(config) = config.copy() else {
        return Err(RtcError::Alloc);
    };
    match api.add_channel_with_config(config) {
        Ok(_id) => Ok(()),
        Err(error) => Err(error),
    }
}

fn turn_line(
    api: &mut SdpApi<'_, PlainIce, PlainDtls, PlainAssociation, PlainMedia, CountIds>,
    mid: Mid,
    dir: Direction,
) -> Result<(), RtcError>
    ensures same_reference { api.new.rtc.ghost_name ≡ api.old.rtc.ghost_name }
    ensures connection { api.new.rtc.now.transport ≡ api.old.rtc.now.transport }
    ensures turns { TurnsLine mid dir api.old.rtc.now.core result api.new.rtc.now.core }
{
    match api.set_direction(mid, dir) {
        Ok(_changed) => Ok(()),
        Err(_) => Err(RtcError::Alloc),
    }
}

fn end_line(
    api: &mut SdpApi<'_, PlainIce, PlainDtls, PlainAssociation, PlainMedia, CountIds>,
    mid: Mid,
) -> Result<(), RtcError>
    ensures same_reference { api.new.rtc.ghost_name ≡ api.old.rtc.ghost_name }
    ensures connection { api.new.rtc.now.transport ≡ api.old.rtc.now.transport }
    ensures ends { EndsLine mid api.old.rtc.now.core result api.new.rtc.now.core }
{
    match api.stop_media(mid) {
        Ok(_changed) => Ok(()),
        Err(_) => Err(RtcError::Alloc),
    }
}

fn restart_ice(
    api: &mut SdpApi<'_, PlainIce, PlainDtls, PlainAssociation, PlainMedia, CountIds>,
    keep: bool,
) -> Result<(), RtcError>
    ensures same_reference { api.new.rtc.ghost_name ≡ api.old.rtc.ghost_name }
    ensures connection { api.new.rtc.now.transport ≡ api.old.rtc.now.transport }
    ensures restarts { StagesIceRestart keep api.old.rtc.now.core result api.new.rtc.now.core }
{
    match api.ice_restart(keep) {
        Ok(_creds) => Ok(()),
        Err(_) => Err(RtcError::Alloc),
    }
}

fn stage_change(
    api: &mut SdpApi<'_, PlainIce, PlainDtls, PlainAssociation, PlainMedia, CountIds>,
    change: &WantedChange,
) -> Result<(), RtcError>
    ensures same_reference { api.new.rtc.ghost_name ≡ api.old.rtc.ghost_name }
    ensures connection { api.new.rtc.now.transport ≡ api.old.rtc.now.transport }
    ensures stages { StagesChange change.now api.old.rtc.now.core result api.new.rtc.now.core }
{
    match change {
        WantedChange::Media(kind, dir) => add_line(api, *kind, *dir),
        WantedChange::Channel(config) => add_channel(api, config),
        WantedChange::Direction(mid, dir) => turn_line(api, *mid, *dir),
        WantedChange::Stop(mid) => end_line(api, *mid),
        WantedChange::Restart(keep) => restart_ice(api, *keep),
    }
}

// Stages changes in order, up to the first that fails.
fn stage_changes(
    api: &mut SdpApi<'_, PlainIce, PlainDtls, PlainAssociation, PlainMedia, CountIds>,
    changes: &[WantedChange],
) -> Result<(), RtcError>
    ensures same_reference { api.new.rtc.ghost_name ≡ api.old.rtc.ghost_name }
    ensures connection { api.new.rtc.now.transport ≡ api.old.rtc.now.transport }
    ensures stages { StagesChanges changes.now api.old.rtc.now.core result api.new.rtc.now.core }
{
    for change in changes {
        match stage_change(api, change) {
            Ok(()) => {}
            Err(error) => return Err(error),
        }
    }
    Ok(())
}

/// Stages changes at a peer, and applies them.
pub(crate) fn make_offer(rtc: &mut PlainRtc, changes: &[WantedChange]) -> Made
    ensures makes { MakesOffer changes.now rtc.old.core result rtc.new.core }
    ensures connection { rtc.new.transport ≡ rtc.old.transport }
{
    let mut api = rtc.sdp_api();
    match stage_changes(&mut api, changes) {
        Ok(()) => {}
        Err(error) => return Made::Failed(error),
    }
    match api.apply() {
        Ok(Some((offer, token))) => Made::Offer(offer, token),
        Ok(None) => Made::Nothing,
        Err(_) => Made::Failed(RtcError::Alloc),
    }
}
