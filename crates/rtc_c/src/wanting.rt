//! Changes that are kept for the next offer.
ghost use Rattle.std.specs.Prelude.{◌≡◌, Result};
ghost use Rattle.rtc_c_handle.specs.Calls.{DiscardsChanges, OnPeer, WantsRead};
ghost use Rattle.rtc_c_handle.specs.WantedReads.{ReadsChannel, ReadsDirection, ReadsStop, media_change};
ghost use Rattle.rtc_c_handle.specs.declared.wanted_change.WantedChange.{WantedChange};
ghost use Rattle.rtc_c_handle.specs.declared.wanted_change.WantedChange.TheVariants.{Restart};
ghost use Rattle.rtc_c_handle.specs.Statuses.{code_of};
ghost use Rattle.rtc_c_handle.specs.declared.status.Status.{Status};

use rtc_c_handle::{
    ChannelSettings, Slot, add_channel, add_media, discard_changes, ice_restart, set_direction,
    stop_media,
};
use std::alloc::Global;

/// Keeps a new media line for the next offer, by the numbers of its kind and its direction.
#[unsafe(no_mangle)]
pub extern "C" fn gondyru_add_media(
    alloc: Global,
    slot: &mut Slot,
    media: u32,
    direction: u32,
) -> u32
    ensures { (status : Status) × (result ≡ code_of status)
        × WantsRead (media_change media direction) slot.old.handle.value status slot.new.handle.value }
{
    add_media(alloc, slot, media, direction).code()
}

/// Keeps a new data channel for the next offer.
#[unsafe(no_mangle)]
pub extern "C" fn gondyru_add_channel(
    alloc: Global,
    slot: &mut Slot,
    settings: &ChannelSettings,
    label: &[u8],
    protocol: &[u8],
) -> u32
    ensures { (status : Status) × (result ≡ code_of status)
        × (read : Result WantedChange Status)
        × ReadsChannel settings.now label.now protocol.now read
        × WantsRead read slot.old.handle.value status slot.new.handle.value }
{
    add_channel(alloc, slot, settings, label, protocol).code()
}

/// Keeps for the next offer that the direction of a media line is set.
#[unsafe(no_mangle)]
pub extern "C" fn gondyru_set_direction(
    alloc: Global,
    slot: &mut Slot,
    mid: &[u8],
    direction: u32,
) -> u32
    ensures { (status : Status) × (result ≡ code_of status)
        × (read : Result WantedChange Status)
        × ReadsDirection mid.now direction read
        × WantsRead read slot.old.handle.value status slot.new.handle.value }
{
    set_direction(alloc, slot, mid, direction).code()
}

/// Keeps for the next offer that a media line is stopped for good.
#[unsafe(no_mangle)]
pub extern "C" fn gondyru_stop_media(alloc: Global, slot: &mut Slot, mid: &[u8]) -> u32
    ensures { (status : Status) × (result ≡ code_of status)
        × (read : Result WantedChange Status) × ReadsStop mid.now read × WantsRead read slot.old.handle.value status slot.new.handle.value }
{
    stop_media(alloc, slot, mid).code()
}

/// Keeps for the next offer that ICE is restarted, with the local candidates kept or dropped.
#[unsafe(no_mangle)]
pub extern "C" fn gondyru_ice_restart(alloc: Global, slot: &mut Slot, keep: bool) -> u32
    ensures { (status : Status) × (result ≡ code_of status)
        × WantsRead (Ok (Restart keep)) slot.old.handle.value status slot.new.handle.value }
{
    ice_restart(alloc, slot, keep).code()
}

/// Drops the changes that wait for the next offer, as one that the peer refuses.
#[unsafe(no_mangle)]
pub extern "C" fn gondyru_discard_changes(alloc: Global, slot: &mut Slot) -> u32
    ensures { (status : Status) × (result ≡ code_of status)
        × OnPeer DiscardsChanges slot.old.handle.value status slot.new.handle.value }
{
    discard_changes(alloc, slot).code()
}
