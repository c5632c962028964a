//! Changes that arguments of C stand for.
ghost use Rattle.std.specs.Prelude.{◌≡◌, Result};
ghost use Rattle.rtc_c_handle.specs.Calls.{DiscardsChanges, OnPeer, WantsChange, WantsRead};
ghost use Rattle.rtc_c_handle.specs.WantedReads.{ReadsChannel, ReadsDirection, ReadsMid, ReadsStop, media_change, reliability_or};
ghost use Rattle.rtc_c_handle.specs.declared.wanted_change.WantedChange.TheVariants.{Restart};

use crate::numbers::{direction_of, kind_of, reliability_of};
use crate::{ChannelSettings, Held, Slot, Status, WantedChange};
use rtc::{Mid, Reliability};
use std::alloc::Global;
use std::str;

impl Held {
    // Keeps a change for the next offer.
    fn want(&mut self, change: WantedChange) -> Status
        ensures { WantsChange change self.old result self.new }
    {
        match self.wanted.push(change) {
            Ok(()) => Status::Done,
            Err(_) => Status::NoMemory,
        }
    }

    // Drops the changes that wait for the next offer.
    fn discard(&mut self) -> Status
        ensures { DiscardsChanges self.old result self.new }
    {
        self.wanted.clear();
        Status::Done
    }
}

// Keeps a change at the peer of a slot.
fn want_at(alloc: Global, slot: &mut Slot, change: WantedChange) -> Status
    ensures { WantsRead (Ok change) slot.old.handle.value result slot.new.handle.value }
{
    match slot.take(alloc) {
        None => Status::NoPeer,
        Some(mut held) => {
            let status = held.want(change);
            *slot = Slot::of_box(held);
            status
        }
    }
}

// Keeps the change that arguments stand for.
fn want_read(alloc: Global, slot: &mut Slot, read: Result<WantedChange, Status>) -> Status
    ensures { WantsRead read slot.old.handle.value result slot.new.handle.value }
{
    match read {
        Ok(change) => want_at(alloc, slot, change),
        Err(refusal) => refusal,
    }
}

fn read_media(media: u32, direction: u32) -> Result<WantedChange, Status>
    ensures { result ≡ media_change media direction }
{
    let Some(kind) = kind_of(media) else {
        return Err(Status::BadNumber);
    };
    let Some(dir) = direction_of(direction) else {
        return Err(Status::BadNumber);
    };
    Ok(WantedChange::Media(kind, dir))
}

fn read_mid(mid: &[u8]) -> Option<Mid>
    ensures { ReadsMid mid.now result }
{
    let Ok(text) = str::from_utf8(mid) else {
        return None;
    };
    Mid::read(text)
}

fn read_direction(mid: &[u8], direction: u32) -> Result<WantedChange, Status>
    ensures { ReadsDirection mid.now direction result }
{
    let Some(mid) = read_mid(mid) else {
        return Err(Status::BadMid);
    };
    let Some(dir) = direction_of(direction) else {
        return Err(Status::BadNumber);
    };
    Ok(WantedChange::Direction(mid, dir))
}

fn read_stop(mid: &[u8]) -> Result<WantedChange, Status>
    ensures { ReadsStop mid.now result }
{
    let Some(mid) = read_mid(mid) else {
        return Err(Status::BadMid);
    };
    Ok(WantedChange::Stop(mid))
}

fn read_reliability(settings: &ChannelSettings) -> Result<Reliability, Status>
    ensures { result ≡ reliability_or settings.now }
{
    match reliability_of(settings.reliability, settings.limit) {
        Some(reliability) => Ok(reliability),
        None => Err(Status::BadNumber),
    }
}

fn read_channel(
    alloc: Global,
    settings: &ChannelSettings,
    label: &[u8],
    protocol: &[u8],
) -> Result<WantedChange, Status>
    ensures { ReadsChannel settings.now label.now protocol.now result }
{
    let Ok(label) = str::from_utf8(label) else {
        return Err(Status::NotUtf8);
    };
    let Ok(protocol) = str::from_utf8(protocol) else {
        return Err(Status::NotUtf8);
    };
    let reliability = read_reliability(settings)?;
    let Ok(config) = settings.config(alloc, reliability, label, protocol) else {
        return Err(Status::NoMemory);
    };
    Ok(WantedChange::Channel(config))
}

/// Keeps a new media line for the next offer, by the numbers of its kind and its direction.
pub fn add_media(alloc: Global, slot: &mut Slot, media: u32, direction: u32) -> Status
    ensures { WantsRead (media_change media direction) slot.old.handle.value result slot.new.handle.value }
{
    want_read(alloc, slot, read_media(media, direction))
}

/// Keeps a new data channel for the next offer.
pub fn add_channel(
    alloc: Global,
    slot: &mut Slot,
    settings: &ChannelSettings,
    label: &[u8],
    protocol: &[u8],
) -> Status
    ensures { (read : Result WantedChange Status) × ReadsChannel settings.now label.now protocol.now read
        × WantsRead read slot.old.handle.value result slot.new.handle.value }
{
    let read = read_channel(alloc, settings, label, protocol);
    want_read(alloc, slot, read)
}

/// Keeps for the next offer that the direction of a media line is set (RFC 8829, section 4.2.3).
pub fn set_direction(alloc: Global, slot: &mut Slot, mid: &[u8], direction: u32) -> Status
    ensures { (read : Result WantedChange Status) × ReadsDirection mid.now direction read
        × WantsRead read slot.old.handle.value result slot.new.handle.value }
{
    let read = read_direction(mid, direction);
    want_read(alloc, slot, read)
}

/// Keeps for the next offer that a media line is stopped for good (RFC 8829, section 4.2.1).
pub fn stop_media(alloc: Global, slot: &mut Slot, mid: &[u8]) -> Status
    ensures { (read : Result WantedChange Status) × ReadsStop mid.now read
        × WantsRead read slot.old.handle.value result slot.new.handle.value }
{
    let read = read_stop(mid);
    want_read(alloc, slot, read)
}

/// Keeps for the next offer that ICE is restarted, with the local candidates kept or dropped (RFC 8839, section 4.4.1.1.1).
pub fn ice_restart(alloc: Global, slot: &mut Slot, keep: bool) -> Status
    ensures { WantsRead (Ok (Restart keep)) slot.old.handle.value result slot.new.handle.value }
{
    want_at(alloc, slot, WantedChange::Restart(keep))
}

/// Drops the changes that wait for the next offer, as one that the peer refuses.
pub fn discard_changes(alloc: Global, slot: &mut Slot) -> Status
    ensures { OnPeer DiscardsChanges slot.old.handle.value result slot.new.handle.value }
{
    match slot.take(alloc) {
        None => Status::NoPeer,
        Some(mut held) => {
            let status = held.discard();
            *slot = Slot::of_box(held);
            status
        }
    }
}
