//! Calls on the peer of a slot that negotiate.
ghost use Rattle.std.specs.Prelude.{◌≡◌, None};
ghost use Rattle.rtc_c_handle.specs.Calls.{AnswerGiven, OfferGiven, OfferTakenBack, OnPeer, OnPeerWithText, PutsNew, PutsPeer};
ghost use Rattle.rtc_c_handle.specs.Negotiation.{Offers};

use crate::settings::role_of;
use crate::{Held, Settings, Slot, Status};
use std::alloc::Global;
use std::str;

// Puts a new peer of a role into an empty slot.
fn put_peer(alloc: Global, slot: &mut Slot, settings: &Settings, role: Option<bool>) -> Status
    requires { slot.old.handle.value ≡ None }
    ensures { PutsNew alloc settings.now role result slot.new.handle.value }
{
    let Ok(held) = Held::build(alloc, settings, role) else {
        return Status::NoMemory;
    };
    let Ok(held) = Box::new(alloc, held) else {
        return Status::NoMemory;
    };
    *slot = Slot::of_box(held);
    Status::Done
}

/// Puts a new peer into an empty slot, with its address, ready to negotiate.
pub fn new_peer(alloc: Global, slot: &mut Slot, settings: &Settings) -> Status
    ensures { PutsPeer alloc settings.now slot.old.handle.value result slot.new.handle.value }
{
    if slot.is_full() {
        return Status::HasPeer;
    }
    match role_of(settings.role) {
        Some(role) => put_peer(alloc, slot, settings, role),
        None => Status::BadNumber,
    }
}

/// Frees the peer of a slot, if it has one.
pub fn free_peer(alloc: Global, slot: &mut Slot)
    ensures { slot.new.handle.value ≡ None }
{
    let _gone = slot.take(alloc);
}

/// Offers the wanted changes. The offer is then the text to be sent.
pub fn offer(alloc: Global, slot: &mut Slot) -> Status
    ensures { OnPeer Offers slot.old.handle.value result slot.new.handle.value }
{
    match slot.take(alloc) {
        None => Status::NoPeer,
        Some(mut held) => {
            let status = held.offer();
            *slot = Slot::of_box(held);
            status
        }
    }
}

fn accept_offer_of(alloc: Global, slot: &mut Slot, text: &str) -> Status
    ensures { OnPeer (λ h status g. OfferGiven text.now h status g) slot.old.handle.value result slot.new.handle.value }
{
    match slot.take(alloc) {
        None => Status::NoPeer,
        Some(mut held) => {
            let returned = held.accept_offer(alloc, text);
            *slot = Slot::of_box(held);
            Status::of_call(returned)
        }
    }
}

/// Accepts an offer of the other side, whose answer is then the text to be sent.
pub fn accept_offer(alloc: Global, slot: &mut Slot, text: &[u8]) -> Status
    ensures { OnPeerWithText text.now (λ h status g. OfferGiven text.now h status g) slot.old.handle.value result slot.new.handle.value }
{
    let Ok(text) = str::from_utf8(text) else {
        return Status::NotUtf8;
    };
    accept_offer_of(alloc, slot, text)
}

fn accept_answer_of(alloc: Global, slot: &mut Slot, text: &str) -> Status
    ensures { OnPeer (λ h status g. AnswerGiven text.now h status g) slot.old.handle.value result slot.new.handle.value }
{
    match slot.take(alloc) {
        None => Status::NoPeer,
        Some(mut held) => {
            let returned = held.accept_answer(alloc, text);
            *slot = Slot::of_box(held);
            Status::of_token(returned)
        }
    }
}

/// Accepts the answer of the other side to the offer of this side.
pub fn accept_answer(alloc: Global, slot: &mut Slot, text: &[u8]) -> Status
    ensures { OnPeerWithText text.now (λ h status g. AnswerGiven text.now h status g) slot.old.handle.value result slot.new.handle.value }
{
    let Ok(text) = str::from_utf8(text) else {
        return Status::NotUtf8;
    };
    accept_answer_of(alloc, slot, text)
}

/// Rolls the offer of this side back.
pub fn roll_back(alloc: Global, slot: &mut Slot) -> Status
    ensures { OnPeer OfferTakenBack slot.old.handle.value result slot.new.handle.value }
{
    match slot.take(alloc) {
        None => Status::NoPeer,
        Some(mut held) => {
            let returned = held.roll_back();
            *slot = Slot::of_box(held);
            Status::of_token(returned)
        }
    }
}
