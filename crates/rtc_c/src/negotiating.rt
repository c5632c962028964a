//! Peers, offers and answers.
ghost use Rattle.std.specs.Prelude.{◌≡◌, None};
ghost use Rattle.rtc_c_handle.specs.Calls.{AnswerGiven, OfferGiven, OfferTakenBack, OnPeer, OnPeerWithText, PutsPeer};
ghost use Rattle.rtc_c_handle.specs.Negotiation.{Offers};
ghost use Rattle.rtc_c_handle.specs.Statuses.{code_of};
ghost use Rattle.rtc_c_handle.specs.declared.status.Status.{Status};

use rtc_c_handle::{
    Settings, Slot, accept_answer, accept_offer, free_peer, new_peer, offer, roll_back,
};
use std::alloc::Global;

/// Puts a new peer into an empty slot, with its address, ready to negotiate.
#[unsafe(no_mangle)]
pub extern "C" fn gondyru_new_peer(alloc: Global, slot: &mut Slot, settings: &Settings) -> u32
    ensures { (status : Status) × (result ≡ code_of status)
        × PutsPeer alloc settings.now slot.old.handle.value status slot.new.handle.value }
{
    new_peer(alloc, slot, settings).code()
}

/// Frees the peer of a slot, if it has one.
#[unsafe(no_mangle)]
pub extern "C" fn gondyru_free_peer(alloc: Global, slot: &mut Slot)
    ensures { slot.new.handle.value ≡ None }
{
    free_peer(alloc, slot);
}

/// Offers the wanted changes. The offer is then the text to be sent.
#[unsafe(no_mangle)]
pub extern "C" fn gondyru_offer(alloc: Global, slot: &mut Slot) -> u32
    ensures { (status : Status) × (result ≡ code_of status)
        × OnPeer Offers slot.old.handle.value status slot.new.handle.value }
{
    offer(alloc, slot).code()
}

/// Accepts an offer of the other side, whose answer is then the text to be sent.
#[unsafe(no_mangle)]
pub extern "C" fn gondyru_accept_offer(alloc: Global, slot: &mut Slot, text: &[u8]) -> u32
    ensures { (status : Status) × (result ≡ code_of status)
        × OnPeerWithText text.now (λ h returned g. OfferGiven text.now h returned g) slot.old.handle.value status slot.new.handle.value }
{
    accept_offer(alloc, slot, text).code()
}

/// Accepts the answer of the other side to the offer of this side.
#[unsafe(no_mangle)]
pub extern "C" fn gondyru_accept_answer(alloc: Global, slot: &mut Slot, text: &[u8]) -> u32
    ensures { (status : Status) × (result ≡ code_of status)
        × OnPeerWithText text.now (λ h returned g. AnswerGiven text.now h returned g) slot.old.handle.value status slot.new.handle.value }
{
    accept_answer(alloc, slot, text).code()
}

/// Rolls the offer of this side back.
#[unsafe(no_mangle)]
pub extern "C" fn gondyru_roll_back(alloc: Global, slot: &mut Slot) -> u32
    ensures { (status : Status) × (result ≡ code_of status)
        × OnPeer OfferTakenBack slot.old.handle.value status slot.new.handle.value }
{
    roll_back(alloc, slot).code()
}
