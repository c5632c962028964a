//! Places of streams, found by their ids.
ghost use Rattle.std.specs.Prelude.{◌≡◌, ◌<◌, ◌+◌, ◌^◌, ◌/◌, ◌%◌, ◌==◌, ℕ, Some, None, OnOk, length, slice_index_or, true};
ghost use Rattle.std.specs.Prelude.{if◌then◌else◌, slice_set};
ghost use Rattle.rtc_assoc_state.specs.Places.{place_in_slot, slot_in, place_at, has_slot, HasPlaceRoom};

use std::alloc::{AllocError, Global};

/// The slots of the streams whose ids have one upper byte, by the lower one.
#[derive(Debug, Drop)]
pub struct Slots {
    /// Each has one more than a place, or 0 where there is none.
    pub slots: Vec<usize>,
}

/// The places of streams. The upper byte of an id is its list, and the lower byte its slot. A list is made, and grows, if it is
/// needed.
#[derive(Debug, Drop)]
pub struct Places {
    pub alloc: Global,
    pub lists: Vec<Slots>,
}

fn place_in(slots: &[usize], at: usize) -> Option<usize>
    ensures { result ≡ place_in_slot (slice_index_or slots.now at 0) }
{
    if at >= slots.len() {
        return None;
    }
    let slot = slots[at];
    if slot == 0 {
        return None;
    }
    Some(slot - 1)
}

// Adds empty slots up to one.
fn add_slots(slots: &mut Vec<usize>, at: usize) -> Result<(), AllocError>
    ensures same { (k : ℕ) → slice_index_or slots.new.items k 0 ≡ slice_index_or slots.old.items k 0 }
    ensures room { OnOk result (at < length slots.new.items) }
{
    'slots: while slots.len() <= at {
        slots.reserve(1)?;
        slots.push_reserved(0);
    }
    Ok(())
}

fn make_slot(list: &mut Slots, at: usize) -> Result<(), AllocError>
    ensures same { (k : ℕ) → slice_index_or list.new.slots.items k 0 ≡ slice_index_or list.old.slots.items k 0 }
    ensures room { OnOk result (at < length list.new.slots.items) }
{
    add_slots(&mut list.slots, at)
}

fn put_slot(list: &mut Slots, at: usize, slot: usize)
    requires { at < length list.old.slots.items }
    ensures { list.new.slots.items ≡ slice_set list.old.slots.items at slot }
{
    list.slots[at] = slot;
}

// Adds empty lists up to one.
fn add_lists(alloc: Global, lists: &mut Vec<Slots>, list: usize) -> Result<(), AllocError>
    ensures same { (l k : ℕ) → slot_in lists.new.items l k ≡ slot_in lists.old.items l k }
    ensures room { OnOk result (list < length lists.new.items) }
{
    'lists: while lists.len() <= list {
        lists.reserve(1)?;
        lists.push_reserved(Slots {
            slots: Vec::new(alloc),
        });
    }
    Ok(())
}

fn list_of(id: u16) -> usize
    ensures { result ≡ id / 256 }
{
    (id / 256) as usize
}

fn slot_of(id: u16) -> usize
    ensures { result ≡ id % 256 }
{
    (id % 256) as usize
}

impl Places {
    /// No places. No memory is taken.
    pub fn new(alloc: Global) -> Places
        ensures { (id : ℕ) → place_at result id ≡ None }
    {
        Places {
            alloc,
            lists: Vec::new(alloc),
        }
    }

    /// The place of a stream.
    pub fn find(&self, id: u16) -> Option<usize>
        ensures { result ≡ place_at self.now id }
    {
        let list = list_of(id);
        if list >= self.lists.len() {
            return None;
        }
        place_in(self.lists[list].slots.as_slice(), slot_of(id))
    }

    /// Makes room for the place of a stream.
    pub fn make_room(&mut self, id: u16) -> Result<(), AllocError>
        ensures same { (q : ℕ) → place_at self.new q ≡ place_at self.old q }
        ensures room { OnOk result (HasPlaceRoom id self.new) }
    {
        let list = list_of(id);
        add_lists(self.alloc, &mut self.lists, list)?;
        make_slot(&mut self.lists[list], slot_of(id))?;
        Ok(())
    }

    /// Keeps the place of a stream, in room that was made.
    pub fn keep(&mut self, id: u16, place: usize)
        requires room { HasPlaceRoom id self.old }
        requires fits { place + 1 < 2 ^ 64 }
        ensures { (q : ℕ) → place_at self.new q ≡ (if id == q then Some place else place_at self.old q) }
    {
        let list = list_of(id);
        put_slot(&mut self.lists[list], slot_of(id), place + 1);
    }
}
