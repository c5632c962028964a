//! The places of streams, by what they are looked up by.
ghost use Rattle.std.specs.Prelude.{
  ◌≡◌,
  ◌≤◌,
  ◌<◌,
  ◌+◌,
  ◌*◌,
  ◌++◌,
  ◌∷◌,
  ◌||◌,
  ◌==◌,
  [],
  ℕ,
  Bool,
  nat_eq,
  filter,
  length,
  position,
  OnOk,
};
ghost use Rattle.std.specs.List.{list_any};
ghost use Rattle.indexmap.specs.IndexMap.{spare};
ghost use Rattle.indexmap.specs.IndexSet as set;
ghost use Rattle.rtc_plain_media.specs.declared.stream_row.StreamRow.{StreamRow};
ghost use Rattle.rtc_plain_media.specs.Streams.{Streams, has_ssrc, has_name, row_uses};
ghost use Rattle.rtc_plain_media.specs.StreamIndex.{
  same_name,
  uses_number,
  PutsPlace,
  UsesRoomOfOne,
  KeepsEntries,
  room_of,
  room_of_set,
  FindsStreams,
  FitsStreams,
  HasSpare,
  UsesRowOf,
  IndexesStreams,
};

use crate::line_key::LineKey;
use crate::stream_name::{LayerKey, StreamName};
use crate::stream_row::StreamRow;
use indexmap::{IndexMap, IndexSet};
use rtc_sdp_values::{Mid, Rid, Ssrc};
use std::alloc::{AllocError, Global};

/// The place of the first stream of each SSRC, that of the first of each line and layer, and the numbers that streams
/// and their retransmissions have.
pub struct StreamIndex {
    pub places: IndexMap<u32, usize>,
    pub names: IndexMap<StreamName, usize>,
    pub numbers: IndexSet<u32>,
}

/// Puts the place of an SSRC, if it has none, in room that was made.
fn put_place(places: &mut IndexMap<u32, usize>, number: u32, at: usize)
    requires { 0 < spare places.old }
    ensures put { PutsPlace nat_eq number at places.old places.new }
    ensures room { UsesRoomOfOne places.old places.new }
{
    if places.contains_key(&number) {
        return;
    }
    if places.insert(number, at).is_err() {
        unreachable!();
    }
}

/// Puts the place of a line and a layer, if they have none, in room that was made.
fn put_name(
    names: &mut IndexMap<StreamName, usize>,
    line: LineKey,
    layer: Option<LayerKey>,
    at: usize,
)
    requires { 0 < spare names.old }
    ensures put { PutsPlace same_name (record { line = line; layer = layer }) at names.old names.new }
    ensures room { UsesRoomOfOne names.old names.new }
{
    let name = StreamName { line, layer };
    if names.contains_key(&name) {
        return;
    }
    if names.insert(name, at).is_err() {
        unreachable!();
    }
}

/// Puts a number, in room that was made.
fn put_number(numbers: &mut IndexSet<u32>, number: u32)
    requires { 0 < set.spare numbers.old }
    ensures put { (n : ℕ) → set.contains nat_eq numbers.new n ≡ (set.contains nat_eq numbers.old n || (number == n)) }
    ensures spare { set.spare numbers.old ≤ set.spare numbers.new + 1 }
    ensures room { room_of_set numbers.old ≤ room_of_set numbers.new }
{
    if numbers.contains(&number) {
        return;
    }
    if numbers.insert(number).is_err() {
        unreachable!();
    }
}

/// Puts the numbers of a row, in room that was made.
fn put_numbers(numbers: &mut IndexSet<u32>, row: &StreamRow)
    requires { 2 ≤ set.spare numbers.old }
    ensures put { (n : ℕ) → set.contains nat_eq numbers.new n ≡ (set.contains nat_eq numbers.old n || uses_number n row.now) }
    ensures spare { set.spare numbers.old ≤ set.spare numbers.new + 2 }
    ensures room { room_of_set numbers.old ≤ room_of_set numbers.new }
{
    put_number(numbers, row.ssrc.0);
    if let Some(rtx) = row.rtx {
        put_number(numbers, rtx.0);
    }
}

/// Makes room for so many SSRCs in all, and for one more than there are.
fn reserve_places(places: &mut IndexMap<u32, usize>, count: usize) -> Result<(), AllocError>
    ensures kept { KeepsEntries places.old places.new }
    ensures spare { OnOk result (1 ≤ spare places.new) }
    ensures room { OnOk result (count ≤ room_of places.new) }
{
    places.reserve(count.saturating_sub(places.len()))?;
    places.reserve(1)
}

/// Makes room for so many names in all, and for one more than there are.
fn reserve_names(names: &mut IndexMap<StreamName, usize>, count: usize) -> Result<(), AllocError>
    ensures kept { KeepsEntries names.old names.new }
    ensures spare { OnOk result (1 ≤ spare names.new) }
    ensures room { OnOk result (count ≤ room_of names.new) }
{
    names.reserve(count.saturating_sub(names.len()))?;
    names.reserve(1)
}

/// Makes room for so many numbers in all, and for two more than there are.
fn reserve_numbers(numbers: &mut IndexSet<u32>, count: usize) -> Result<(), AllocError>
    ensures keys { numbers.new.keys ≡ numbers.old.keys }
    ensures kept { set.spare numbers.old ≤ set.spare numbers.new }
    ensures spare { OnOk result (2 ≤ set.spare numbers.new) }
    ensures room { OnOk result (count ≤ room_of_set numbers.new) }
{
    numbers.reserve(count.saturating_sub(numbers.len()))?;
    numbers.reserve(2)
}

// Written out, so that the proof of what owns an index sees one call.
impl Drop for StreamIndex {
    fn drop(self) {
        let StreamIndex {
            places: _places,
            names: _names,
            numbers: _numbers,
        } = self;
    }
}

impl StreamIndex {
    /// Of no streams. No memory is taken.
    pub fn new(alloc: Global) -> StreamIndex
        ensures { IndexesStreams result [] }
    {
        StreamIndex {
            places: IndexMap::new(alloc),
            names: IndexMap::new(alloc),
            numbers: IndexSet::new(alloc),
        }
    }

    /// The place of the first row of an SSRC.
    pub fn place_of(&self, ssrc: Ssrc) -> Option<usize>
        ensures { (rows : Streams) → FindsStreams self.now rows → result ≡ position (has_ssrc ssrc) rows }
    {
        self.places.get(&ssrc.0).copied()
    }

    /// The place of the first row of a line and a layer.
    pub fn place_of_name(&self, mid: Mid, rid: Option<Rid>) -> Option<usize>
        ensures { (rows : Streams) → FindsStreams self.now rows → result ≡ position (has_name mid rid) rows }
    {
        let name = StreamName::new(mid, rid);
        self.names.get(&name).copied()
    }

    /// Whether a row or its retransmissions have an SSRC.
    pub fn uses(&self, ssrc: Ssrc) -> bool
        ensures { (rows : Streams) → FindsStreams self.now rows → result ≡ list_any (row_uses ssrc) rows }
    {
        self.numbers.contains(&ssrc.0)
    }

    /// Makes room for so many rows in all, and for one more than there are.
    pub fn make_room(&mut self, count: usize) -> Result<(), AllocError>
        ensures kept { (rows : Streams) → IndexesStreams self.old rows → IndexesStreams self.new rows }
        ensures spare { OnOk result (HasSpare self.new 1) }
        ensures room { OnOk result (FitsStreams self.new count) }
    {
        let Some(numbers) = count.checked_mul(2) else {
            return Err(AllocError);
        };
        reserve_places(&mut self.places, count)?;
        reserve_names(&mut self.names, count)?;
        reserve_numbers(&mut self.numbers, numbers)
    }

    /// Puts a row that was pushed, in room that was made.
    pub fn add(&mut self, row: &StreamRow, at: usize)
        requires { HasSpare self.old 1 }
        ensures found { (before : Streams) → at ≡ length before → FindsStreams self.old before
            → FindsStreams self.new (before ++ row.now ∷ []) }
        ensures room { UsesRowOf self.old self.new }
    {
        put_place(&mut self.places, row.ssrc.0, at);
        let name = StreamName::of_row(row);
        put_name(&mut self.names, name.line, name.layer, at);
        put_numbers(&mut self.numbers, row);
    }

    fn clear(&mut self)
        ensures found { FindsStreams self.new [] }
        ensures spare { (count : ℕ) → FitsStreams self.old count → HasSpare self.new count }
        ensures room { (count : ℕ) → FitsStreams self.old count → FitsStreams self.new count }
    {
        self.places.clear();
        self.names.clear();
        self.numbers.clear();
    }

    /// Indexes these rows anew, in room that is there.
    pub fn rebuild(&mut self, rows: &[StreamRow])
        requires { FitsStreams self.old (length rows.now) }
        ensures { IndexesStreams self.new rows.now }
    {
        self.clear();
        for at in 0..rows.len() {
            self.add(&rows[at], at);
        }
    }

    /// Indexes rows some of which were removed. Nothing is done if none was.
    pub fn refresh(&mut self, rows: &[StreamRow], count: usize)
        requires fits { FitsStreams self.old count }
        requires fewer { length rows.now ≤ count }
        ensures { (before : Streams) (keeps : StreamRow → Bool) → rows.now ≡ filter keeps before → count ≡ length before
            → FindsStreams self.old before → IndexesStreams self.new rows.now }
    {
        if rows.len() != count {
            self.rebuild(rows);
        }
    }
}
