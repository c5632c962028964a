//! Sets of stream ids.
ghost use Rattle.std.specs.Prelude.{◌≡◌, ◌≢◌, ℕ, false, length};
ghost use Rattle.rtc_sctp_values.specs.StreamIds.{has_id, IdFrom};
ghost use Rattle.rtc_sctp_values.specs.Words.{IsSummary, BitFrom};

use crate::words::{bit_behind, has_bit, put_bit, summarize};
use std::marker::Model;

/// A set of stream ids, of 65,536 bits under two levels that sum them up. It never allocates.
#[derive(Debug, Drop)]
pub struct StreamSet {
    // A bit for each id.
    words: [u64; 1024],
    // A bit for each of `words`: whether it has a bit.
    groups: [u64; 16],
    // A bit for each of `groups`.
    top: [u64; 1],
}

impl Model for StreamSet {
    ghost use Rattle.rtc_sctp_values.specs.StreamIds.{StreamIds};
    ghost use Rattle.rtc_sctp_values.specs.Words.{AreSetLevels};

    ghost Value = { StreamIds };

    ghost view = { λ set. record { words = set.words } };

    ghost invariant = { λ set. AreSetLevels set.words set.groups set.top };
}

// The first bit of the one word at the top from a place on.
fn top_from(top: &[u64], from: usize) -> Option<usize>
    requires { length top.now ≡ 1 }
    ensures { BitFrom top.now from result }
{
    if from >= 64 {
        return None;
    }
    bit_behind(top, from)
}

// The first bit of the groups from a place on.
fn group_from(top: &[u64], groups: &[u64], from: usize) -> Option<usize>
    requires top { length top.now ≡ 1 }
    requires groups { length groups.now ≡ 16 }
    requires summary { IsSummary top.now groups.now }
    ensures { BitFrom groups.now from result }
{
    if from >= 1024 {
        return None;
    }
    if let Some(place) = bit_behind(groups, from) {
        return Some(place);
    }
    let Some(at) = top_from(top, from / 64 + 1) else {
        return None;
    };
    bit_behind(groups, at * 64)
}

// The first bit of the words from a place on.
fn word_from(top: &[u64], groups: &[u64], words: &[u64], from: usize) -> Option<usize>
    requires top { length top.now ≡ 1 }
    requires groups { length groups.now ≡ 16 }
    requires words { length words.now ≡ 1024 }
    requires upper { IsSummary top.now groups.now }
    requires lower { IsSummary groups.now words.now }
    ensures { BitFrom words.now from result }
{
    if from >= 65536 {
        return None;
    }
    if let Some(place) = bit_behind(words, from) {
        return Some(place);
    }
    let Some(at) = group_from(top, groups, from / 64 + 1) else {
        return None;
    };
    bit_behind(words, at * 64)
}

impl StreamSet {
    /// The empty set.
    pub fn new() -> StreamSet
        ensures { (id : ℕ) → has_id id result ≡ false }
    {
        StreamSet {
            words: [0; 1024],
            groups: [0; 16],
            top: [0; 1],
        }
    }

    /// Puts an id in, or takes it out.
    pub fn put(&mut self, id: u16, inside: bool)
        ensures here { has_id id self.new ≡ inside }
        ensures others { (other : ℕ) → other ≢ id → has_id other self.new ≡ has_id other self.old }
    {
        let place = id as usize;
        put_bit(&mut self.words, place, inside);
        summarize(&mut self.groups, &self.words, place / 64);
        summarize(&mut self.top, &self.groups, place / 64 / 64);
    }

    /// Whether an id is in the set.
    pub fn contains(&self, id: u16) -> bool
        ensures { result ≡ has_id id self.now }
    {
        has_bit(&self.words, id as usize)
    }

    /// The least id of the set that is not below `from`.
    pub fn next(&self, from: usize) -> Option<u16>
        ensures { IdFrom self.now from result }
    {
        match word_from(&self.top, &self.groups, &self.words, from) {
            Some(place) => Some(place as u16),
            None => None,
        }
    }
}
