//! Ids that can be taken.
ghost use Rattle.std.specs.Prelude.{◌≡◌, ◌%◌, ◌<◌, true, false, slice_get};
ghost use Rattle.std.specs.List.{All};
ghost use Rattle.std.specs.List.Sorted.{IsStrictlyIncreasing};
ghost use Rattle.rtc_channels.specs.Ids.{
  parity_of as ParityOf,
  full_pool,
  is_free as IsFree,
  is_missing as IsMissing,
  without_id,
  with_id,
  pool_marked,
  IsIdOf,
};

use rtc_sctp_values::words::{first_bit, full_words, has_bit, put_bit, summarize};
use std::marker::Model;

// A client takes even ids, a server odd ones (RFC 8832, section 6).
fn parity_of(client: bool) -> u16
    ensures parity { result ≡ ParityOf client }
    ensures bit { result < 2 }
{
    if client { 0 } else { 1 }
}

/// The stream ids of one parity that are free (RFC 8832, section 6): all of them at first.
#[derive(Debug, Drop)]
pub struct FreeIds {
    parity: u16,
    // A bit for each id, in ascending order: whether it is free.
    words: [u64; 512],
    // A bit for each of `words`: whether it has a bit.
    groups: [u64; 8],
    // A bit for each of `groups`.
    top: [u64; 1],
}

impl Model for FreeIds {
    ghost use Rattle.rtc_channels.specs.Ids.{IdPool};
    ghost use Rattle.rtc_channels.specs.Words.{ids_of, AreLevels};

    ghost Value = { IdPool };

    ghost view = { λ ids. record { parity = ids.parity; free = ids_of ids.parity ids.words } };

    ghost invariant = { λ ids. AreLevels ids.parity ids.words ids.groups ids.top };
}

impl FreeIds {
    /// Every id of a side: the even ones of the DTLS client, the odd ones of the server.
    pub fn new(client: bool) -> FreeIds
        ensures { result ≡ full_pool client }
    {
        FreeIds {
            parity: parity_of(client),
            words: full_words(),
            groups: full_words(),
            top: [255],
        }
    }

    /// The least id that is free.
    pub fn least(&self) -> Option<u16>
        ensures first { result ≡ slice_get self.now.free 0 }
        ensures ascending { IsStrictlyIncreasing self.now.free }
        ensures ids { All (IsIdOf self.now.parity) self.now.free }
    {
        if self.top[0] == 0 {
            return None;
        }
        let group = first_bit(&self.top, 0);
        let word = first_bit(&self.groups, group);
        let place = first_bit(&self.words, word);
        Some(2 * place as u16 + self.parity)
    }

    /// Takes an id. Returns whether it was free; nothing changes if it was not.
    pub fn take(&mut self, id: u16) -> bool
        ensures answer { result ≡ IsFree id self.old }
        ensures taken { self.new ≡ without_id id self.old }
        ensures kept { result ≡ false → self.new ≡ self.old }
    {
        if !self.is_free(id) {
            return false;
        }
        self.mark(id, false);
        true
    }

    /// Gives an id back. Returns whether it was missing; nothing changes if it was free or has the other parity.
    pub fn put(&mut self, id: u16) -> bool
        ensures answer { result ≡ IsMissing id self.old }
        ensures returned { self.new ≡ with_id id self.old }
        ensures kept { result ≡ false → self.new ≡ self.old }
    {
        if id % 2 != self.parity {
            return false;
        }
        if self.is_free(id) {
            return false;
        }
        self.mark(id, true);
        true
    }

    // Whether an id can be taken.
    fn is_free(&self, id: u16) -> bool
        ensures free { result ≡ IsFree id self.now }
        ensures parity { result ≡ true → id % 2 ≡ self.now.parity }
    {
        id % 2 == self.parity && has_bit(&self.words, (id / 2) as usize)
    }

    // Makes an id of the pool free or not.
    fn mark(&mut self, id: u16, free: bool)
        requires { id % 2 ≡ self.old.parity }
        ensures { self.new ≡ pool_marked id free self.old }
    {
        let place = (id / 2) as usize;
        put_bit(&mut self.words, place, free);
        summarize(&mut self.groups, &self.words, place / 64);
        summarize(&mut self.top, &self.groups, place / 64 / 64);
    }
}
