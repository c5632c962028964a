//! Tables of candidates.
ghost use Rattle.std.specs.Prelude.{
  ◌≡◌,
  ◌∷◌,
  [],
  ◌++◌,
  ◌||◌,
  if◌then◌else◌,
  IfOk,
  OnOk,
  OnErr,
  not,
};
ghost use Rattle.std.specs.List.{list_any};
ghost use Rattle.rtc_plain_ice.specs.Places.{is_same_place, has_place, without_place, has_viable};
ghost use Rattle.rtc_plain_ice.specs.PlaceTables.{has_key, key_with};

use crate::addr_key::AddrKey;
use crate::place_key::PlaceKey;
use indexmap::IndexSet;
use rtc_sdp_values::Candidate;
use rtc_wire::Addr;
use std::alloc::{AllocError, Global};
use std::marker::Model;

/// Candidates in the order in which they were added, which are found by address and protocol.
pub struct CandidateTable {
    rows: Vec<Candidate>,
    places: IndexSet<PlaceKey>,
}

impl Model for CandidateTable {
    ghost use Rattle.std.specs.Prelude.{List};
    ghost use Rattle.rtc_sdp_values.specs.declared.candidate.Candidate.{Candidate};
    ghost use Rattle.rtc_plain_ice.specs.PlaceTables.{FindsPlaces};

    ghost Value = { List Candidate };

    ghost view = { λ t. t.rows.items };

    ghost invariant = { λ t. FindsPlaces t.places t.rows.items };
}

/// Whether two candidates have one address and one protocol.
fn same_place(a: &Candidate, b: &Candidate) -> bool
    ensures { result ≡ is_same_place a.now b.now }
{
    PlaceKey::of_candidate(a) == PlaceKey::of_candidate(b)
}

/// Whether one of the four is true.
fn is_any(udp: bool, tcp: bool, ssl_tcp: bool, tls: bool) -> bool
    ensures { result ≡ (((udp || tcp) || ssl_tcp) || tls) }
{
    udp || tcp || ssl_tcp || tls
}

// Written out, so that the proof of what owns a table sees one call.
impl Drop for CandidateTable {
    fn drop(self) {
        let CandidateTable {
            rows: _rows,
            places: _places,
        } = self;
    }
}

impl CandidateTable {
    /// Without candidates. No memory is taken.
    pub fn new(alloc: Global) -> CandidateTable
        ensures { result ≡ [] }
    {
        CandidateTable {
            rows: Vec::new(alloc),
            places: IndexSet::new(alloc),
        }
    }

    pub fn as_slice(&self) -> &[Candidate]
        ensures { result.now ≡ self.now }
    {
        self.rows.as_slice()
    }

    /// Whether a candidate with the address and the protocol of another is there.
    pub fn holds(&self, c: &Candidate) -> bool
        ensures { result ≡ has_place c.now self.now }
    {
        let key = PlaceKey::of_candidate(c);
        self.places.contains(&key)
    }

    /// Whether an address is that of a candidate.
    pub fn holds_addr(&self, a: &Addr) -> bool
        ensures { result ≡ has_viable a.now self.now }
    {
        let addr = AddrKey::new(a);
        let udp = self.holds_at(0, addr);
        let tcp = self.holds_at(1, addr);
        let ssl_tcp = self.holds_at(2, addr);
        let tls = self.holds_at(3, addr);
        is_any(udp, tcp, ssl_tcp, tls)
    }

    /// Whether a candidate of this protocol and address is there.
    fn holds_at(&self, proto: u8, addr: AddrKey) -> bool
        ensures { result ≡ list_any (has_key (key_with proto addr)) self.now }
    {
        let key = PlaceKey { proto, addr };
        self.places.contains(&key)
    }

    /// Adds a candidate unless its address and protocol are there. Returns whether it was added.
    pub fn add(&mut self, c: Candidate) -> Result<bool, AllocError>
        ensures answer { IfOk result (λ taken. (taken ≡ not (has_place c self.old))
            × (self.new ≡ (if taken then self.old ++ c ∷ [] else self.old))) }
        ensures err { OnErr result (self.new ≡ self.old) }
    {
        if self.holds(&c) {
            return Ok(false);
        }
        self.push(c)?;
        Ok(true)
    }

    /// Puts a candidate behind the others.
    fn push(&mut self, c: Candidate) -> Result<(), AllocError>
        ensures ok { OnOk result (self.new ≡ self.old ++ c ∷ []) }
        ensures err { OnErr result (self.new ≡ self.old) }
    {
        let key = PlaceKey::of_candidate(&c);
        self.places.reserve(1)?;
        self.rows.push(c)?;
        if self.places.insert(key).is_err() {
            unreachable!();
        }
        Ok(())
    }

    /// Removes the candidates with the address and the protocol of another.
    pub fn remove(&mut self, c: &Candidate)
        ensures { self.new ≡ without_place c.now self.old }
    {
        let key = PlaceKey::of_candidate(c);
        self.places.swap_remove(&key);
        self.rows.retain(|x| !same_place(x, c));
    }

    pub fn clear(&mut self)
        ensures { self.new ≡ [] }
    {
        self.rows.clear();
        self.places.clear();
    }
}
