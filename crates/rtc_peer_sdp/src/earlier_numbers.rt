//! Numbers of SSRCs that were drawn earlier in a call.
ghost use Rattle.std.specs.Prelude.{◌≡◌, ◌++◌, ◌∷◌, [], OnOk};
ghost use Rattle.rtc_peer_core.specs.Sources.{is_number};

use std::alloc::{AllocError, Global};
use std::collections::BTreeSet;
use std::marker::Model;

/// The numbers that were drawn earlier in a call. A contract sees them as a list, in the order in which they were drawn.
#[derive(Drop)]
pub struct EarlierNumbers {
    numbers: Vec<u32>,
    found: BTreeSet<u32>,
}

impl Model for EarlierNumbers {
    ghost use Rattle.std.specs.Prelude.{ℕ, List};
    ghost use Rattle.rtc_peer_sdp.specs.EarlierNumbers.{HasNumbers};

    ghost Value = { List ℕ };

    ghost view = { λ earlier. earlier.numbers.items };

    ghost invariant = { λ earlier. HasNumbers earlier.found earlier.numbers.items };
}

impl EarlierNumbers {
    /// Nothing was drawn.
    pub fn new(alloc: Global) -> EarlierNumbers
        ensures { result ≡ [] }
    {
        EarlierNumbers {
            numbers: Vec::new(alloc),
            found: BTreeSet::new(alloc),
        }
    }

    /// Whether a number is among them.
    pub fn has(&self, n: u32) -> bool
        ensures { result ≡ is_number n self.now }
    {
        self.found.contains(&n)
    }

    /// Adds a number that was drawn.
    pub fn push(&mut self, n: u32) -> Result<(), AllocError>
        ensures { OnOk result (self.new ≡ self.old ++ n ∷ []) }
    {
        self.numbers.reserve(1)?;
        self.found.insert(n)?;
        self.numbers.push_reserved(n);
        Ok(())
    }
}
