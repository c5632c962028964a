//! Mids as keys of a table.
ghost use Rattle.std.specs.Prelude.{◌≡◌};
ghost use Rattle.std.specs.Hash as fed;
ghost use Rattle.std.specs.Cmp.Rules.{hashing};
ghost use Rattle.std.proofs.Common.{rules};

use rtc_sdp_values::Mid;
use std::hash::{Hash, Hasher};

/// The mid of a line, by which its table finds it.
#[derive(Clone, Copy, PartialEq, Eq)]
pub struct LineKey {
    pub mid: Mid,
}

impl Hash for LineKey {
    ghost hash_input = { λ key. fed.str key.mid };

    ghost respects_eq = { Prim.search (hashing, rules) };

    fn hash<H: Hasher>(&self, state: &mut H) {
        self.mid.as_str().hash(state);
    }
}
