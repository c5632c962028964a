//! Sets of mids.
ghost use Rattle.std.specs.Prelude.{◌≡◌, IfOk};
ghost use Rattle.rtc_sdp_values.specs.MidSets.{HasMids};
ghost use Rattle.rtc_sdp_values.specs.Mids.{are_distinct as AreDistinctMids};

use crate::Mid;
use std::alloc::{AllocError, Global};
use std::collections::BTreeSet;

/// The mids as a set, in which one is found without a walk over them.
pub fn collect_mids(alloc: Global, mids: &[Mid]) -> Result<BTreeSet<Mid>, AllocError>
    ensures { IfOk result (λ found. HasMids found mids.now) }
{
    let mut found = BTreeSet::new(alloc);
    let mut at = mids.len();
    while at > 0 {
        at -= 1;
        found.insert(mids[at])?;
    }
    Ok(found)
}

/// Whether no mid is repeated.
pub(crate) fn is_each_once(alloc: Global, mids: &[Mid]) -> Result<bool, AllocError>
    ensures { IfOk result (λ once. once ≡ AreDistinctMids mids.now) }
{
    let mut found = BTreeSet::new(alloc);
    let mut at = mids.len();
    while at > 0 {
        at -= 1;
        if !found.insert(mids[at])? {
            return Ok(false);
        }
    }
    Ok(true)
}
