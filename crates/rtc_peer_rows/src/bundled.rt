//! BUNDLE groups in which a mid is found.
ghost use Rattle.std.specs.Prelude.{◌≡◌, IfOk};
ghost use Rattle.rtc_peer_rows.specs.NamedMids.{named_mids};
ghost use Rattle.rtc_sdp_values.specs.Mids.{is_bundled as IsBundled};

use rtc_sdp_values::{MediaLine, Mid, Sdp, collect_mids};
use rtc_wire::Seq;
use std::alloc::{AllocError, Global};
use std::collections::BTreeSet;
use std::marker::Model;

/// BUNDLE groups, in which a mid is found without a walk over them. A contract sees the groups.
#[derive(Drop)]
pub struct Bundled<'a> {
    groups: &'a [Seq<Mid>],
    // The mids that they name; None if no line is disabled, so that none is looked up.
    mids: Option<BTreeSet<Mid>>,
}

impl<'a> Model for Bundled<'a> {
    ghost use Rattle.std.specs.Prelude.{ℕ, List};
    ghost use Rattle.rtc_peer_rows.specs.NamedMids.{HasNamed};

    ghost Value = { List (List (List ℕ)) };

    ghost view = { λ bundled. bundled.groups.now };

    ghost invariant = { λ bundled. HasNamed bundled.mids bundled.groups.now };
}

fn list_named(alloc: Global, groups: &[Seq<Mid>]) -> Result<Vec<Mid>, AllocError>
    ensures { IfOk result (λ mids. mids.items ≡ named_mids groups.now) }
{
    let mut mids = Vec::new(alloc);
    for group in groups {
        mids.extend_from_slice(group.as_slice())?;
    }
    Ok(mids)
}

fn is_named(groups: &[Seq<Mid>], mid: Mid) -> bool
    ensures { result ≡ IsBundled groups.now mid }
{
    for group in groups {
        if mid.is_among(group.as_slice()) {
            return true;
        }
    }
    false
}

fn has_disabled(lines: &[MediaLine]) -> bool {
    for line in lines {
        if line.disabled {
            return true;
        }
    }
    false
}

impl<'a> Bundled<'a> {
    /// The groups of a session description.
    pub fn of(alloc: Global, sdp: &'a Sdp) -> Result<Bundled<'a>, AllocError>
        ensures { IfOk result (λ bundled. bundled ≡ sdp.now.groups) }
    {
        let groups = sdp.groups.as_slice();
        if !has_disabled(sdp.lines.as_slice()) {
            return Ok(Bundled { groups, mids: None });
        }
        let named = list_named(alloc, groups)?;
        let mids = collect_mids(alloc, named.as_slice())?;
        Ok(Bundled {
            groups,
            mids: Some(mids),
        })
    }

    /// Whether one of them names a mid.
    pub fn names(&self, mid: Mid) -> bool
        ensures { result ≡ IsBundled self.now mid }
    {
        match &self.mids {
            Some(mids) => mids.contains(&mid),
            None => is_named(self.groups, mid),
        }
    }
}
