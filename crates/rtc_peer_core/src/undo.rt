//! Rows that are set or stopped, as they were before.
ghost use Rattle.std.specs.Prelude.{◌≡◌, ◌++◌, ◌∷◌, [], true, false, cond, not, List, ℕ, IfOk, OnOk, OnErr};
ghost use Rattle.std.specs.BTreeMap.{is_at};
ghost use Rattle.std.specs.BTreeSet.{contains};
ghost use Rattle.std.specs.Cmp.Lexicographic.{slice_cmp};
ghost use Rattle.std.specs.Ordering.{nat_cmp};
ghost use Rattle.rtc_sdp_values.specs.Mids.{is_among};
ghost use Rattle.rtc_peer_core.specs.Undo.{has_undo, noted, undo_mids, without_last};

use rtc_sdp_values::{Direction, LineRow, Mid};
use rtc_wire::Seq;
use std::alloc::{AllocError, Global};
use std::collections::BTreeSet;
use std::marker::Model;
use std::mem;

/// The rows that the staged changes of a peer set or stopped: the mid of each, its direction and whether it was stopped before the
/// first of these changes.
///
/// A contract sees them as a list. A row is found by its mid without a walk over the list.
pub struct Undo {
    rows: Vec<(Mid, Direction, bool)>,
    // The mids of these rows.
    mids: BTreeSet<Mid>,
}

impl Model for Undo {
    ghost use Rattle.std.specs.Prelude.{Bool, List, ℕ};
    ghost use Rattle.rtc_sdp_values.specs.declared.direction.Direction.{Direction};
    ghost use Rattle.rtc_peer_core.specs.UndoIndex.{IsNoted};

    ghost Value = { List (List ℕ × Direction × Bool) };

    ghost view = { λ undo. undo.rows.items };

    ghost invariant = { λ undo. IsNoted undo.rows.items undo.mids };
}

// Written out, so that the proof of what owns the rows sees one call and not the drop of each field.
impl Drop for Undo {
    fn drop(self) {
        let Undo {
            rows: _rows,
            mids: _mids,
        } = self;
    }
}

// Removes a mid, if it is there.
fn forget_mid(mids: &mut BTreeSet<Mid>, mid: Mid)
    ensures { (other : List ℕ) → contains (slice_cmp nat_cmp) mids.new other
        ≡ cond (is_at (slice_cmp nat_cmp mid) other) false (contains (slice_cmp nat_cmp) mids.old other) }
{
    mids.remove(&mid);
}

impl Undo {
    /// No row was set or stopped.
    pub fn new(alloc: Global) -> Undo
        ensures { result ≡ [] }
    {
        Undo {
            rows: Vec::new(alloc),
            mids: BTreeSet::new(alloc),
        }
    }

    /// Lets every row go.
    pub fn clear(&mut self)
        ensures { self.new ≡ [] }
    {
        self.rows.clear();
        self.mids.clear();
    }

    /// The rows; none is kept.
    pub fn take(&mut self, alloc: Global) -> Seq<(Mid, Direction, bool)>
        ensures rows { result ≡ self.old }
        ensures none { self.new ≡ [] }
    {
        let rows = mem::replace(&mut self.rows, Vec::new(alloc));
        self.mids.clear();
        Seq::new(rows)
    }

    // Adds a row that is not there yet.
    fn add(&mut self, mid: Mid, dir: Direction, stopped: bool) -> Result<bool, AllocError>
        requires { is_among (undo_mids self.old) mid ≡ false }
        ensures rows { OnOk result (self.new ≡ self.old ++ (mid, dir, stopped) ∷ []) }
        ensures added { IfOk result (λ added. added ≡ true) }
        ensures err { OnErr result (self.new ≡ self.old) }
    {
        self.rows.reserve(1)?;
        self.mids.insert(mid)?;
        self.rows.push_reserved((mid, dir, stopped));
        Ok(true)
    }

    /// Notes a media row as it is, and returns whether it was not noted before: what was noted first is kept.
    pub fn note(&mut self, row: &LineRow) -> Result<bool, AllocError>
        ensures rows { OnOk result (self.new ≡ noted row.now self.old) }
        ensures added { IfOk result (λ added. added ≡ not (has_undo row.now self.old)) }
        ensures err { OnErr result (self.new ≡ self.old) }
    {
        match row {
            LineRow::Media {
                mid,
                dir,
                stopped,
                ..
            } => {
                if self.mids.contains(mid) {
                    return Ok(false);
                }
                self.add(*mid, *dir, *stopped)
            }
            LineRow::App { .. } => Ok(false),
        }
    }

    /// Lets the row that was noted last go.
    pub fn forget_last(&mut self)
        ensures { self.new ≡ without_last self.old }
    {
        if let Some(was) = self.rows.pop() {
            forget_mid(&mut self.mids, was.0);
        }
    }
}
